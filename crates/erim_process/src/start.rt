//! How a process starts.

ghost use Rattle.std.specs.Prelude.{◌≡◌, ◌≤◌, ◌⊎◌, ◌&&◌, ◌||◌, ◌==◌, ℕ, List, [], Some, None, IfOk};
ghost use Rattle.std.specs.Prelude.{MatchResult, IsTrue, true};
ghost use Rattle.erim_defs.specs.Bits.{has_bit};
ghost use Rattle.erim_defs.specs.Encoding.Parts.{AreBytes};
ghost use Rattle.erim_defs.specs.Inspection.Image.{IsAccepted, entry_point, image_heaps};
ghost use Rattle.erim_defs.specs.Inspection.Image.{image_trust};
ghost use Rattle.erim_defs.specs.Inspection.Trust.{is_domain};
ghost use Rattle.erim_defs.specs.Machine.State.{Setup as Given};
ghost use Rattle.erim_defs.specs.Machine.Start.{first_thread, frames_needed, first_state};
ghost use Rattle.erim_process.specs.Machine.{machine_state};
ghost use Rattle.erim_process.specs.ProcessInvariant.{setup_of};
ghost use Rattle.erim_defs.specs.Machine.StartFaults.{start_fault};

use crate::image_pages::load_pages;
use crate::machine::Machine;
use crate::setup::Setup;
use erim_defs::page::STACK_START;
use erim_defs::register::RSP;
use erim_defs::{Flags, Keys, StartFault, Thread, Trust};
use image_code::ImageCode;
use page_store::{Memory, PageList};
use std::alloc::Global;
use sys_calls::{Output, Threads};
use trusted_heap::Heap;

/// What keeps the image from starting.
#[tactic(auto, unfolding(erim_defs::specs::Machine::StartFaults::start_fault))]
pub(crate) fn check_start(alloc: Global, setup: &Setup) -> Result<(), StartFault>
    ensures { MatchResult result (λ _. start_fault (setup_of setup.now) ≡ None)
        (λ fault. (fault ≡ StartFault.Memory) ⊎ (start_fault (setup_of setup.now) ≡ Some fault)) }
{
    let trust = setup.image.trust();
    let code = ImageCode::lay(alloc, &setup.image)?;
    let text = code.on_text(alloc, trust)?;
    if let Some(found) = text.next_unsafe(trust, 0) {
        return Err(StartFault::TrustedUnsafe { found });
    }
    let needed = setup.image.pages() + 16;
    if setup.frames < needed {
        return Err(StartFault::TooFewFrames { needed });
    }
    Ok(())
}

/// The thread that begins: closed, at the entry point, its stack empty.
#[tactic(auto, unfolding(erim_defs::specs::Machine::Start::first_thread))]
fn first_thread(entry: u64, trust: &Trust) -> Thread
    ensures { (setup : Given) → entry_point setup.image ≡ entry
        → image_trust setup.image ≡ trust.now
        → result ≡ first_thread setup }
{
    let mut regs = [0; 16];
    regs[RSP as usize] = STACK_START;
    Thread {
        regs,
        rip: entry,
        flags: Flags {
            cf: false,
            pf: false,
            zf: false,
            sf: false,
            of: false,
        },
        pkru: trust.closed_value(),
        origin: None,
        live: true,
    }
}

/// The keys that are allocated at the start: 0 and the domains.
fn first_keys(trust: &Trust) -> Keys
    ensures { (image : List ℕ) → image_trust image ≡ trust.now → (key : ℕ)
        → has_bit result.taken key ≡ (key == 0 || is_domain (image_trust image) key) }
{
    Keys {
        taken: 1
            + 2 * u16::from(trust.is_domain(1))
            + 4 * u16::from(trust.is_domain(2))
            + 8 * u16::from(trust.is_domain(3))
            + 16 * u16::from(trust.is_domain(4)),
    }
}

/// The machine with its image loaded. It takes all its memory here.
pub(crate) fn load_machine(alloc: Global, setup: &Setup) -> Result<Machine<PageList>, StartFault>
    requires { frames_needed setup.now.image ≤ setup.now.frames }
    ensures state { IfOk result
        (λ machine. machine_state ⟦<PageList as Memory>⟧ (setup_of setup.now) machine
        ≡ first_state (setup_of setup.now)) }
    ensures heaps { IfOk result (λ machine. image_heaps setup.now.image ≡ machine.heap.heaps) }
    ensures frames { IfOk result (λ machine.
        setup.now.frames ≡ ⟦<PageList as Memory>⟧.frames machine.pages) }
    ensures fresh { IfOk result (λ machine. machine.steps ≡ 0) }
    ensures accepted { IfOk result (λ _. IsAccepted setup.now.image) }
    ensures octets { IfOk result (λ _. AreBytes setup.now.image) }
    ensures fault { MatchResult result (λ _. IsTrue true) (λ fault. fault ≡ StartFault.Memory) }
{
    let image = &setup.image;
    let mut pages = PageList::new(alloc, setup.frames)?;
    load_pages(&mut pages, image);
    let threads = Threads::new(alloc, first_thread(image.entry(), image.trust()))?;
    let heap = Heap::new(alloc, image.heaps())?;
    let output = Output::new(alloc)?;
    Ok(Machine {
        pages,
        threads,
        keys: first_keys(image.trust()),
        heap,
        output,
        end: None,
        steps: 0,
        escape: None,
    })
}
