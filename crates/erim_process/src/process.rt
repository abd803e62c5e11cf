//! A machine with the journal of its steps.

ghost use Rattle.std.specs.Prelude.{◌≡◌, ◌≢◌, ◌↔◌, IsTrue, ℕ, ◌+◌, ◌*◌, ◌/◌, ◌%◌, ◌^◌, true};
ghost use Rattle.std.specs.Prelude.{IsSome, IsNone, IfSome, slice_index, ◌<◌, ◌≤◌, ◌++◌, ◌∷◌, ◌⊎◌};
ghost use Rattle.std.specs.Prelude.{[], Some, None, IfOk, IfErr, length, slice_index_or};
ghost use Rattle.erim_defs.specs.declared.machine.Thread.{Thread};
ghost use Rattle.erim_defs.specs.Machine.Isolation.{IsIsolated, IsKept};
ghost use Rattle.erim_defs.specs.Output.Journal.{IsJournal};
ghost use Rattle.erim_defs.specs.Machine.Pages.{IsSound, word};
ghost use Rattle.erim_defs.specs.Machine.State.{any_live};
ghost use Rattle.erim_defs.specs.Machine.Step.{step};
ghost use Rattle.erim_defs.specs.Machine.Lawful.{AreLawful, IsLawful};
ghost use Rattle.page_store.specs.Answers.{HasBytes};
ghost use Rattle.erim_process.specs.Ends.{IfRefused};
ghost use Rattle.erim_process.specs.ProcessValue.{ProcessValue, state_of, IsRun};
ghost use Rattle.erim_process.specs.ProcessInvariant.{setup_of};
ghost use Rattle.erim_defs.specs.Machine.StartFaults.{start_fault};
ghost use Rattle.erim_defs.specs.Machine.StepAnswers.{step_answer};
ghost use Rattle.erim_defs.specs.declared.limits.TheConstants.{LEAST_FRAMES, MOST_FRAMES, MOST_STEPS};

use crate::machine::Machine;
use crate::setup::Setup;
use crate::start::{check_start, load_machine};
use erim_defs::{End, Entry, Escape, Rights, StartFault, Stepped, Thread};
use isolation::{always_kept, checked_is_startable, steps_are_lawful};
use page_store::{Memory, PageCopy, PageList, Pages};
use std::alloc::Global;
use std::marker::Model;

/// A process. Contracts see it as its setup and its journal, whose replay is its state.
#[derive(Drop)]
pub struct Process {
    setup: Setup,
    machine: Machine<PageList>,
    journal: Vec<Entry>,
}

impl Model for Process {
    ghost use Rattle.erim_process.specs.ProcessValue.{ProcessValue};

    ghost Value = { ProcessValue };

    ghost use Rattle.erim_process.specs.ProcessInvariant.{process_value, IsReplay};

    ghost view = { λ p. process_value p };

    ghost invariant = { λ p. IsReplay ⟦<PageList as Memory>⟧ p };
}

impl Process {
    /// A process at its start. It takes all its memory here, room for the journal's entries among
    /// it.
    pub fn start(alloc: Global, setup: Setup) -> Result<Process, StartFault>
        ensures started { IfOk result (λ process. (start_fault (setup_of setup) ≡ None)
            × (process ≡ record { setup = setup_of setup; journal = [] })) }
        ensures refused { IfErr result (λ fault. (fault ≡ StartFault.Memory)
            ⊎ (start_fault (setup_of setup) ≡ Some fault)) }
    {
        check_start(alloc, &setup)?;
        checked_is_startable();
        let machine = load_machine(alloc, &setup)?;
        let journal = Vec::with_capacity(alloc, setup.budget as usize)?;
        Ok(Process {
            setup,
            machine,
            journal,
        })
    }

    /// The steps that were made.
    pub fn steps(&self) -> u32
        ensures value { result ≡ (state_of self.now).steps }
        ensures within { result ≤ self.now.setup.budget }
    {
        self.machine.steps
    }

    /// The rights of a page. Keys are below 16, protection bits below 8, and mapped pages below
    /// 2^35.
    pub fn rights(&self, page: u64) -> Option<Rights>
        ensures value { result ≡ (state_of self.now).rights page }
        ensures sound { IfSome result IsSound }
        ensures low { IsSome result → page < 2 ^ 35 }
    {
        always_kept();
        self.machine.pages.rights(page)
    }

    /// The entries of the steps that were made. Their replay is the state.
    pub fn journal(&self) -> &[Entry]
        ensures entries { result.now ≡ self.now.journal }
        ensures run { IsRun self.now }
        ensures form { IsJournal (record {
          budget = self.now.setup.budget;
          frames = self.now.setup.frames;
          entries = result.now;
        }) }
        ensures counted { length result.now ≤ (state_of self.now).steps }
    {
        self.journal.as_slice()
    }

    /// How the process ended, if it has. If it hasn't, it has a live thread. A page that was
    /// refused is below 2^35.
    pub fn end(&self) -> Option<End>
        ensures value { result ≡ (state_of self.now).end }
        ensures live { IsNone result → any_live (state_of self.now).threads ≡ true }
        ensures refused { IfRefused (λ page. page < 2 ^ 35) result }
    {
        self.machine.end
    }

    /// The first escape, if there was one.
    pub fn escape(&self) -> Option<Escape>
        ensures { result ≡ (state_of self.now).escape }
    {
        self.machine.escape
    }

    /// What was written.
    pub fn output(&self) -> &[u8]
        ensures { result.now ≡ (state_of self.now).output }
    {
        self.machine.output.bytes()
    }

    /// What the process was started with. Every state of each run from it keeps the isolation
    /// invariant, and every step keeps the laws.
    pub fn setup(&self) -> &Setup
        ensures value { setup_of result.now ≡ self.now.setup }
        ensures same { (state_of self.now).setup ≡ self.now.setup }
        ensures some_budget { 1 ≤ self.now.setup.budget }
        ensures budget { self.now.setup.budget ≤ MOST_STEPS }
        ensures some_frames { LEAST_FRAMES ≤ self.now.setup.frames }
        ensures frames { self.now.setup.frames ≤ MOST_FRAMES }
        ensures isolated { IsIsolated self.now.setup }
        ensures lawful { AreLawful self.now.setup }
    {
        always_kept();
        steps_are_lawful();
        &self.setup
    }

    /// Was the process started with the same bytes, budget and frames?
    pub fn same_setup(&self, other: &Setup) -> bool
        ensures { IsTrue result ↔ (self.now.setup ≡ setup_of other.now) }
    {
        self.setup.image.bytes() == other.image.bytes()
            && self.setup.budget == other.budget
            && self.setup.frames == other.frames
    }

    /// How many threads there have been.
    pub fn thread_count(&self) -> u8
        ensures count { result ≡ length (state_of self.now).threads }
        ensures few { result ≤ 16 }
    {
        self.machine.threads.list().len() as u8
    }

    /// A thread, ended ones included.
    pub fn thread(&self, thread: u8) -> Thread
        requires { thread < length (state_of self.now).threads }
        ensures { (d : Thread) → result ≡ slice_index_or (state_of self.now).threads thread d }
    {
        self.machine.threads.list()[thread as usize]
    }

    /// Copies a page: no rights and zeros where it isn't mapped. Rights are as `rights` says.
    pub fn copy_page(&self, page: u64, into: &mut PageCopy)
        ensures page { into.new.page ≡ page }
        ensures rights { into.new.rights ≡ (state_of self.now).rights page }
        ensures sound { IfSome into.new.rights IsSound }
        ensures low { IsSome into.new.rights → page < 2 ^ 35 }
        ensures long { length into.new.bytes ≡ 4096 }
        ensures zeros { into.new.rights ≡ None → (i : ℕ) → i < 4096
            → slice_index into.new.bytes i ≡ 0 }
        ensures bytes { (i : ℕ) → i < 4096
            → slice_index into.new.bytes i ≡ (state_of self.now).bytes (4096 * page + i) }
    {
        always_kept();
        self.machine.pages.copy_page(page, into);
    }

    /// The number in the 8 bytes from `addr` on, low byte first, whatever the rights of their page.
    pub fn word(&self, addr: u64) -> u64
        requires aligned { addr % 8 ≡ 0 }
        requires mapped { IsSome ((state_of self.now).rights (addr / 4096)) }
        ensures value { result ≡ word (state_of self.now).bytes addr 8 }
        ensures bytes { HasBytes (state_of self.now).bytes addr 8 result }
    {
        self.machine.pages.word(addr)
    }

    /// Makes one step of a thread, where it is defined, and adds its entry to the journal. `worker`
    /// is the number of the worker that makes it, 0 to 8. Takes no memory.
    ///
    /// The state afterwards keeps the isolation invariant. Of a step that was made it is known who
    /// touches trusted memory, how a thread comes to be open, what an open thread outside trusted
    /// text does, and when a page is published or refused.
    pub fn step_now(&mut self, worker: u16, thread: u8) -> Stepped
        requires { worker ≤ 8 }
        ensures answer { result ≡ step_answer (state_of self.old) thread }
        ensures journal { result ≡ Stepped.Made
            → self.new ≡ record {
              setup = self.old.setup;
              journal = self.old.journal
                  ++ record { worker = worker; thread = thread; count = 1 } ∷ [];
            } }
        ensures state { result ≡ Stepped.Made
            → step thread (state_of self.old) ≡ Some (state_of self.new) }
        ensures counted { result ≡ Stepped.Made
            → (state_of self.new).steps ≡ (state_of self.old).steps + 1 }
        ensures other { result ≢ Stepped.Made → self.new ≡ self.old }
        ensures setup { self.new.setup ≡ self.old.setup }
        ensures run { IsRun self.new }
        ensures kept { IsKept (state_of self.new) }
        ensures lawful { result ≡ Stepped.Made
            → IsLawful thread (state_of self.old) (state_of self.new) }
    {
        always_kept();
        steps_are_lawful();
        let budget = self.setup.budget;
        match self.machine.step(self.setup.image.trust(), budget, thread) {
            Stepped::Made => {
                let _ = self.journal.push(Entry {
                    worker,
                    thread: u16::from(thread),
                    count: 1,
                });
                Stepped::Made
            }
            Stepped::Ended => Stepped::Ended,
            Stepped::Spent => Stepped::Spent,
            Stepped::NotLive => Stepped::NotLive,
        }
    }
}
