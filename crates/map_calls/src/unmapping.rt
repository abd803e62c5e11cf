//! The call munmap.

ghost use Rattle.std.specs.Prelude.{◌≡◌, ◌+◌, ◌<◌, OnErr, IfErr, None};
ghost use Rattle.erim_defs.specs.declared.machine.Thread.{Thread};
ghost use Rattle.erim_defs.specs.Machine.MapCalls.{munmap_result};
ghost use Rattle.erim_defs.specs.Machine.State.{State};
ghost use Rattle.map_calls.specs.Answers.{Sees, SayTheSame, map_answer};
ghost use Rattle.map_calls.specs.Ranges.{rights_within, zeros_within};
ghost use Rattle.erim_defs.specs.Machine.Access.{rights_in};

use crate::guards::{has_pin, is_protected};
use crate::range::UserRange;
use crate::walk::next_in;
use erim_defs::linux::{EAGAIN, EINVAL, EPERM};
use erim_defs::{Thread, Trust};
use page_store::{Memory, Pages};

/// Unmaps the mapped pages of a range.
pub(crate) fn unmap_range<P: Pages>(pages: &mut P, range: &UserRange)
    ensures rights { rights_in (P.seen pages.new) ≡ rights_within (rights_in (P.seen pages.old))
        range.now.first (range.now.first + range.now.count) (λ _. None) }
    ensures bytes { P.bytes pages.new ≡ zeros_within (P.bytes pages.old) range.now.first
        (range.now.first + range.now.count) }
    ensures frames { P.frames pages.new ≡ P.frames pages.old }
{
    let mut from = range.first;
    while let Some(page) = next_in(pages, from, range.end()) {
        pages.unmap(page);
        from = page + 1;
    }
}

/// munmap(2): unmaps the pages from `addr` on that `len` covers. `Err` is the error number.
pub fn munmap<P: Pages>(
    pages: &mut P,
    trust: &Trust,
    threads: &[Thread],
    pkru: u32,
    addr: u64,
    len: u64,
) -> Result<u64, u16>
    ensures answer { (s : State) (t : Thread)
        → Sees P.Memory trust.now pages.old threads.now s → t.pkru ≡ pkru
        → munmap_result s t addr len ≡ map_answer P.Memory s t pages.new result }
    ensures kept { OnErr result (SayTheSame P.Memory pages.old pages.new) }
    ensures error { IfErr result (λ error. 0 < error) }
    ensures frames { P.frames pages.new ≡ P.frames pages.old }
{
    if len == 0 {
        return Err(EINVAL);
    }
    let range = UserRange::covering(addr, len)?;
    if is_protected(pages, trust, pkru, &range) {
        return Err(EPERM);
    }
    if has_pin(threads, &range) {
        return Err(EAGAIN);
    }
    unmap_range(pages, &range);
    Ok(0)
}
