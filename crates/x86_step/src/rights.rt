//! PKRU.

ghost use Rattle.std.specs.Prelude.{◌≡◌, ◌≤◌, ◌+◌, ◌==◌, None, Ok, Err, false, if◌then◌else◌};
ghost use Rattle.erim_defs.specs.declared.machine.Access.TheVariants.{Fault};
ghost use Rattle.erim_defs.specs.declared.machine.Cause.TheVariants.{General};
ghost use Rattle.erim_defs.specs.Machine.Plan.{Give, Refuse};
ghost use Rattle.erim_defs.specs.Machine.Meaning.{plan_wrpkru, plan_rdpkru};
ghost use Rattle.erim_defs.specs.Machine.Registers.{low_half, register};

use crate::registers::{low_half, onward, register, set_register};
use erim_defs::register::{RAX, RCX, RDX};
use erim_defs::{Access, Cause, Thread};

/// Is the low half of a register 0?
fn has_zero(thread: &Thread, r: u8) -> bool
    ensures { result ≡ (low_half (register thread.now r) == 0) }
{
    low_half(register(thread, r)) == 0
}

/// Cause General, unless the conditions of an instruction hold.
pub(crate) fn if_allowed(allowed: bool, thread: &Thread) -> Result<(), Access>
    ensures { result ≡ (if allowed then Ok tt else Err (Fault General thread.now.rip)) }
{
    if allowed {
        Ok(())
    } else {
        Err(Access::Fault {
            cause: Cause::General,
            addr: thread.rip,
        })
    }
}

/// WRPKRU: EAX to PKRU. ECX and EDX have to be 0. Is it allowed?
#[tactic(auto, unfolding(erim_defs::specs::Machine::Meaning::plan_wrpkru))]
pub(crate) fn exec_wrpkru(len: u8, thread: &mut Thread) -> bool
    ensures plan { plan_wrpkru len thread.old ≡ (if result then Give thread.new None else Refuse) }
    ensures refused { result ≡ false → thread.new ≡ thread.old }
{
    if has_zero(thread, RCX) && has_zero(thread, RDX) {
        thread.pkru = low_half(register(thread, RAX));
        onward(thread, len);
        true
    } else {
        false
    }
}

/// RDPKRU: PKRU to EAX, and RDX is cleared. ECX has to be 0. Is it allowed?
#[tactic(auto, unfolding(erim_defs::specs::Machine::Meaning::plan_rdpkru))]
pub(crate) fn exec_rdpkru(len: u8, thread: &mut Thread) -> bool
    ensures plan { plan_rdpkru len thread.old ≡ (if result then Give thread.new None else Refuse) }
    ensures refused { result ≡ false → thread.new ≡ thread.old }
{
    if has_zero(thread, RCX) {
        onward(thread, len);
        let pkru = u64::from(thread.pkru);
        set_register(thread, RAX, pkru);
        set_register(thread, RDX, 0);
        true
    } else {
        false
    }
}
