//! The origin of a thread, and the escape.

ghost use Rattle.std.specs.Prelude.{◌≡◌};
ghost use Rattle.erim_defs.specs.Machine.State.{is_escape, is_inside, is_outside, with_origin};
ghost use Rattle.erim_defs.specs.Machine.Step.{writes_pkru, sequence_of};
ghost use Rattle.x86_step.specs.Reach.{IsInReach};

use crate::xrstor::asks_pkru;
use erim_defs::{Found, Insn, SeqKind, Thread, Trust};

/// Does the thread open a domain other than the one in whose text it stands?
pub(crate) fn is_outside(trust: &Trust, thread: &Thread) -> bool
    ensures { result ≡ is_outside trust.now thread.now }
{
    trust.opens_other(thread.pkru, trust.text_key(thread.rip))
}

/// Is the thread open, and at home?
pub(crate) fn is_inside(trust: &Trust, thread: &Thread) -> bool
    ensures { result ≡ is_inside trust.now thread.now }
{
    !trust.is_closed(thread.pkru) && !is_outside(trust, thread)
}

/// Was the thread open and at home, and is it afterwards open and not at home? A step that is free
/// of it never escapes.
pub fn is_escape(trust: &Trust, free: bool, before: &Thread, after: &Thread) -> bool
    ensures { result ≡ is_escape trust.now free before.now after.now }
{
    !free && is_inside(trust, before) && is_outside(trust, after)
}

/// Gives a thread its origin after a step. `executed` is the sequence that the step executed, if it
/// is one.
pub fn set_origin(trust: &Trust, executed: Option<Found>, thread: &mut Thread)
    ensures { thread.new ≡ with_origin trust.now executed thread.old }
{
    thread.origin = if is_outside(trust, thread) {
        executed.or(thread.origin)
    } else {
        None
    };
}

/// The sequence that an instruction at `rip` is, if it is one.
pub(crate) fn sequence_of(insn: &Insn, rip: u64, len: u8, skip: u8) -> Option<Found>
    requires placed { IsInReach rip len skip }
    ensures { result ≡ sequence_of (record { insn = insn.now; len = len; skip = skip }) rip }
{
    let kind = match insn {
        Insn::Wrpkru => SeqKind::Wrpkru,
        Insn::Xrstor { .. } => SeqKind::Xrstor,
        _ => return None,
    };
    Some(Found {
        at: rip + u64::from(skip),
        len: len - skip,
        kind,
    })
}

/// May the thread be open and not at home after this instruction without an escape?
pub(crate) fn writes_pkru(insn: &Insn, thread: &Thread) -> bool
    ensures { result ≡ writes_pkru insn.now thread.now }
{
    match insn {
        Insn::Wrpkru => true,
        Insn::Xrstor { .. } => asks_pkru(thread),
        _ => false,
    }
}
