//! Why an unsafe sequence can't be rewritten.

ghost use Rattle.std.specs.Prelude.{◌≡◌, ◌<◌, ◌^◌, ◌&&◌, ◌∷◌, []};
ghost use Rattle.std.specs.List.{list_any};
ghost use Rattle.erim_defs.specs.declared.rewriting.Why.TheVariants.{Displacement, Immediate};
ghost use Rattle.erim_defs.specs.declared.rewriting.Why.TheVariants.{Opcode};
ghost use Rattle.erim_defs.specs.Rewriting.Sites.{core_in, end_of, in_opcode, in_plain_disp};
ghost use Rattle.erim_defs.specs.Rewriting.Sites.{in_plain_number, is_call, is_intended};
ghost use Rattle.erim_defs.specs.Rewriting.Sites.{first_why, tests};

use crate::instruction::Instruction;
use crate::program::Program;
use crate::stretch::end_of;
use erim_defs::{Found, Why};

/// Is one of some instructions WRPKRU or XRSTOR?
fn is_intended(insns: &[Instruction<'_>]) -> bool
    ensures { result ≡ list_any (λ i. is_intended i.insn) insns.now }
{
    insns.iter().any(|insn| insn.is_intended())
}

/// Is one a call or a system call?
fn has_call(insns: &[Instruction<'_>]) -> bool
    ensures { result ≡ list_any (λ i. is_call i.insn) insns.now }
{
    insns.iter().any(|insn| insn.is_call())
}

/// Do the first three bytes of a sequence lie in one, and touch a displacement without RIP?
fn is_displacement(insns: &[Instruction<'_>], element: &Found) -> bool
    requires { element.now.at < 2 ^ 47 }
    ensures { result ≡ core_in insns.now element.now (in_plain_disp element.now) }
{
    insns.iter().any(|insn| insn.has_in_plain_disp(element))
}

/// Do they lie in one, and touch an immediate that isn't moved into a register?
fn is_immediate(insns: &[Instruction<'_>], element: &Found) -> bool
    requires { element.now.at < 2 ^ 47 }
    ensures { result ≡ core_in insns.now element.now (in_plain_number element.now) }
{
    insns.iter().any(|insn| insn.has_in_plain_number(element))
}

/// Do they lie in one, and touch neither a displacement nor the number that ends it?
fn is_opcode(insns: &[Instruction<'_>], element: &Found) -> bool
    requires { element.now.at < 2 ^ 47 }
    ensures { result ≡ core_in insns.now element.now (in_opcode element.now) }
{
    insns.iter().any(|insn| insn.has_in_opcode(element))
}

/// Why not, where the first three bytes of a sequence lie within one instruction.
fn why_within(insns: &[Instruction<'_>], element: &Found) -> Option<Why>
    requires { element.now.at < 2 ^ 47 }
    ensures { result ≡ first_why (
        (core_in insns.now element.now (in_plain_disp element.now), Displacement)
        ∷ (core_in insns.now element.now (in_plain_number element.now), Immediate)
        ∷ (core_in insns.now element.now (in_opcode element.now), Opcode) ∷ []) }
{
    if is_displacement(insns, element) {
        Some(Why::Displacement)
    } else if is_immediate(insns, element) {
        Some(Why::Immediate)
    } else if is_opcode(insns, element) {
        Some(Why::Opcode)
    } else {
        None
    }
}

/// Why a sequence can't be rewritten, by its region: where that starts, up to where it has to go,
/// and its instructions.
pub fn why(
    program: &Program<'_>,
    start: u64,
    goal: u64,
    insns: &[Instruction<'_>],
    element: &Found,
) -> Option<Why>
    requires { element.now.at < 2 ^ 47 }
    ensures { result ≡ first_why (tests program.now start goal insns.now element.now) }
{
    let end = end_of(insns);
    if program.is_trusted(element) {
        Some(Why::Trusted)
    } else if program.is_outside(element) {
        Some(Why::Outside)
    } else if program.is_undecoded(element) {
        Some(Why::Undecoded)
    } else if is_intended(insns) {
        Some(Why::Intended)
    } else if has_call(insns) {
        Some(Why::Call)
    } else if end < goal {
        Some(Why::Room)
    } else if program.is_target(start, end) {
        Some(Why::Target)
    } else {
        why_within(insns, element)
    }
}
