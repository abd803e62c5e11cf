//! Stretches of instructions: from an address on, up to one, and where they start and end.

ghost use Rattle.std.specs.Prelude.{◌≡◌, ◌+◌, ◌<◌, ◌≤◌, ◌^◌, drop, take, length};
ghost use Rattle.std.specs.List.Sorted.{IsNonDecreasingBy};
ghost use Rattle.erim_defs.specs.Rewriting.Standing.{insn_end};
ghost use Rattle.erim_defs.specs.Rewriting.Sites.{end_of, insns_from, reaching, start_of};

use crate::instruction::Instruction;

/// How many instructions end at or before an address, where their ends rise.
fn ends_before(insns: &[Instruction<'_>], address: u64) -> usize
    requires { IsNonDecreasingBy insn_end insns.now }
    ensures list { drop result insns.now ≡ insns_from address insns.now }
    ensures few { result ≤ length insns.now }
{
    insns.partition_point(|insn| insn.insn_end() <= address)
}

/// How many instructions the shortest front has that reaches an address, or all.
#[tactic(auto, using(crate::proofs::StretchLemmas::reached_next, crate::proofs::StretchLemmas::reached_here))]
fn length_to(insns: &[Instruction<'_>], goal: u64) -> usize
    ensures list { take result insns.now ≡ reaching goal insns.now }
    ensures few { result ≤ length insns.now }
{
    for (i, insn) in insns.iter().enumerate() {
        if goal <= insn.insn_end() {
            return i + 1;
        }
    }
    insns.len()
}

/// The instructions from the one on that holds an address.
pub fn from_holding<'a>(insns: &'a [Instruction<'a>], address: u64) -> &'a [Instruction<'a>]
    requires { IsNonDecreasingBy insn_end insns.now }
    ensures { result.now ≡ insns_from address insns.now }
{
    insns.split_at(ends_before(insns, address)).1
}

/// The shortest front that reaches an address, or all.
pub fn front_reaching<'a>(insns: &'a [Instruction<'a>], goal: u64) -> &'a [Instruction<'a>]
    ensures { result.now ≡ reaching goal insns.now }
{
    insns.split_at(length_to(insns, goal)).0
}

/// Where instructions start, or 0.
pub fn start_of(insns: &[Instruction<'_>]) -> u64
    ensures start { result ≡ start_of insns.now }
    ensures low { result ≤ 2 ^ 47 }
{
    match insns.first() {
        Some(insn) => insn.at(),
        None => 0,
    }
}

/// Where instructions end, or 0.
#[tactic(auto, using(crate::proofs::StretchLemmas::end_first, crate::proofs::StretchLemmas::end_next, crate::proofs::StretchLemmas::end_done))]
pub fn end_of(insns: &[Instruction<'_>]) -> u64
    ensures end { result ≡ end_of insns.now }
    ensures low { result < 2 ^ 48 }
{
    let mut end = 0;
    for insn in insns {
        end = insn.insn_end();
    }
    end
}
