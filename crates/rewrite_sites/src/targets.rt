//! Where control may come from elsewhere, by rising address.

ghost use Rattle.std.specs.Prelude.{◌≡◌, ◌<◌, ◌≤◌, ◌&&◌, ◌++◌, IfOk, OnOk, length, nat_lt};
ghost use Rattle.std.specs.List.{flat_map, list_any};
ghost use Rattle.std.specs.List.Sorted.{IsNonDecreasing, IsPartitionPoint};
ghost use Rattle.erim_defs.specs.Inspection.Unsafe.{option_list};
ghost use Rattle.erim_defs.specs.Rewriting.Standing.{target_of};
ghost use Rattle.erim_defs.specs.Rewriting.Sites.{branch_targets};
ghost use Rattle.rewrite_sites.specs.Targets.{HasTargets};

use crate::function::Function;
use crate::instruction::Instruction;
use erim_defs::{NoMemory, Trust};
use std::alloc::Global;

/// Takes where an instruction leads, if it is a direct branch.
fn push_target(list: &mut Vec<u64>, insn: &Instruction<'_>) -> Result<(), NoMemory>
    ensures { OnOk result (list.new.items ≡ list.old.items ++ option_list (target_of insn.now)) }
{
    if let Some(target) = insn.target() {
        list.push(target)?;
    }
    Ok(())
}

/// Takes where the direct branches of a function lead.
#[tactic(auto, using(crate::proofs::TargetLemmas::flat_next, crate::proofs::TargetLemmas::flat_end))]
fn push_targets(list: &mut Vec<u64>, function: &Function<'_>) -> Result<(), NoMemory>
    ensures { OnOk result (list.new.items ≡ list.old.items ++ branch_targets function.now) }
{
    for insn in function.insns() {
        push_target(list, insn)?;
    }
    Ok(())
}

/// Where the direct branches of functions lead.
#[tactic(auto, using(crate::proofs::TargetLemmas::flat_next, crate::proofs::TargetLemmas::flat_end))]
fn branch_targets(alloc: Global, functions: &[Function<'_>]) -> Result<Vec<u64>, NoMemory>
    ensures { IfOk result (λ list. list.items ≡ flat_map branch_targets functions.now) }
{
    let mut list = Vec::new(alloc);
    for function in functions {
        push_targets(&mut list, function)?;
    }
    Ok(list)
}

/// Where direct branches, entries and the entry point lead, by rising address.
pub fn sorted_targets(
    alloc: Global,
    functions: &[Function<'_>],
    trust: &Trust,
    entry: u64,
) -> Result<Vec<u64>, NoMemory>
    ensures { IfOk result (λ list. HasTargets (record {
      functions = functions.now;
      trust = trust.now;
      entry = entry;
    }) list.items) }
{
    let mut list = branch_targets(alloc, functions)?;
    list.extend_from_slice(trust.entries())?;
    list.push(entry)?;
    list.sort_unstable();
    Ok(list)
}

/// How many of rising numbers are at most a number.
fn count_up_to(sorted: &[u64], start: u64) -> usize
    requires { IsNonDecreasing sorted.now }
    ensures point { IsPartitionPoint (λ t. t ≤ start) (λ t. start < t) sorted.now result }
    ensures few { result ≤ length sorted.now }
{
    sorted.partition_point(|t| *t <= start)
}

/// Does one of rising numbers lie between two others?
#[tactic(auto, using(crate::proofs::TargetLemmas::between_at, crate::proofs::TargetLemmas::between_none))]
pub fn some_between(sorted: &[u64], start: u64, end: u64) -> bool
    requires { IsNonDecreasing sorted.now }
    ensures { result ≡ list_any (λ t. nat_lt start t && nat_lt t end) sorted.now }
{
    let next = count_up_to(sorted, start);
    next < sorted.len() && sorted[next] < end
}
