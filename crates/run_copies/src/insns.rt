//! The copy of one instruction, after other bytes, and what stands between it and the next.

ghost use Rattle.std.specs.Prelude.{◌≡◌, ◌<◌, ◌+◌, ◌-◌, ◌^◌, ◌++◌, All, IfOk, OnOk, true, drop};
ghost use Rattle.std.specs.List.{list_any};
ghost use Rattle.erim_defs.specs.Rewriting.Copies.{bytes_of, goes_on, insn_parts, is_jump};
ghost use Rattle.erim_defs.specs.Rewriting.Copies.{jump_parts, rip_parts, split, split_parts};
ghost use Rattle.erim_defs.specs.Rewriting.Sites.{holds_core};
ghost use Rattle.run_copies.specs.Spelling.{all_fit, gap_bytes, with_disp};

use crate::NOP;
use crate::encoded::{encoded_len, push_canonical};
use crate::jumps::{is_jump, near_jump};
use crate::offset::{near_number, offset_to};
use crate::split::push_split;
use erim_defs::Found;
use rewrite_sites::Instruction;
use std::alloc::AllocError;

/// The bytes after the first `n`, or none.
fn bytes_behind(bytes: &[u8], n: usize) -> &[u8]
    ensures { result.now ≡ drop n bytes.now }
{
    bytes.split_at(n.min(bytes.len())).1
}

/// Puts a jump after other bytes, with the offset from its new address to its old target.
fn push_jump(bytes: &mut Vec<u8>, at: u64, insn: &Instruction<'_>) -> Result<bool, AllocError>
    requires low { at < 2 ^ 64 - 16 }
    requires jump { is_jump insn.now.insn ≡ true }
    ensures fits { IfOk result (λ fits. fits ≡ all_fit (jump_parts at insn.now)) }
    ensures bytes { OnOk result (all_fit (jump_parts at insn.now) ≡ true
        → bytes.new.items ≡ bytes.old.items ++ bytes_of (jump_parts at insn.now)) }
{
    let old = insn.insn();
    let behind = at + u64::from(encoded_len(&old));
    let target = insn.target().unwrap_or(0);
    let Some(jump) = near_jump(offset_to(behind, target), &old) else {
        return Ok(false);
    };
    push_canonical(bytes, &jump)?;
    Ok(true)
}

/// Puts an instruction after other bytes, with another displacement of 4 bytes.
#[tactic(auto, using(crate::proofs::PartLemmas::three_behind), unfolding(erim_defs::specs::Encoding::Canonical::four_bytes))]
fn push_with_disp(bytes: &mut Vec<u8>, z: i32, insn: &Instruction<'_>) -> Result<(), AllocError>
    ensures { OnOk result (bytes.new.items ≡ bytes.old.items ++ with_disp z insn.now) }
{
    let place = insn.disp_offset();
    bytes.extend_from_slice(&insn.bytes()[..place])?;
    bytes.extend_from_slice(&z.to_le_bytes())?;
    bytes.extend_from_slice(bytes_behind(insn.bytes(), place + 4))
}

/// Puts an instruction after other bytes, with the displacement from its new address to what it
/// names from RIP.
fn push_rip(bytes: &mut Vec<u8>, at: u64, insn: &Instruction<'_>) -> Result<bool, AllocError>
    requires { at < 2 ^ 64 - 16 }
    ensures fits { IfOk result (λ fits. fits ≡ all_fit (rip_parts at insn.now)) }
    ensures bytes { OnOk result (all_fit (rip_parts at insn.now) ≡ true
        → bytes.new.items ≡ bytes.old.items ++ bytes_of (rip_parts at insn.now)) }
{
    let behind = at + insn.len() as u64;
    let Some(z) = near_number(offset_to(behind, insn.rip_target())) else {
        return Ok(false);
    };
    push_with_disp(bytes, z, insn)?;
    Ok(true)
}

/// Puts an instruction after other bytes as it is.
fn push_same(bytes: &mut Vec<u8>, insn: &Instruction<'_>) -> Result<bool, AllocError>
    ensures fits { IfOk result (λ fits. fits ≡ true) }
    ensures bytes { OnOk result (bytes.new.items ≡ bytes.old.items ++ insn.now.bytes) }
{
    bytes.extend_from_slice(insn.bytes())?;
    Ok(true)
}

/// Do the first three bytes of an element lie in an instruction?
fn holds_element(elements: &[Found], insn: &Instruction<'_>) -> bool
    requires { All (λ e. e.at < 2 ^ 47) elements.now }
    ensures { result ≡ list_any (λ e. holds_core e insn.now) elements.now }
{
    elements.iter().any(|element| insn.holds_core(element))
}

/// Puts the copy of an instruction after other bytes, where it can be spelled at its new address.
#[tactic(auto, using(crate::proofs::PartLemmas::split_fits, crate::proofs::PartLemmas::split_bytes_of), unfolding(erim_defs::specs::Rewriting::Copies::insn_parts))]
pub fn push_insn(
    bytes: &mut Vec<u8>,
    at: u64,
    elements: &[Found],
    insn: &Instruction<'_>,
) -> Result<bool, AllocError>
    requires low { at < 2 ^ 64 - 16 }
    requires elements { All (λ e. e.at < 2 ^ 47) elements.now }
    ensures fits { IfOk result (λ fits. fits ≡ all_fit (insn_parts elements.now at insn.now)) }
    ensures bytes { OnOk result (all_fit (insn_parts elements.now at insn.now) ≡ true
        → bytes.new.items ≡ bytes.old.items
        ++ bytes_of (insn_parts elements.now at insn.now)) }
{
    if is_jump(&insn.insn()) {
        push_jump(bytes, at, insn)
    } else if insn.moves_number() && holds_element(elements, insn) {
        push_split(bytes, &insn.insn())
    } else if insn.has_rip() {
        push_rip(bytes, at, insn)
    } else {
        push_same(bytes, insn)
    }
}

/// Do the first three bytes of an element begin in an instruction and go on in the next?
fn goes_on(insn: &Instruction<'_>, element: &Found) -> bool
    requires { element.now.at < 2 ^ 47 }
    ensures { result ≡ goes_on insn.now element.now }
{
    insn.at() <= element.at && (element.at < insn.insn_end() && insn.insn_end() < element.at + 3)
}

/// Do those of one of some elements?
fn some_goes_on(insn: &Instruction<'_>, elements: &[Found]) -> bool
    requires { All (λ e. e.at < 2 ^ 47) elements.now }
    ensures { result ≡ list_any (goes_on insn.now) elements.now }
{
    elements.iter().any(|element| goes_on(insn, element))
}

/// Puts a byte 90 after the copy of an instruction, where an element goes on in the next.
pub fn push_gap(
    bytes: &mut Vec<u8>,
    elements: &[Found],
    insn: &Instruction<'_>,
) -> Result<(), AllocError>
    requires { All (λ e. e.at < 2 ^ 47) elements.now }
    ensures { OnOk result (bytes.new.items
        ≡ bytes.old.items ++ gap_bytes elements.now insn.now) }
{
    if some_goes_on(insn, elements) {
        bytes.push(NOP)?;
    }
    Ok(())
}
