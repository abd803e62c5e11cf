//! The parts of a region's copy, after other bytes.

ghost use Rattle.std.specs.Prelude.{◌≡◌, ◌<◌, ◌+◌, ◌-◌, ◌^◌, ◌++◌, ◌∷◌, [], IfOk, OnOk, true};
ghost use Rattle.std.specs.Prelude.{length};
ghost use Rattle.erim_defs.specs.Rewriting.Copies.{Back, bytes_of, copy_parts, jump};
ghost use Rattle.run_copies.specs.Spelling.{all_fit};

use crate::insns::{push_gap, push_insn};
use crate::jumps::jump_bytes;
use rewrite_sites::Region;
use std::alloc::AllocError;

/// Puts the jump back after other bytes.
fn push_back(bytes: &mut Vec<u8>, at: u64, back: u64) -> Result<bool, AllocError>
    requires { at < 2 ^ 64 - 16 }
    ensures fits { IfOk result (λ fits. fits ≡ all_fit (jump Back at back back ∷ [])) }
    ensures bytes { OnOk result (all_fit (jump Back at back back ∷ []) ≡ true
        → bytes.new.items ≡ bytes.old.items ++ bytes_of (jump Back at back back ∷ [])) }
{
    let Some(jump) = jump_bytes(at, back) else {
        return Ok(false);
    };
    bytes.extend_from_slice(&jump)?;
    Ok(true)
}

/// Puts the parts of the copy of a region after other bytes that begin at an address, where they
/// can be spelled.
pub fn push_parts(bytes: &mut Vec<u8>, first: u64, region: &Region<'_>) -> Result<bool, AllocError>
    requires { first < 2 ^ 62 }
    ensures fits { IfOk result (λ fits. fits
        ≡ all_fit (copy_parts region.now (first + length bytes.old.items))) }
    ensures bytes { OnOk result (all_fit (copy_parts region.now (first + length bytes.old.items))
        ≡ true → bytes.new.items ≡ bytes.old.items
        ++ bytes_of (copy_parts region.now (first + length bytes.old.items))) }
{
    let elements = region.elements();
    for insn in region.insns() {
        let at = first + bytes.len() as u64;
        if !push_insn(bytes, at, elements, insn)? {
            return Ok(false);
        }
        push_gap(bytes, elements, insn)?;
    }
    let end = first + bytes.len() as u64;
    push_back(bytes, end, region.end())
}
