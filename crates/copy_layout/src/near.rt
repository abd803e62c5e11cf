//! Patches near some addresses, and what they say.

ghost use Rattle.std.specs.Prelude.{◌≡◌, ◌++◌, OnOk};
ghost use Rattle.copy_layout.specs.Patches.{first_cell, nearby, patches_of};

use crate::patch::RegionPatch;
use erim_defs::NoMemory;

/// Adds the patches that have a byte from an address up to another.
#[tactic(auto, using(crate::proofs::PatchLemmas::near_steps))]
pub fn push_near(
    near: &mut Vec<RegionPatch>,
    patches: &[RegionPatch],
    low: u64,
    high: u64,
) -> Result<(), NoMemory>
    ensures { OnOk result (patches_of near.new.items
        ≡ patches_of near.old.items ++ nearby low high (patches_of patches.now)) }
{
    for patch in patches {
        if patch.lies_near(low, high) {
            near.push(*patch)?;
        }
    }
    Ok(())
}

/// What the first patch that covers an address says of it.
#[tactic(auto, using(crate::proofs::PatchLemmas::cell_steps))]
pub fn first_cell(patches: &[RegionPatch], a: u64) -> Option<Option<u8>>
    ensures { result ≡ first_cell (patches_of patches.now) a }
{
    for patch in patches {
        if let Some(byte) = patch.cell(a) {
            return Some(byte);
        }
    }
    None
}
