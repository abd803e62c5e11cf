//! What lies over the old code at a region: its jump, and NOPs.

ghost use Rattle.std.specs.Prelude.{◌+◌, ◌<◌, ◌^◌};

use crate::region_bytes::{JUMP_SIZE, known_bytes, region_rest};
use rewrite_sites::Region;
use run_copies::{NOP, RegionCopy};

/// What lies over the old code at a region. Contracts see it as the definitions' patch, by
/// `patch_of`.
#[derive(Clone, Copy)]
pub struct RegionPatch {
    /// The address of its first byte.
    pub at: u64,
    /// The bytes of the jump, as far as they are known.
    pub jump: [Option<u8>; 5],
    /// How many NOPs stand after it.
    pub rest: u64,
    ghost user: { at + rest < 2 ^ 49 },
}

impl RegionPatch {
    ghost use Rattle.std.specs.Prelude.{◌≡◌};
    ghost use Rattle.erim_defs.specs.Rewriting.Layout.{open_patch, region_patch};
    ghost use Rattle.copy_layout.specs.Patches.{cell, lies_near, patch_of};

    /// What lies at the region of a copy.
    #[tactic(auto, using(crate::proofs::PatchLemmas::region_patch_is))]
    pub fn of_copy(copy: &RegionCopy<'_>) -> RegionPatch
        ensures { patch_of result ≡ region_patch copy.now }
    {
        RegionPatch {
            at: copy.region().start(),
            jump: known_bytes(copy.jump()),
            rest: region_rest(copy.region()),
        }
    }

    /// What is known to lie at a region that has no copy yet.
    pub fn open(region: &Region<'_>) -> RegionPatch
        ensures { patch_of result ≡ open_patch region.now }
    {
        RegionPatch {
            at: region.start(),
            jump: [Some(0xE9), None, None, None, None],
            rest: region_rest(region),
        }
    }

    /// Has it a byte from an address up to another?
    #[tactic(auto, using(crate::proofs::PatchLemmas::patch_length))]
    pub fn lies_near(&self, low: u64, high: u64) -> bool
        ensures { result ≡ lies_near low high (patch_of self.now) }
    {
        low < self.at + JUMP_SIZE + self.rest && self.at < high
    }

    /// The byte at an address, where it covers that; the byte may be unknown.
    pub fn cell(&self, a: u64) -> Option<Option<u8>>
        ensures { result ≡ cell (patch_of self.now) a }
    {
        let place = a.checked_sub(self.at)?;
        if place < JUMP_SIZE {
            return Some(self.jump[place as usize]);
        }
        if place - JUMP_SIZE < self.rest {
            Some(Some(NOP))
        } else {
            None
        }
    }
}
