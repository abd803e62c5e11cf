//! What a candidate is tried among.

ghost use Rattle.std.specs.Prelude.{◌≡◌};

use crate::near::push_near;
use crate::patch::RegionPatch;
use crate::segment_bytes::byte_of;
use erim_defs::NoMemory;
use erim_defs::page::PAGE_SIZE;
use image_code::ImageCode;
use run_copies::RegionCopy;
use std::alloc::Global;
use std::marker::Model;

/// What a candidate is tried among: the old code, the bytes of the copies before it, and what lies
/// over the old code at their regions and at those that have no copy yet.
#[derive(Drop)]
pub struct Trial<'a> {
    code: &'a ImageCode,
    base: u64,
    segment: &'a [u8],
    before: &'a [RegionPatch],
    after: &'a [RegionPatch],
}

impl<'a> Model for Trial<'a> {
    ghost use Rattle.std.specs.Prelude.{◌<◌, ◌^◌, length};
    ghost use Rattle.copy_layout.specs.Patches.{patches_of};
    ghost use Rattle.copy_layout.specs.Trials.{Trial as TrialValue};

    ghost Value = { TrialValue };

    ghost view = { λ t. record {
      code = t.code.now;
      base = t.base;
      segment = t.segment.now;
      before = patches_of t.before.now;
      after = patches_of t.after.now;
    } };

    ghost invariant = { λ t. (t.base < 2 ^ 49) × (length t.segment.now < 2 ^ 60) };
}

impl<'a> Trial<'a> {
    ghost use Rattle.std.specs.Prelude.{◌+◌, ◌<◌, ◌^◌, IfOk, drop, length, take};
    ghost use Rattle.erim_defs.specs.Inspection.Code.{laid_at};
    ghost use Rattle.image_code.specs.Stretches.{code_in};
    ghost use Rattle.copy_layout.specs.Patches.{patches_of};
    ghost use Rattle.copy_layout.specs.Trials.{near_patches, tried_bytes, trial_first, trial_zeros};

    /// The trial of the region of an index, by the bytes of the copies before it and all patches.
    pub fn among(
        code: &'a ImageCode,
        base: u64,
        segment: &'a [u8],
        patches: &'a [RegionPatch],
        index: usize,
    ) -> Trial<'a>
        requires base { base < 2 ^ 49 }
        requires few { length segment.now < 2 ^ 60 }
        requires index { index < length patches.now }
        ensures code { result.code ≡ code.now }
        ensures base { result.base ≡ base }
        ensures segment { result.segment ≡ segment.now }
        ensures before { result.before ≡ patches_of (take index patches.now) }
        ensures after { result.after ≡ patches_of (drop (index + 1) patches.now) }
    {
        Trial {
            code,
            base,
            segment,
            before: &patches[..index],
            after: &patches[index + 1..],
        }
    }

    /// Where the candidate begins.
    pub fn first(&self) -> u64
        ensures first { result ≡ trial_first self.now }
        ensures low { result < 2 ^ 61 }
    {
        self.base + self.segment.len() as u64
    }

    /// The byte of the old code at an address.
    pub fn old_byte(&self, a: u64) -> Option<u8>
        ensures { result ≡ code_in self.now.code a }
    {
        self.code.byte_at(a)
    }

    /// How many zeros stand after a given number of bytes of the segment.
    #[tactic(auto, using(crate::proofs::TrialLemmas::zeros_steps))]
    fn trial_zeros(&self, count: u64) -> u64
        requires { count < 2 ^ 63 + 2 ^ 62 }
        ensures { result ≡ trial_zeros count self.now.after }
    {
        let end = (count + (PAGE_SIZE - 1)) / PAGE_SIZE * PAGE_SIZE;
        if self.after.is_empty() {
            end - count
        } else {
            end - count + PAGE_SIZE
        }
    }

    /// The byte of the segment with a candidate at an address.
    pub fn new_byte(&self, copy: &RegionCopy<'_>, a: u64) -> Option<u8>
        ensures { result ≡ laid_at self.now.base (tried_bytes self.now copy.now) a }
    {
        let place = a.checked_sub(self.base)?;
        let piece = copy.piece();
        let zeros = self.trial_zeros(self.segment.len() as u64 + piece.len() as u64);
        byte_of(self.segment, piece, zeros, place as usize)
    }

    /// The patches that have a byte from an address up to another, with that of a candidate.
    #[tactic(auto, using(crate::proofs::TrialLemmas::near_parts))]
    pub fn near_patches(
        &self,
        alloc: Global,
        copy: &RegionCopy<'_>,
        low: u64,
        high: u64,
    ) -> Result<Vec<RegionPatch>, NoMemory>
        ensures { IfOk result (λ near. patches_of near.items
            ≡ near_patches self.now copy.now low high) }
    {
        let mut near = Vec::new(alloc);
        push_near(&mut near, self.before, low, high)?;
        push_near(&mut near, &[RegionPatch::of_copy(copy)], low, high)?;
        push_near(&mut near, self.after, low, high)?;
        Ok(near)
    }
}
