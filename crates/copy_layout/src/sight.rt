//! The code with a candidate near some addresses, and the sequences in it.

ghost use Rattle.std.specs.Prelude.{◌≡◌};

use crate::front::Front;
use crate::near::first_cell;
use crate::patch::RegionPatch;
use crate::trial::Trial;
use erim_defs::NoMemory;
use run_copies::RegionCopy;
use sequence_scan::sequence_at;
use std::alloc::Global;
use std::marker::Model;

/// A candidate among others, and the patches of those that lie near some addresses.
#[derive(Drop)]
pub struct Sight<'a> {
    trial: &'a Trial<'a>,
    copy: &'a RegionCopy<'a>,
    near: Vec<RegionPatch>,
}

impl<'a> Model for Sight<'a> {
    ghost use Rattle.copy_layout.specs.Patches.{patches_of};
    ghost use Rattle.copy_layout.specs.Trials.{Sight as SightValue};

    ghost Value = { SightValue };

    ghost view = { λ s.
        record { trial = s.trial.now; copy = s.copy.now; near = patches_of s.near.items } };
}

impl<'a> Sight<'a> {
    ghost use Rattle.std.specs.Prelude.{◌+◌, ◌<◌, ◌^◌, IfOk};
    ghost use Rattle.erim_defs.specs.Rewriting.Layout.{is_untouched, over_all, reaches};
    ghost use Rattle.image_code.specs.Stretches.{code_in};
    ghost use Rattle.copy_layout.specs.Fronts.{IsFront};
    ghost use Rattle.copy_layout.specs.Trials.{near_patches, sight_code};

    /// The code from an address up to another.
    pub fn open(
        alloc: Global,
        trial: &'a Trial<'a>,
        copy: &'a RegionCopy<'a>,
        low: u64,
        high: u64,
    ) -> Result<Sight<'a>, NoMemory>
        ensures { IfOk result (λ sight. sight ≡ record {
          trial = trial.now;
          copy = copy.now;
          near = near_patches trial.now copy.now low high;
        }) }
    {
        let near = trial.near_patches(alloc, copy, low, high)?;
        Ok(Sight { trial, copy, near })
    }

    /// The byte below the new segment at an address.
    #[tactic(auto, using(crate::proofs::TrialLemmas::over_cells))]
    fn lower_byte(&self, a: u64) -> Option<u8>
        ensures { result ≡ over_all self.now.near (code_in self.now.trial.code) a }
    {
        match first_cell(&self.near, a) {
            Some(byte) => byte,
            None => self.trial.old_byte(a),
        }
    }

    /// The byte at an address.
    #[tactic(auto, using(crate::proofs::TrialLemmas::over_laid))]
    fn byte_at(&self, a: u64) -> Option<u8>
        ensures { result ≡ sight_code self.now a }
    {
        match self.trial.new_byte(self.copy, a) {
            Some(byte) => Some(byte),
            None => self.lower_byte(a),
        }
    }

    /// The bytes from an address on.
    fn front_at(&self, a: u64) -> Front
        requires { a < 2 ^ 63 + 2 ^ 62 }
        ensures { IsFront (sight_code self.now) a result }
    {
        let mut bytes = [0; 8];
        for place in 0..8 {
            match self.byte_at(a + place as u64) {
                Some(byte) => bytes[place] = byte,
                None => return Front { bytes, len: place },
            }
        }
        Front { bytes, len: 8 }
    }

    /// Goes a sequence that begins at `a` past the address `low`? All begin with 0F, so it is asked
    /// first.
    #[tactic(auto, using(crate::proofs::FrontLemmas::reaches_steps))]
    fn reaches(&self, low: u64, a: u64) -> bool
        requires { a < 2 ^ 63 + 2 ^ 62 }
        ensures { result ≡ reaches (sight_code self.now) low a }
    {
        if self.byte_at(a) != Some(0x0F) {
            return false;
        }
        let front = self.front_at(a);
        match sequence_at(&front.bytes[..front.len], 0, 0) {
            Some(found) => low < a + u64::from(found.len),
            None => false,
        }
    }

    /// Has no sequence a byte from an address up to another?
    #[tactic(auto, using(crate::proofs::FrontLemmas::none_steps))]
    pub fn is_untouched(&self, low: u64, high: u64) -> bool
        requires { high < 2 ^ 63 + 2 ^ 62 }
        ensures { result ≡ is_untouched (sight_code self.now) low high }
    {
        for a in low.saturating_sub(8)..high {
            if self.reaches(low, a) {
                return false;
            }
        }
        true
    }
}
