//! Where the copy of a region lies: after the fewest NOPs with which no sequence touches it.

ghost use Rattle.std.specs.Prelude.{◌≡◌, ◌+◌, ◌<◌, ◌^◌, IfOk};
ghost use Rattle.erim_defs.specs.Rewriting.Layout.{is_clean, is_untouched};
ghost use Rattle.copy_layout.specs.Trials.{placed_in, tried_code, trial_first};

use crate::sight::Sight;
use crate::trial::Trial;
use erim_defs::NoMemory;
use rewrite_sites::Region;
use run_copies::RegionCopy;
use std::alloc::Global;

/// How many NOPs are tried.
const PADDINGS: u8 = 16;

/// With a candidate, has no sequence a byte from an address up to another?
#[tactic(auto, using(crate::proofs::SightLemmas::untouched_near))]
fn is_untouched(
    alloc: Global,
    trial: &Trial<'_>,
    copy: &RegionCopy<'_>,
    low: u64,
    high: u64,
) -> Result<bool, NoMemory>
    requires { high < 2 ^ 63 + 2 ^ 62 }
    ensures { IfOk result (λ is. is ≡ is_untouched (tried_code trial.now copy.now) low high) }
{
    let sight = Sight::open(alloc, trial, copy, low.saturating_sub(8), high + 16)?;
    Ok(sight.is_untouched(low, high))
}

/// Does no sequence touch a candidate with the bytes before it, or the jump to it?
fn is_clean(alloc: Global, trial: &Trial<'_>, copy: &RegionCopy<'_>) -> Result<bool, NoMemory>
    requires { copy.now.first ≡ trial_first trial.now }
    ensures { IfOk result (λ is. is ≡ is_clean (tried_code trial.now copy.now) copy.now) }
{
    let first = trial.first();
    if !is_untouched(alloc, trial, copy, first, first + copy.piece().len() as u64)? {
        return Ok(false);
    }
    let start = copy.region().start();
    is_untouched(alloc, trial, copy, start, start + 5)
}

/// The copy of a region among others, where there is one.
#[tactic(auto, using(crate::proofs::PlacingLemmas::placed_steps))]
pub fn placed_in<'a>(
    alloc: Global,
    trial: &Trial<'_>,
    region: &'a Region<'a>,
) -> Result<Option<RegionCopy<'a>>, NoMemory>
    ensures { IfOk result (λ made. made ≡ placed_in trial.now region.now) }
{
    let first = trial.first();
    for pad in 0..PADDINGS {
        let Some(copy) = RegionCopy::spell(alloc, region, first, pad)? else {
            return Ok(None);
        };
        if is_clean(alloc, trial, &copy)? {
            return Ok(Some(copy));
        }
    }
    Ok(None)
}
