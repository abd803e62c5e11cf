//! The regions of instructions round unsafe sequences.

ghost use Rattle.std.specs.Prelude.{◌≡◌, ◌<◌, ◌^◌, ◌++◌, All, IfOk, None, Ok, OnOk};
ghost use Rattle.std.specs.Prelude.{MatchResult};
ghost use Rattle.erim_defs.specs.Inspection.Unsafe.{option_list};
ghost use Rattle.erim_defs.specs.Rewriting.Sites.{region_at, left_by, region_for, regions_from};
ghost use Rattle.rewrite_sites.specs.Shown.{FaultIs};
ghost use Rattle.rewrite_sites.specs.declared.regions.SiteFault.TheVariants.{Memory};

use crate::program::Program;
use crate::region::Region;
use erim_defs::{Found, NoMemory, Why};
use std::alloc::{AllocError, AllocFailed, Global};

/// Why there are no regions.
#[derive(Drop)]
pub enum SiteFault {
    /// The element at an address can't be rewritten.
    Cannot { at: u64, why: Why },
    /// Memory ran out.
    Memory,
}

impl From<AllocError> for SiteFault {
    ghost from_gives = { λ _ fault. fault ≡ Memory };

    fn from(_refused: AllocError) -> SiteFault {
        SiteFault::Memory
    }
}

impl<T: Drop> From<AllocFailed<T>> for SiteFault {
    ghost from_gives = { λ _ fault. fault ≡ Memory };

    fn from(_refused: AllocFailed<T>) -> SiteFault {
        SiteFault::Memory
    }
}

impl From<NoMemory> for SiteFault {
    ghost from_gives = { λ _ fault. fault ≡ Memory };

    fn from(_refused: NoMemory) -> SiteFault {
        SiteFault::Memory
    }
}

/// The region of an element; where the element doesn't join the region before, that is done with.
fn region_for<'a>(
    alloc: Global,
    regions: &mut Vec<Region<'a>>,
    program: &'a Program<'_>,
    before: Option<Region<'a>>,
    element: &Found,
) -> Result<Region<'a>, AllocError>
    requires { element.now.at < 2 ^ 47 }
    ensures region { IfOk result (λ region. region
        ≡ region_for (region_at program.now) before.entry element.now) }
    ensures regions { OnOk result (regions.new.items
        ≡ regions.old.items ++ left_by before.entry element.now) }
{
    match before {
        Some(region) if region.joins(element) => region.with_element(element),
        Some(region) => {
            regions.push(region)?;
            Region::region_at(alloc, program, element)
        }
        None => Region::region_at(alloc, program, element),
    }
}

/// The regions and the last one.
fn finish<'a>(
    mut regions: Vec<Region<'a>>,
    last: Option<Region<'a>>,
) -> Result<Vec<Region<'a>>, AllocError>
    ensures { IfOk result (λ all. all.items ≡ regions.entry.items ++ option_list last.entry) }
{
    if let Some(region) = last {
        regions.push(region)?;
    }
    Ok(regions)
}

/// The regions of elements by rising address, or the first element that can't be rewritten.
#[tactic(auto, using(crate::proofs::RegionLemmas::regions_more, crate::proofs::RegionLemmas::regions_stop, crate::proofs::RegionLemmas::regions_done, crate::proofs::RegionLemmas::with_none))]
pub fn find_regions<'a>(
    alloc: Global,
    program: &'a Program<'_>,
    elements: &[Found],
) -> Result<Vec<Region<'a>>, SiteFault>
    requires { All (λ e. e.at < 2 ^ 47) elements.now }
    ensures { MatchResult result
        (λ regions. regions_from program.now None elements.now ≡ Ok regions.items)
        (λ fault. FaultIs (regions_from program.now None elements.now) fault) }
{
    let mut regions = Vec::new(alloc);
    let mut before = None;
    for element in elements {
        let region = region_for(alloc, &mut regions, program, before, element)?;
        if let Some(why) = region.why_not(program, element) {
            return Err(SiteFault::Cannot {
                at: element.at,
                why,
            });
        }
        before = Some(region);
    }
    Ok(finish(regions, before)?)
}
