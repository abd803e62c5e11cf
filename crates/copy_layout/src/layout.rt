//! The layout of the copies of an image's regions.

ghost use Rattle.std.specs.Prelude.{◌≡◌, ◌∷◌, ◌++◌, [], IfOk, MatchResult, None, Ok, OnOk, map};
ghost use Rattle.std.specs.Prelude.{if◌then◌else◌};
ghost use Rattle.erim_defs.specs.Inspection.Image.{headers, image_code};
ghost use Rattle.erim_defs.specs.Rewriting.Layout.{open_patch, piece, segment_bytes};
ghost use Rattle.erim_defs.specs.Rewriting.NewFile.{lies_elsewhere};
ghost use Rattle.erim_defs.specs.Rewriting.Rewriting.{first_at, laid_copies};
ghost use Rattle.image_code.specs.Stretches.{code_in};
ghost use Rattle.copy_layout.specs.Faults.{RoomFaultIs};
ghost use Rattle.copy_layout.specs.Patches.{patches_of};
ghost use Rattle.copy_layout.specs.Trials.{placed_in};
ghost use Rattle.copy_layout.specs.declared.layout.LayoutFault.TheVariants.{Memory};

use crate::base::new_base;
use crate::elsewhere::lies_elsewhere;
use crate::patch::RegionPatch;
use crate::placing::placed_in;
use crate::trial::Trial;
use elf_image::{Header, Image};
use erim_defs::{Found, NoMemory};
use image_code::ImageCode;
use rewrite_sites::Region;
use run_copies::RegionCopy;
use std::alloc::{AllocError, AllocFailed, Global};

/// How many bytes of copies no memory holds.
const TOO_MANY: usize = 1 << 60;

/// The copies of regions, and the bytes of the new segment.
#[derive(Drop)]
pub struct Layout<'a> {
    pub copies: Vec<RegionCopy<'a>>,
    pub segment: Vec<u8>,
}

/// Why there is no layout.
#[derive(Drop)]
pub enum LayoutFault {
    /// A region has no copy; the address of its first element.
    NoRoom { at: u64 },
    /// Memory ran out.
    Memory,
}

impl From<AllocError> for LayoutFault {
    ghost from_gives = { λ _ fault. fault ≡ Memory };

    fn from(_refused: AllocError) -> LayoutFault {
        LayoutFault::Memory
    }
}

impl<T: Drop> From<AllocFailed<T>> for LayoutFault {
    ghost from_gives = { λ _ fault. fault ≡ Memory };

    fn from(_refused: AllocFailed<T>) -> LayoutFault {
        LayoutFault::Memory
    }
}

impl From<NoMemory> for LayoutFault {
    ghost from_gives = { λ _ fault. fault ≡ Memory };

    fn from(_refused: NoMemory) -> LayoutFault {
        LayoutFault::Memory
    }
}

/// The address of the first of a region's elements, its unsafe sequences.
pub fn first_at(elements: &[Found]) -> u64
    ensures { result ≡ first_at elements.now }
{
    match elements.first() {
        Some(element) => element.at,
        None => 0,
    }
}

/// What is known to lie at regions that have no copies yet.
#[tactic(auto, using(crate::proofs::LayoutLemmas::open_steps))]
fn open_patches(alloc: Global, regions: &[Region<'_>]) -> Result<Vec<RegionPatch>, NoMemory>
    ensures { IfOk result (λ patches. patches_of patches.items ≡ map open_patch regions.now) }
{
    let mut patches = Vec::new(alloc);
    for region in regions {
        patches.push(RegionPatch::open(region))?;
    }
    Ok(patches)
}

/// The copy of a region among others, where there is one.
fn copy_of<'a>(
    alloc: Global,
    image: &Image,
    table: &[Header],
    trial: &Trial<'_>,
    region: &'a Region<'a>,
) -> Result<Option<RegionCopy<'a>>, NoMemory>
    requires { table.now ≡ headers image.now }
    ensures { IfOk result (λ made. made ≡ (if lies_elsewhere image.now region.now then None
        else placed_in trial.now region.now)) }
{
    if lies_elsewhere(image, table, region) {
        return Ok(None);
    }
    placed_in(alloc, trial, region)
}

/// Adds a copy after those of a layout.
fn add_copy<'a>(layout: &mut Layout<'a>, copy: RegionCopy<'a>) -> Result<(), NoMemory>
    ensures copies { OnOk result (layout.new.copies.items
        ≡ layout.old.copies.items ++ copy.entry ∷ []) }
    ensures segment { OnOk result (layout.new.segment.items
        ≡ layout.old.segment.items ++ piece copy.entry) }
{
    layout.segment.extend_from_slice(copy.piece())?;
    layout.copies.push(copy)?;
    Ok(())
}

/// The copies of the regions of an image over its code, or the first region that has none.
fn lay_over<'a>(
    alloc: Global,
    image: &Image,
    code: &ImageCode,
    regions: &'a [Region<'a>],
) -> Result<Layout<'a>, LayoutFault>
    requires { code_in code.now ≡ image_code image.now }
    ensures { MatchResult result
        (λ layout. (laid_copies image.now regions.now ≡ Ok layout.copies.items)
        × (layout.segment.items ≡ segment_bytes layout.copies.items))
        (λ fault. RoomFaultIs (laid_copies image.now regions.now) fault) }
{
    let table = image.headers(alloc)?;
    let base = new_base(image);
    let mut patches = open_patches(alloc, regions)?;
    let mut layout = Layout {
        copies: Vec::new(alloc),
        segment: Vec::new(alloc),
    };
    for region in regions {
        if layout.segment.len() >= TOO_MANY {
            return Err(LayoutFault::Memory);
        }
        let index = layout.copies.len();
        let trial = Trial::among(code, base, layout.segment.as_slice(), &patches, index);
        let Some(copy) = copy_of(alloc, image, &table, &trial, region)? else {
            return Err(LayoutFault::NoRoom {
                at: first_at(region.elements()),
            });
        };
        patches[index] = RegionPatch::of_copy(&copy);
        add_copy(&mut layout, copy)?;
    }
    Ok(layout)
}

/// The copies of the regions of an image, or the first region that has none.
pub fn lay_copies<'a>(
    alloc: Global,
    image: &Image,
    regions: &'a [Region<'a>],
) -> Result<Layout<'a>, LayoutFault>
    ensures { MatchResult result
        (λ layout. (laid_copies image.now regions.now ≡ Ok layout.copies.items)
        × (layout.segment.items ≡ segment_bytes layout.copies.items))
        (λ fault. RoomFaultIs (laid_copies image.now regions.now) fault) }
{
    let code = ImageCode::lay(alloc, image)?;
    lay_over(alloc, image, &code, regions)
}
