//! Rewrites an image.

ghost use Rattle.std.specs.Prelude.{◌≡◌, [], All, IfOk, List, MatchResult, Ok};
ghost use Rattle.erim_defs.specs.Inspection.Image.{IsAccepted};
ghost use Rattle.erim_defs.specs.Inspection.Unsafe.{image_list};
ghost use Rattle.erim_defs.specs.Rewriting.Layout.{segment_bytes};
ghost use Rattle.erim_defs.specs.Rewriting.Rewriting.{rewriting_of, first_at, first_of_all};
ghost use Rattle.erim_defs.specs.Rewriting.Rewriting.{on_regions};
ghost use Rattle.erim_defs.specs.Rewriting.Rewriting.{image_regions, rewriting};
ghost use Rattle.erim_defs.specs.Rewriting.Rewriting as definitions;
ghost use Rattle.erim_defs.specs.Rewriting.Sites as sites;
ghost use Rattle.erim_defs.specs.Rewriting.NewFile.{HasPlace};
ghost use Rattle.overlap_rewrite.specs.Answers.{RewriteFaultIs, RewrittenIs, image_fault};
ghost use Rattle.overlap_rewrite.specs.Answers.{layout_fault, site_fault};
ghost use Rattle.overlap_rewrite.specs.declared.rewriting.RewriteFault.TheVariants.{Memory};

use crate::causes::file_with;
use copy_layout::{Layout, LayoutFault, first_at, lay_copies};
use elf_image::{Image, ImageFault, read_image};
use erim_defs::{NoMemory, Why};
use rewrite_sites::{
    Region, SiteFault, Sites, functions_of, image_program, image_regions, sites_of,
};
use rewriting_laws::{regions_lie_in_file, rewriting_is_clean};
use std::alloc::{AllocError, Global};

/// A rewritten image, and the sites at which it was rewritten.
#[derive(Drop)]
pub struct Rewritten {
    pub bytes: Vec<u8>,
    pub sites: Sites,
}

/// Why an image isn't rewritten.
#[derive(Drop)]
pub enum RewriteFault {
    /// It isn't accepted.
    Image(ImageFault),
    /// The unsafe sequence at an address can't be rewritten.
    Cannot { at: u64, why: Why },
    /// There is no room for the copy of a region; the address of its first unsafe sequence.
    NoRoom { at: u64 },
    /// Memory ran out.
    Memory,
}

impl From<AllocError> for RewriteFault {
    ghost from_gives = { λ _ fault. fault ≡ Memory };

    fn from(_refused: AllocError) -> RewriteFault {
        RewriteFault::Memory
    }
}

impl From<NoMemory> for RewriteFault {
    ghost from_gives = { λ _ fault. fault ≡ Memory };

    fn from(_refused: NoMemory) -> RewriteFault {
        RewriteFault::Memory
    }
}

impl From<ImageFault> for RewriteFault {
    ghost from_gives = { λ of fault. fault ≡ image_fault of };

    fn from(of: ImageFault) -> RewriteFault {
        match of {
            ImageFault::Memory => RewriteFault::Memory,
            fault => RewriteFault::Image(fault),
        }
    }
}

impl From<SiteFault> for RewriteFault {
    ghost from_gives = { λ of fault. fault ≡ site_fault of };

    fn from(of: SiteFault) -> RewriteFault {
        match of {
            SiteFault::Cannot { at, why } => RewriteFault::Cannot { at, why },
            SiteFault::Memory => RewriteFault::Memory,
        }
    }
}

impl From<LayoutFault> for RewriteFault {
    ghost from_gives = { λ of fault. fault ≡ layout_fault of };

    fn from(of: LayoutFault) -> RewriteFault {
        match of {
            LayoutFault::NoRoom { at } => RewriteFault::NoRoom { at },
            LayoutFault::Memory => RewriteFault::Memory,
        }
    }
}

/// The address of the first unsafe sequence of all regions.
fn first_of_all(regions: &[Region<'_>]) -> u64
    ensures { result ≡ first_of_all regions.now }
{
    match regions.first() {
        Some(region) => first_at(region.elements()),
        None => 0,
    }
}

/// Rewrites an image by a layout of the copies of its regions.
fn rewrite_by(
    alloc: Global,
    image: &Image,
    regions: &[Region<'_>],
    layout: &Layout<'_>,
) -> Result<Rewritten, RewriteFault>
    requires places { All (λ k. HasPlace image.now k.region) layout.now.copies.items }
    requires bytes { layout.now.segment.items ≡ segment_bytes layout.now.copies.items }
    ensures { let answer = rewriting_of image.now regions.now (Ok layout.now.copies.items) in
        MatchResult result (RewrittenIs answer) (RewriteFaultIs answer) }
{
    let sites = sites_of(alloc, regions)?;
    match file_with(alloc, image, layout)? {
        Some(bytes) => Ok(Rewritten { bytes, sites }),
        None => Err(RewriteFault::NoRoom {
            at: first_of_all(regions),
        }),
    }
}

/// Rewrites an image at its regions. Where there are none its bytes stay as they are.
fn rewrite_regions<'a>(
    alloc: Global,
    image: &Image,
    regions: &'a [Region<'a>],
) -> Result<Rewritten, RewriteFault>
    requires { All (HasPlace image.now) regions.now }
    ensures { let answer = on_regions image.now (Ok regions.now) in
        MatchResult result (RewrittenIs answer) (RewriteFaultIs answer) }
{
    if regions.is_empty() {
        let bytes = Vec::from_slice(alloc, image.bytes())?;
        let sites = sites_of(alloc, regions)?;
        return Ok(Rewritten { bytes, sites });
    }
    let layout = lay_copies(alloc, image, regions)?;
    rewrite_by(alloc, image, regions, &layout)
}

/// What is known of an image, since it was accepted.
fn rewriting_facts(image: &Image)
    ensures regions { rewriting image.now ≡ on_regions image.now (image_regions image.now) }
    ensures places { (regions : List sites.Region) → image_regions image.now ≡ Ok regions
        → All (HasPlace image.now) regions }
    ensures clean { (new : definitions.Rewritten) → rewriting image.now ≡ Ok new
        → IsAccepted new.bytes × (image_list new.bytes ≡ []) }
{
    let _bytes = image.bytes();
    rewriting_is_clean();
    regions_lie_in_file();
}

/// Rewrites an image at the regions of its unsafe sequences.
fn rewrite_accepted(alloc: Global, image: &Image) -> Result<Rewritten, RewriteFault>
    ensures { let answer = on_regions image.now (image_regions image.now) in
        MatchResult result (RewrittenIs answer) (RewriteFaultIs answer) }
{
    rewriting_facts(image);
    let functions = functions_of(alloc, image)?;
    let program = image_program(alloc, image, functions.as_slice())?;
    let regions = image_regions(alloc, image, &program)?;
    rewrite_regions(alloc, image, regions.as_slice())
}

/// Rewrites an image.
pub fn rewrite_image(alloc: Global, image: &Image) -> Result<Rewritten, RewriteFault>
    ensures exact { MatchResult result (RewrittenIs (rewriting image.now))
        (RewriteFaultIs (rewriting image.now)) }
    ensures clean { IfOk result (λ new. IsAccepted new.bytes.items
        × (image_list new.bytes.items ≡ [])) }
{
    rewriting_facts(image);
    rewrite_accepted(alloc, image)
}

/// Rewrites the image that some bytes are.
pub fn rewrite(alloc: Global, bytes: &[u8]) -> Result<Rewritten, RewriteFault>
    ensures exact { MatchResult result (RewrittenIs (rewriting bytes.now))
        (RewriteFaultIs (rewriting bytes.now)) }
    ensures clean { IfOk result (λ new. IsAccepted new.bytes.items
        × (image_list new.bytes.items ≡ [])) }
{
    match read_image(alloc, bytes) {
        Ok(image) => rewrite_image(alloc, &image),
        Err(fault) => Err(RewriteFault::from(fault)),
    }
}
