//! The sites of an image.

ghost use Rattle.std.specs.Prelude.{◌≡◌, ◌+◌, ◌-◌, ◌≤◌, ◌^◌, ◌&&◌, ◌++◌, All, AllPairs, IfOk};
ghost use Rattle.std.specs.Prelude.{MatchResult, Ok, OnOk, drop, false, length, map, nat_le, take};
ghost use Rattle.std.specs.Prelude.{sum_by, true};
ghost use Rattle.std.specs.List.{list_any};
ghost use Rattle.erim_defs.specs.Inspection.Image.{IsPlaced, code_of, holds_function};
ghost use Rattle.erim_defs.specs.Inspection.Image.{image_functions, page_count, shares_page};
ghost use Rattle.erim_defs.specs.Machine.Pages.{code_bytes};
ghost use Rattle.erim_defs.specs.Rewriting.NewFile.{function_of, program_of};
ghost use Rattle.erim_defs.specs.Rewriting.Rewriting.{image_regions};
ghost use Rattle.erim_defs.specs.Rewriting.Sites.{region_end, region_start};
ghost use Rattle.rewrite_sites.specs.Shown.{FaultIs, sites_or_obstacle, site_at, sites_of};

use crate::elements::unsafe_sequences;
use crate::function::Function;
use crate::program::Program;
use crate::region::Region;
use crate::regions::{SiteFault, find_regions};
use elf_image::Image;
use erim_defs::{Found, NoMemory, Segment, Span};
use std::alloc::{AllocError, Global};

/// A region of instructions that can be rewritten: its first element, its address, and how many
/// bytes it has.
#[derive(Clone, Copy, PartialEq, Eq)]
pub struct Site {
    pub found: Found,
    pub start: u64,
    pub length: u32,
}

/// Where an image can be rewritten: its sites by rising address.
#[derive(Drop)]
pub struct Sites {
    pub list: Vec<Site>,
}

/// The n bytes from a place on.
fn bytes_from(bytes: &[u8], place: usize, n: usize) -> &[u8]
    requires { place + n ≤ length bytes.now }
    ensures { result.now ≡ take n (drop place bytes.now) }
{
    bytes.split_at(place).1.split_at(n).0
}

/// The bytes of a function in the file part of a segment.
fn part_in<'a>(bytes: &'a [u8], segment: &Segment, function: &Span) -> &'a [u8]
    requires placed { IsPlaced (length bytes.now) segment.now }
    requires low { segment.now.vaddr ≤ function.now.start }
    requires high { function.now.start + function.now.length
        ≤ segment.now.vaddr + segment.now.filesz }
    ensures { result.now ≡ take function.now.length
        (drop (segment.now.offset + (function.now.start - segment.now.vaddr)) bytes.now) }
{
    let place = segment.offset + (function.start - segment.vaddr);
    bytes_from(bytes, place as usize, function.length as usize)
}

/// The bytes of a function that lies in the file part of an executable segment.
fn file_part<'a>(bytes: &'a [u8], segments: &[Segment], function: &Span) -> &'a [u8]
    requires placed { All (IsPlaced (length bytes.now)) segments.now }
    requires apart { AllPairs (λ s t. shares_page s t ≡ false) segments.now }
    requires few { sum_by page_count segments.now ≤ 4080 }
    requires held { list_any (holds_function function.now) segments.now ≡ true }
    ensures code { result.now ≡ code_bytes (code_of bytes.now segments.now) function.now.start
        function.now.length }
    ensures user { function.now.start + length result.now ≤ 2 ^ 47 }
    ensures few { length result.now ≤ 2 ^ 24 }
{
    for segment in segments {
        if segment.holds_function(function) {
            return part_in(bytes, segment, function);
        }
    }
    &[]
}

/// The functions that an image lists, each with its bytes.
pub fn functions_of(alloc: Global, image: &Image) -> Result<Vec<Function<'_>>, AllocError>
    ensures { IfOk result (λ all. all.items
        ≡ map (function_of image.now) (image_functions image.now)) }
{
    let mut functions = Vec::new(alloc);
    for span in image.functions() {
        let bytes = file_part(image.bytes(), image.segments(), span);
        functions.push(Function::read(alloc, span.start, bytes)?)?;
    }
    Ok(functions)
}

/// The program of an image whose functions these are.
#[tactic(auto, unfolding(erim_defs::specs::Rewriting::NewFile::program_of))]
pub fn image_program<'a>(
    alloc: Global,
    image: &'a Image,
    functions: &'a [Function<'_>],
) -> Result<Program<'a>, NoMemory>
    requires { functions.now ≡ map (function_of image.now) (image_functions image.now) }
    ensures { IfOk result (λ program. program ≡ program_of image.now) }
{
    Program::new(alloc, functions, image.trust(), image.entry())
}

/// The regions of the unsafe sequences of an image, by rising address, or the first sequence that
/// can't be rewritten.
#[tactic(auto, using(crate::proofs::ImageLemmas::regions_of_image))]
pub fn image_regions<'a>(
    alloc: Global,
    image: &Image,
    program: &'a Program<'_>,
) -> Result<Vec<Region<'a>>, SiteFault>
    requires { program.now ≡ program_of image.now }
    ensures { MatchResult result
        (λ regions. image_regions image.now ≡ Ok regions.items)
        (λ fault. FaultIs (image_regions image.now) fault) }
{
    let elements = unsafe_sequences(alloc, image)?;
    find_regions(alloc, program, elements.as_slice())
}

/// Takes the site of a region into a list.
fn push_site(list: &mut Vec<Site>, region: &Region<'_>) -> Result<(), NoMemory>
    ensures { OnOk result (list.new.items
        ≡ list.old.items ++ site_at region.now.elements (region_start region.now) (region_end region.now)) }
{
    if let Some(found) = region.elements().first() {
        list.push(Site {
            found: *found,
            start: region.start(),
            length: region.len(),
        })?;
    }
    Ok(())
}

/// The sites of regions: a region with its first element.
#[tactic(auto, using(crate::proofs::RegionLemmas::sites_more, crate::proofs::RegionLemmas::sites_done))]
pub fn sites_of(alloc: Global, regions: &[Region<'_>]) -> Result<Sites, NoMemory>
    ensures { IfOk result (λ sites. sites.list.items ≡ sites_of regions.now) }
{
    let mut list = Vec::new(alloc);
    for region in regions {
        push_site(&mut list, region)?;
    }
    Ok(Sites { list })
}

/// The sites of an image, or its first unsafe sequence that can't be rewritten.
pub fn find_sites(alloc: Global, image: &Image) -> Result<Sites, SiteFault>
    ensures { MatchResult result
        (λ sites. sites_or_obstacle (image_regions image.now) ≡ Ok sites.list.items)
        (λ fault. FaultIs (sites_or_obstacle (image_regions image.now)) fault) }
{
    let functions = functions_of(alloc, image)?;
    let program = image_program(alloc, image, functions.as_slice())?;
    let regions = image_regions(alloc, image, &program)?;
    Ok(sites_of(alloc, regions.as_slice())?)
}
