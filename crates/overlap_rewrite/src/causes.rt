//! What leaves a whole image without room for copies, and the new file where nothing does.

ghost use Rattle.std.specs.Prelude.{◌≡◌, ◌+◌, ◌==◌, ◌||◌, All, IfOk, length, is_some, nat_lt};
ghost use Rattle.std.specs.Prelude.{MatchOption, false, true};
ghost use Rattle.std.specs.List.{list_any};
ghost use Rattle.erim_defs.specs.Inspection.Image.{header_count};
ghost use Rattle.erim_defs.specs.Rewriting.Layout.{segment_bytes};
ghost use Rattle.erim_defs.specs.Rewriting.NewFile.{header_in_note, in_note, meets, meets_as};
ghost use Rattle.erim_defs.specs.Rewriting.NewFile.{new_base, new_file};
ghost use Rattle.erim_defs.specs.Rewriting.Rewriting.{image_first_unsafe, is_bad, is_hopeless};
ghost use Rattle.erim_defs.specs.declared.elf.TheConstants.{PT_NOTE};
ghost use Rattle.erim_defs.specs.declared.limits.TheConstants.{MOST_COPIED, MOST_HEADERS};
ghost use Rattle.erim_defs.specs.Rewriting.NewFile.{HasPlace};

use crate::file::new_file;
use copy_layout::{Layout, in_note, new_base};
use elf_image::{Image, ImageFault, read_image};
use erim_defs::NoMemory;
use erim_defs::elf::{E_PHNUM, E_PHOFF};
use erim_defs::limits::{MOST_COPIED, MOST_HEADERS};
use image_code::ImageCode;
use std::alloc::Global;

/// Does a note have a byte of what the file says of the table of program headers?
#[tactic(auto, unfolding(erim_defs::specs::Rewriting::NewFile::header_in_note))]
fn header_in_note(alloc: Global, image: &Image) -> Result<bool, NoMemory>
    ensures { IfOk result (λ noted. noted ≡ header_in_note image.now) }
{
    let headers = image.headers(alloc)?;
    let place = E_PHOFF as u64;
    let count = E_PHNUM as u64;
    Ok(
        in_note(headers.as_slice(), place, place + 8)
            || in_note(headers.as_slice(), count, count + 2),
    )
}

/// Is there too much to add, or no place for what says of it?
fn is_full(alloc: Global, image: &Image, segment: &[u8]) -> Result<bool, NoMemory>
    ensures { IfOk result (λ full. full ≡ (nat_lt MOST_COPIED (length segment.now)
        || (header_in_note image.now || header_count image.now == MOST_HEADERS))) }
{
    Ok(
        segment.len() as u64 > MOST_COPIED
            || header_in_note(alloc, image)?
            || u32::from(image.header_count()) == MOST_HEADERS,
    )
}

/// Is something in an image unsafe?
#[tactic(auto, using(erim_defs::proofs::UnsafeLemmas::first_is))]
fn has_unsafe(alloc: Global, image: &Image) -> Result<bool, NoMemory>
    ensures { IfOk result (λ has. has ≡ is_some (image_first_unsafe image.now)) }
{
    let code = ImageCode::lay(alloc, image)?;
    Ok(code.next_unsafe(image.trust(), 0).is_some())
}

/// Are bytes no accepted image, or one in which something is unsafe?
fn is_bad(alloc: Global, bytes: &[u8]) -> Result<bool, NoMemory>
    ensures { IfOk result (λ bad. bad ≡ is_bad bytes.now) }
{
    match read_image(alloc, bytes) {
        Ok(image) => has_unsafe(alloc, &image),
        Err(ImageFault::Memory) => Err(NoMemory),
        Err(_fault) => Ok(true),
    }
}

/// The file of the image that is rewritten by a layout of copies, where the whole isn't hopeless.
pub fn file_with(
    alloc: Global,
    image: &Image,
    layout: &Layout<'_>,
) -> Result<Option<Vec<u8>>, NoMemory>
    requires places { All (λ k. HasPlace image.now k.region) layout.now.copies.items }
    requires bytes { layout.now.segment.items ≡ segment_bytes layout.now.copies.items }
    ensures { IfOk result (λ found. MatchOption found
        (is_hopeless image.now layout.now.copies.items ≡ true)
        (λ file. (is_hopeless image.now layout.now.copies.items ≡ false)
        × (file.items ≡ new_file image.now (new_base image.now) layout.now.copies.items))) }
{
    if is_full(alloc, image, layout.segment.as_slice())? {
        return Ok(None);
    }
    let file = new_file(alloc, image, new_base(image), layout)?;
    if is_bad(alloc, file.as_slice())? {
        return Ok(None);
    }
    Ok(Some(file))
}
