//! The file of a rewritten image.

ghost use Rattle.std.specs.Prelude.{◌≡◌, ◌^◌, ◌+◌, ◌∷◌, ◌<◌, ◌≤◌, [], All, IfOk, OnOk, length};
ghost use Rattle.erim_defs.specs.Inspection.Image.{segments};
ghost use Rattle.erim_defs.specs.Output.LayImage.{halves, xwords};
ghost use Rattle.erim_defs.specs.Rewriting.Layout.{segment_bytes};
ghost use Rattle.erim_defs.specs.Rewriting.NewFile.{new_file, new_table_place, segment_place};
ghost use Rattle.erim_defs.specs.Rewriting.NewFile.{with_bytes, file_with_jumps};
ghost use Rattle.erim_defs.specs.declared.elf.TheConstants.{E_PHNUM, E_PHOFF};
ghost use Rattle.erim_defs.specs.Rewriting.NewFile.{HasPlace};
ghost use Rattle.erim_defs.specs.declared.limits.TheConstants.{MOST_COPIED};

use crate::bytes::put_at;
use crate::header::push_header;
use crate::jumps::put_jumps;
use copy_layout::Layout;
use elf_image::Image;
use erim_defs::NoMemory;
use erim_defs::elf::{E_PHNUM, E_PHOFF};
use erim_defs::field::{u16_bytes, u64_bytes};
use erim_defs::page::PAGE_SIZE;
use image_gen::{multiple_from, push_at};
use run_copies::RegionCopy;
use std::alloc::Global;

/// The place of the new segment in the file.
fn segment_place(image: &Image) -> u64
    ensures place { result ≡ segment_place image.now }
    ensures low { result ≤ 2 ^ 63 + 4096 }
{
    multiple_from(PAGE_SIZE, image.bytes().len() as u64)
}

/// The place of the new table of program headers.
fn new_table_place(image: &Image, layout: &Layout<'_>) -> u64
    requires bytes { layout.now.segment.items ≡ segment_bytes layout.now.copies.items }
    requires few { length layout.now.segment.items ≤ MOST_COPIED }
    ensures { result ≡ new_table_place image.now layout.now.copies.items }
{
    multiple_from(8, segment_place(image) + layout.segment.len() as u64)
}

/// Says where the table of program headers is, and how many they are.
fn put_table(file: &mut [u8], place: u64, count: u16)
    requires { 64 ≤ length file.old }
    ensures { file.new ≡ with_bytes E_PHOFF (xwords (place ∷ []))
        (with_bytes E_PHNUM (halves (count ∷ [])) file.old) }
{
    put_at(file, E_PHNUM, &u16_bytes(count));
    put_at(file, E_PHOFF, &u64_bytes(place));
}

/// The old bytes with the regions changed, and what they say of the table.
fn file_with_jumps(alloc: Global, image: &Image, layout: &Layout<'_>) -> Result<Vec<u8>, NoMemory>
    requires places { All (λ k. HasPlace image.now k.region) layout.now.copies.items }
    requires bytes { layout.now.segment.items ≡ segment_bytes layout.now.copies.items }
    requires few { length layout.now.segment.items ≤ MOST_COPIED }
    ensures { IfOk result (λ file. file.items ≡ file_with_jumps image.now layout.now.copies.items) }
{
    let mut file = Vec::from_slice(alloc, image.bytes())?;
    put_jumps(alloc, file.as_mut_slice(), image, layout.copies.as_slice())?;
    let place = new_table_place(image, layout);
    put_table(file.as_mut_slice(), place, image.header_count() + 1);
    Ok(file)
}

/// The file of the image that is rewritten by a layout of copies from an address on.
pub fn new_file(
    alloc: Global,
    image: &Image,
    base: u64,
    layout: &Layout<'_>,
) -> Result<Vec<u8>, NoMemory>
    requires places { All (λ k. HasPlace image.now k.region) layout.now.copies.items }
    requires bytes { layout.now.segment.items ≡ segment_bytes layout.now.copies.items }
    requires few { length layout.now.segment.items ≤ MOST_COPIED }
    ensures { IfOk result (λ file. file.items
        ≡ new_file image.now base layout.now.copies.items) }
{
    let segment = layout.segment.as_slice();
    let place = segment_place(image);
    let mut file = file_with_jumps(alloc, image, layout)?;
    push_at(&mut file, place, segment)?;
    push_at(
        &mut file,
        new_table_place(image, layout),
        image.header_table(),
    )?;
    push_header(&mut file, place, base, segment)?;
    Ok(file)
}
