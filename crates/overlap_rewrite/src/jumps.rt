//! The regions' bytes in the file: jumps to the copies.

ghost use Rattle.std.specs.Prelude.{◌≡◌, ◌+◌, ◌-◌, ◌≤◌, All, IfOk, OnOk, length};
ghost use Rattle.erim_defs.specs.Inspection.Image.{segments};
ghost use Rattle.erim_defs.specs.Rewriting.Layout.{region_bytes};
ghost use Rattle.erim_defs.specs.Rewriting.NewFile.{file_place, with_bytes, with_jumps};
ghost use Rattle.erim_defs.specs.Rewriting.Sites.{region_end, region_start};
ghost use Rattle.erim_defs.specs.Rewriting.NewFile.{HasPlace};

use crate::bytes::put_at;
use copy_layout::file_place;
use elf_image::Image;
use erim_defs::NoMemory;
use run_copies::{NOP, RegionCopy};
use std::alloc::{AllocError, Global};

/// What stands in a region's place: the jump to its copy, and NOPs.
fn region_bytes(alloc: Global, copy: &RegionCopy<'_>) -> Result<Vec<u8>, AllocError>
    requires { region_start copy.now.region + 5 ≤ region_end copy.now.region }
    ensures bytes { IfOk result (λ bytes. bytes.items ≡ region_bytes copy.now) }
    ensures length { IfOk result (λ bytes. length bytes.items
        ≡ region_end copy.now.region - region_start copy.now.region) }
{
    let region = copy.region();
    let mut bytes = Vec::from_slice(alloc, &copy.jump())?;
    bytes.resize((region.end() - region.start()) as usize, NOP)?;
    Ok(bytes)
}

/// Puts a region's bytes into the file of an image.
fn put_jump(
    alloc: Global,
    file: &mut [u8],
    image: &Image,
    copy: &RegionCopy<'_>,
) -> Result<(), NoMemory>
    requires place { HasPlace image.now copy.now.region }
    requires length { length file.old ≡ length image.now }
    ensures put { OnOk result (file.new
        ≡ with_bytes (file_place (segments image.now) (region_start copy.now.region))
        (region_bytes copy.now) file.old) }
    ensures length { OnOk result (length file.new ≡ length image.now) }
{
    let bytes = region_bytes(alloc, copy)?;
    let place = file_place(image, copy.region().start());
    put_at(file, place as usize, bytes.as_slice());
    Ok(())
}

/// Puts the bytes of all regions into the file of an image.
pub fn put_jumps(
    alloc: Global,
    file: &mut [u8],
    image: &Image,
    copies: &[RegionCopy<'_>],
) -> Result<(), NoMemory>
    requires places { All (λ k. HasPlace image.now k.region) copies.now }
    requires length { length file.old ≡ length image.now }
    ensures put { OnOk result (file.new ≡ with_jumps (segments image.now) copies.now file.old) }
    ensures length { OnOk result (length file.new ≡ length image.now) }
{
    for copy in copies {
        put_jump(alloc, file, image, copy)?;
    }
    Ok(())
}
