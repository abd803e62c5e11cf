//! The unsafe sequences of an image, as a list.

ghost use Rattle.std.specs.Prelude.{◌≡◌, ◌<◌, ◌^◌, All, IfOk};
ghost use Rattle.erim_defs.specs.Inspection.Unsafe.{image_list};

use elf_image::Image;
use erim_defs::{Found, NoMemory};
use image_code::ImageCode;
use std::alloc::Global;

/// The unsafe sequences of the image code, by rising address.
pub fn unsafe_sequences(alloc: Global, image: &Image) -> Result<Vec<Found>, NoMemory>
    ensures list { IfOk result (λ all. all.items ≡ image_list image.now) }
    ensures low { IfOk result (λ all. All (λ e. e.at < 2 ^ 47) all.items) }
{
    let code = ImageCode::lay(alloc, image)?;
    let mut all = Vec::new(alloc);
    let mut from = 0;
    'walk: while let Some(found) = code.next_unsafe(image.trust(), from) {
        from = found.at + 1;
        all.push(found)?;
    }
    Ok(all)
}
