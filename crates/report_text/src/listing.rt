//! The unsafe list of an image, as text.

ghost use Rattle.std.specs.Prelude.{◌≡◌, ◌++◌, OnOk, IfOk, codes, length};
ghost use Rattle.std.specs.Fmt.{decimal};
ghost use Rattle.std.specs.String.{string_bytes};
ghost use Rattle.erim_defs.specs.Inspection.Unsafe.{image_list};
ghost use Rattle.erim_defs.specs.Output.Texts.{inspect_text, line};

use crate::texts::push_unsafe_line;
use elf_image::Image;
use erim_defs::NoMemory;
use image_code::ImageCode;
use std::alloc::Global;

/// The unsafe list of an image, a line for each element and one for their count.
#[derive(Drop)]
pub struct UnsafeList {
    pub text: Vec<u8>,
    /// How many elements the list has.
    pub count: u64,
}

/// Appends the line that says how many elements the list has.
fn push_count(text: &mut String, count: u64) -> Result<(), NoMemory>
    ensures { OnOk result (string_bytes text.new ≡ string_bytes text.old
        ++ line (codes "unsafe " ++ decimal count)) }
{
    writeln!(text, "unsafe {count}")?;
    Ok(())
}

/// The unsafe list of the image code, by rising address.
pub fn inspection(alloc: Global, image: &Image) -> Result<UnsafeList, NoMemory>
    ensures text { IfOk result (λ of. of.text.items ≡ inspect_text (image_list image.now)) }
    ensures count { IfOk result (λ of. of.count ≡ length (image_list image.now)) }
{
    let code = ImageCode::lay(alloc, image)?;
    let mut text = String::new(alloc);
    let mut count: u64 = 0;
    let mut from = 0;
    'walk: while let Some(found) = code.next_unsafe(image.trust(), from) {
        push_unsafe_line(&mut text, &found)?;
        count += 1;
        from = found.at + 1;
    }
    push_count(&mut text, count)?;
    Ok(UnsafeList {
        text: text.into_bytes(),
        count,
    })
}

/// What `inspect` prints of an image.
pub fn inspect_text(alloc: Global, image: &Image) -> Result<Vec<u8>, NoMemory>
    ensures { IfOk result (λ text. text.items ≡ inspect_text (image_list image.now)) }
{
    Ok(inspection(alloc, image)?.text)
}
