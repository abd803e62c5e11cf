//! Lays out an image.

ghost use Rattle.std.specs.Prelude.{◌≡◌, ◌≤◌, length, OnOk, IfOk};
ghost use Rattle.erim_defs.specs.Output.LayImage.{file_with_pieces, laid_image, pieces};
ghost use Rattle.image_gen.specs.Parts.{mark_values, part_values, total_bytes};

use crate::field::{multiple_from, push_at};
use crate::header::{part_place, push_file_header, push_headers};
use crate::note::notes;
use crate::part::{Mark, Part};
use erim_defs::elf::{FILE_HEADER_SIZE, NOTE_ALIGNMENT, PROGRAM_HEADER_SIZE};
use erim_defs::{NoMemory, Span};
use std::alloc::{AllocError, Global};

/// Appends the bytes of the parts, and of the notes where there are any, each at its place.
fn push_pieces(bytes: &mut Vec<u8>, parts: &[Part], notes: &[u8]) -> Result<(), AllocError>
    ensures { OnOk result (bytes.new.items
        ≡ file_with_pieces bytes.old.items (pieces (length bytes.old.items) (part_values parts.now)
        notes.now)) }
{
    for part in parts {
        let place = part_place(bytes.len() as u64, part.bytes.len() as u64);
        push_at(bytes, place, part.bytes.as_slice())?;
    }
    if notes.is_empty() {
        return Ok(());
    }
    let place = multiple_from(NOTE_ALIGNMENT, bytes.len() as u64);
    push_at(bytes, place, notes)
}

/// The file of an image whose segments are the parts, in their order, with a trust note of the
/// marks and a functions note of the functions where there are any. It has at most 63 parts, of at
/// most 16 MiB in the file together, 256 marks and 4,096 functions. Whether it is one that is
/// accepted depends on the parts.
pub fn lay_image(
    alloc: Global,
    parts: &[Part],
    marks: &[Mark],
    functions: &[Span],
    entry: u64,
) -> Result<Vec<u8>, NoMemory>
    requires parts { length parts.now ≤ 63 }
    requires marks { length marks.now ≤ 256 }
    requires functions { length functions.now ≤ 4096 }
    requires bytes { total_bytes parts.now ≤ 16777216 }
    ensures { IfOk result (λ bytes. bytes.items
        ≡ laid_image (part_values parts.now) (mark_values marks.now) functions.now entry) }
{
    let notes = notes(alloc, marks, functions)?;
    let count = parts.len() as u16 + u16::from(!notes.is_empty());
    let mut bytes = Vec::new(alloc);
    push_file_header(&mut bytes, count, entry)?;
    let start = FILE_HEADER_SIZE as u64 + PROGRAM_HEADER_SIZE as u64 * u64::from(count);
    push_headers(&mut bytes, start, parts, notes.as_slice())?;
    push_pieces(&mut bytes, parts, notes.as_slice())?;
    Ok(bytes)
}
