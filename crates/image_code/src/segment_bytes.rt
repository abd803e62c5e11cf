//! The bytes of a range of pages, from the segments.

ghost use Rattle.std.specs.Prelude.{◌≡◌, ◌⊎◌, ◌+◌, ◌^◌, ◌<◌, ◌≤◌, ℕ, All, AllPairs, EachIndex};
ghost use Rattle.std.specs.Prelude.{IsTrue, IfOk, false, length, slice_index};
ghost use Rattle.erim_defs.specs.Inspection.Image.{IsPlaced, code_of, is_executable, is_page_of};
ghost use Rattle.erim_defs.specs.Inspection.Image.{shares_page};
ghost use Rattle.image_code.specs.Ranges.{IsRange, LaysRange, part_byte_or};

use crate::ranges::PageBounds;
use erim_defs::page::PAGE_SIZE;
use erim_defs::{NoMemory, Segment};
use std::alloc::Global;

/// Puts the part into the code, from a place on.
fn put_at(code: &mut [u8], place: usize, part: &[u8])
    requires { place + length part.now ≤ length code.old }
    ensures inside { EachIndex part.now (λ k. slice_index code.new (place + k)
        ≡ slice_index part.now k) }
    ensures outside { (k : ℕ) → (k < place) ⊎ (place + length part.now ≤ k)
        → slice_index code.new k ≡ slice_index code.old k }
{
    code[place..place + part.len()].copy_from_slice(part);
}

/// Copies those bytes of a segment's file part that lie within the code that begins at `base`.
fn copy_part(code: &mut [u8], base: u64, bytes: &[u8], segment: &Segment)
    requires user { base + length code.old ≤ 2 ^ 47 }
    requires placed { IsPlaced (length bytes.now) segment.now }
    ensures { EachIndex code.new (λ k. slice_index code.new k
        ≡ part_byte_or bytes.now segment.now (base + k) (slice_index code.old k)) }
{
    let start = segment.vaddr.max(base);
    let end = (segment.vaddr + segment.filesz).min(base + code.len() as u64);
    if start < end {
        let place = (segment.offset + (start - segment.vaddr)) as usize;
        let part = &bytes[place..place + (end - start) as usize];
        put_at(code, (start - base) as usize, part);
    }
}

/// The bytes of all pages of a range: the file parts of the executable segments in their places,
/// and zeros.
pub fn range_bytes(
    alloc: Global,
    bytes: &[u8],
    segments: &[Segment],
    pages: &PageBounds,
) -> Result<Vec<u8>, NoMemory>
    requires placed { All (IsPlaced (length bytes.now)) segments.now }
    requires apart { AllPairs (λ s t. shares_page s t ≡ false) segments.now }
    requires pages { IsRange (is_page_of is_executable segments.now) pages.now }
    ensures { IfOk result (λ code. LaysRange (code_of bytes.now segments.now) pages.now
        code.items) }
{
    let mut code = Vec::new(alloc);
    code.resize((PAGE_SIZE * (pages.end - pages.first)) as usize, 0)?;
    for segment in segments {
        if segment.is_executable() {
            copy_part(code.as_mut_slice(), PAGE_SIZE * pages.first, bytes, segment);
        }
    }
    Ok(code)
}
