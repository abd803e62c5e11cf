//! Loads the pages of a program: those of its segments, and the stack's.

mod page;
mod rights;

ghost use Rattle.std.specs.Prelude.{◌≡◌, ◌<◌, ◌≤◌, ◌+◌, ◌^◌, ℕ, Some, None, false, length, sum_by};
ghost use Rattle.std.specs.Prelude.{All, IsTrue};
ghost use Rattle.erim_defs.specs.Machine.Access.{whole};
ghost use Rattle.erim_defs.specs.Machine.Count.{mapped_pages};
ghost use Rattle.erim_defs.specs.Inspection.Image.{IsAccepted, IsPlaced, loaded_byte, page_count};
ghost use Rattle.erim_defs.specs.Encoding.Parts.{AreBytes};
ghost use Rattle.erim_defs.specs.Inspection.Image.{segments, touches};
ghost use Rattle.erim_defs.specs.Machine.Start.{asked_of, byte_in, unpublished_rights, is_stack};
ghost use Rattle.erim_defs.specs.Machine.Access.{rights_in};
ghost use Rattle.erim_process.specs.ImagePages.{AllUnmapped, bytes_over, page_rights, rights_from};
ghost use Rattle.erim_process.specs.ImagePages.{rights_over, segment_rights};

use crate::image_pages::page::load_page;
use crate::image_pages::rights::{asked_of, page_rights};
use elf_image::Image;
use erim_defs::linux::{PROT_READ, PROT_WRITE};
use erim_defs::page::{PLAIN_KEY, STACK_END_PAGE, STACK_PAGE};
use erim_defs::{Rights, Segment};
use page_store::{Memory, Pages};

// What is asked of the stack's pages: PROT_READ and PROT_WRITE.
const STACK_ASKED: u8 = PROT_READ + PROT_WRITE;

// Maps the pages of a segment with their bytes.
fn load_segment<P: Pages>(pages: &mut P, image: &Image, segment: &Segment)
    requires placed { IsPlaced (length image.now) segment.now }
    requires unmapped { AllUnmapped (touches segment.now) (rights_in (P.seen pages.old)) }
    requires room { mapped_pages (rights_in (P.seen pages.old)) + page_count segment.now ≤ P.frames
        pages.old }
    ensures rights { rights_in (P.seen pages.new)
        ≡ rights_over (touches segment.now)
        (page_rights image.now (asked_of segment.now))
        (rights_in (P.seen pages.old)) }
    ensures bytes { P.bytes pages.new
        ≡ bytes_over (touches segment.now) (loaded_byte image.now segment.now) (P.bytes pages.old) }
    ensures frames { P.frames pages.new ≡ P.frames pages.old }
    ensures count { mapped_pages (rights_in (P.seen pages.new))
        ≡ mapped_pages (rights_in (P.seen pages.old)) + page_count segment.now }
{
    let asked = asked_of(segment);
    for page in segment.first_page()..segment.end_page() {
        let rights = page_rights(image, asked, page);
        load_page(pages, image.bytes(), segment, page, rights);
    }
}

// Maps the pages of all segments with their bytes.
fn load_segments<P: Pages>(pages: &mut P, image: &Image)
    requires empty { rights_in (P.seen pages.old) ≡ λ _. None }
    requires zero { P.bytes pages.old ≡ λ _. 0 }
    requires room { sum_by page_count (segments image.now) ≤ P.frames pages.old }
    ensures rights { rights_in (P.seen pages.new)
        ≡ segment_rights (segments image.now) image.now }
    ensures bytes { P.bytes pages.new ≡ byte_in image.now (segments image.now) }
    ensures frames { P.frames pages.new ≡ P.frames pages.old }
    ensures count { mapped_pages (rights_in (P.seen pages.new))
        ≡ sum_by page_count (segments image.now) }
    ensures placed { All (IsPlaced (length image.now)) (segments image.now) }
    ensures accepted { IsAccepted image.now }
    ensures octets { AreBytes image.now }
{
    // From the last one on: the definitions put each segment before those after it.
    let segments = image.segments();
    let mut left = segments.len();
    while left > 0 {
        left -= 1;
        load_segment(pages, image, &segments[left]);
    }
}

// Maps the pages of the stack.
fn map_stack<P: Pages>(pages: &mut P)
    requires unmapped { AllUnmapped is_stack (rights_in (P.seen pages.old)) }
    requires room { mapped_pages (rights_in (P.seen pages.old)) + 16 ≤ P.frames pages.old }
    ensures rights { rights_in (P.seen pages.new)
        ≡ rights_over is_stack (λ _. unpublished_rights 3 0) (rights_in (P.seen pages.old)) }
    ensures bytes { P.bytes pages.new ≡ P.bytes pages.old }
    ensures frames { P.frames pages.new ≡ P.frames pages.old }
{
    for page in STACK_PAGE..STACK_END_PAGE {
        pages.map_zero(page, Rights::unpublished_rights(STACK_ASKED, PLAIN_KEY));
    }
}

/// Maps the pages of an image with their bytes, and the stack's. Pages of trusted data and trusted
/// heaps have their domain's key, and those of trusted text are published.
pub(crate) fn load_pages<P: Pages>(pages: &mut P, image: &Image)
    requires empty { P.seen pages.old ≡ whole (λ _. None) }
    requires zero { P.bytes pages.old ≡ λ _. 0 }
    requires room { sum_by page_count (segments image.now) + 16 ≤ P.frames pages.old }
    ensures rights { rights_in (P.seen pages.new) ≡ rights_from image.now }
    ensures bytes { P.bytes pages.new ≡ byte_in image.now (segments image.now) }
    ensures frames { P.frames pages.new ≡ P.frames pages.old }
    ensures accepted { IsAccepted image.now }
    ensures octets { AreBytes image.now }
{
    load_segments(pages, image);
    map_stack(pages);
}
