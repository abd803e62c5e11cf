//! Where the new segment begins.

ghost use Rattle.std.specs.Prelude.{◌≡◌, ◌+◌, ◌<◌, ◌≤◌, ◌^◌};
ghost use Rattle.erim_defs.specs.Inspection.Image.{segments};
ghost use Rattle.erim_defs.specs.Rewriting.NewFile.{free_page, high_page, is_taken, new_base};

use elf_image::Image;
use erim_defs::Segment;
use erim_defs::limits::MOST_PAGES;
use erim_defs::page::PAGE_SIZE;

/// The page after the highest of an executable segment.
fn high_page(image: &Image) -> u64
    ensures page { result ≡ high_page (segments image.now) }
    ensures low { result ≤ 2 ^ 35 }
{
    let mut high = 0;
    for segment in image.segments() {
        if segment.is_executable() {
            high = high.max(segment.end_page());
        }
    }
    high
}

/// Does a segment touch the page?
fn is_taken(segments: &[Segment], page: u64) -> bool
    ensures { result ≡ is_taken segments.now page }
{
    segments.iter().any(|s| s.touches(page))
}

/// The first page from the highest on that no segment touches.
#[tactic(auto, unfolding(erim_defs::specs::Rewriting::NewFile::free_page))]
fn free_page(image: &Image) -> u64
    ensures page { result ≡ free_page (segments image.now) }
    ensures low { result ≤ 2 ^ 35 + 4080 }
{
    let high = high_page(image);
    for count in 0..MOST_PAGES + 1 {
        if !is_taken(image.segments(), high + count) {
            return high + count;
        }
    }
    high
}

/// The address at which the new segment begins.
pub fn new_base(image: &Image) -> u64
    ensures base { result ≡ new_base image.now }
    ensures low { result < 2 ^ 49 }
{
    PAGE_SIZE * free_page(image)
}
