//! Ranges of adjoining pages that executable segments touch.

ghost use Rattle.std.specs.Prelude.{◌≡◌, ◌≤◌, ◌^◌, ℕ, All, IsTrue, MatchOption, Bool, true, false};
ghost use Rattle.std.specs.Prelude.{◌&&◌, ◌||◌};
ghost use Rattle.erim_defs.specs.Inspection.Image.{is_executable, is_in_user, is_page_of, touches};
ghost use Rattle.image_code.specs.Ranges.{GoesOn, IsFirstPage, IsNextRange, IsRange};

use erim_defs::Segment;

/// A range of pages, by their numbers.
#[derive(Clone, Copy)]
pub struct PageBounds {
    /// Its first page.
    pub first: u64,
    /// The page after its last.
    pub end: u64,
}

/// The first page from `from` on that an executable segment touches.
fn page_from(segment: &Segment, from: u64) -> Option<u64>
    requires { IsTrue (is_in_user segment.now) }
    ensures { IsFirstPage (λ page. is_executable segment.now && touches segment.now page)
        from result }
{
    let first = from.max(segment.first_page());
    if segment.is_executable() && segment.memsz > 0 && first < segment.end_page() {
        Some(first)
    } else {
        None
    }
}

/// The lesser of two pages, of which each may be missing.
fn lesser(a: Option<u64>, b: Option<u64>) -> Option<u64>
    ensures { (f g : ℕ → Bool) (from : ℕ) → IsFirstPage f from a → IsFirstPage g from b
        → IsFirstPage (λ page. f page || g page) from result }
{
    match (a, b) {
        (Some(page), Some(other)) => Some(page.min(other)),
        (Some(page), None) | (None, Some(page)) => Some(page),
        (None, None) => None,
    }
}

/// The first page from `from` on that any executable segment touches.
fn first_page_from(segments: &[Segment], from: u64) -> Option<u64>
    requires { All (λ s. IsTrue (is_in_user s)) segments.now }
    ensures { IsFirstPage (is_page_of is_executable segments.now) from result }
{
    let mut first = None;
    for segment in segments {
        first = lesser(first, page_from(segment, from));
    }
    first
}

/// The end of an executable segment that touches the page, if there is one.
fn end_at(segments: &[Segment], page: u64) -> Option<u64>
    requires { All (λ s. IsTrue (is_in_user s)) segments.now }
    ensures { MatchOption result (is_page_of is_executable segments.now page ≡ false)
        (λ end. GoesOn (is_page_of is_executable segments.now) page end) }
{
    for segment in segments {
        if segment.is_executable() && segment.touches(page) {
            return Some(segment.end_page());
        }
    }
    None
}

/// The first page after a page that executable segments touch which they don't touch.
#[tactic(auto, using(erim_defs::proofs::PageLemmas::pages_below))]
fn range_end(segments: &[Segment], first: u64) -> u64
    requires user { All (λ s. IsTrue (is_in_user s)) segments.now }
    requires there { is_page_of is_executable segments.now first ≡ true }
    ensures { IsRange (is_page_of is_executable segments.now)
        (record { first = first; end = result }) }
{
    let mut end = first;
    'grow: while let Some(next) = end_at(segments, end) {
        end = next;
    }
    end
}

/// The first range from the page `from` on: its pages are adjoining, and the one after it is none
/// of an executable segment.
pub fn next_range(segments: &[Segment], from: u64) -> Option<PageBounds>
    requires { All (λ s. IsTrue (is_in_user s)) segments.now }
    ensures { IsNextRange (is_page_of is_executable segments.now) from result }
{
    let first = first_page_from(segments, from)?;
    let end = range_end(segments, first);
    Some(PageBounds { first, end })
}
