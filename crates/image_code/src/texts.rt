//! Ranges of adjoining pages of trusted text.

ghost use Rattle.std.specs.Prelude.{◌≡◌, ◌<◌, ◌≤◌, ◌^◌, ◌&&◌, nat_lt, true};
ghost use Rattle.image_code.specs.Ranges.{IsFirstPage, IsNextRange, IsRange};
ghost use Rattle.image_code.specs.Texts.{is_text_below, is_text_page};

use crate::ranges::PageBounds;
use erim_defs::Trust;
use erim_defs::page::PAGE_SIZE;

/// The first page of trusted text from `from` on and before `end`.
fn text_start(trust: &Trust, from: u64, end: u64) -> Option<u64>
    requires { end ≤ 2 ^ 35 }
    ensures { IsFirstPage (is_text_below trust.now end) from result }
{
    for page in from..end {
        if trust.is_trusted(PAGE_SIZE * page) {
            return Some(page);
        }
    }
    None
}

/// The first page after a page of trusted text that isn't trusted text, or `end` where all before
/// it are.
fn text_end(trust: &Trust, first: u64, end: u64) -> u64
    requires user { end ≤ 2 ^ 35 }
    requires there { is_text_below trust.now end first ≡ true }
    ensures { IsRange (is_text_below trust.now end) (record { first = first; end = result }) }
{
    for page in first..end {
        if !trust.is_trusted(PAGE_SIZE * page) {
            return page;
        }
    }
    end
}

/// The first range of pages of trusted text from the page `from` on and before `end`.
pub fn next_text(trust: &Trust, from: u64, end: u64) -> Option<PageBounds>
    requires { end ≤ 2 ^ 35 }
    ensures { IsNextRange (is_text_below trust.now end) from result }
{
    let first = text_start(trust, from, end)?;
    let end = text_end(trust, first, end);
    Some(PageBounds { first, end })
}
