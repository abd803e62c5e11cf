//! Walks over the mapped pages of a range.

ghost use Rattle.map_calls.specs.Ranges.{IsNextIn};
ghost use Rattle.erim_defs.specs.Machine.Access.{rights_in};

use page_store::{Memory, Pages};

/// The least mapped page from one on, up to an end.
pub(crate) fn next_in<P: Pages>(pages: &P, from: u64, end: u64) -> Option<u64>
    ensures { IsNextIn (rights_in (P.seen pages.now)) from end result }
{
    match pages.next_page(from) {
        Some(page) if page < end => Some(page),
        _ => None,
    }
}
