//! What a call may not touch: trusted text, pages of domains that the caller doesn't open, and
//! pages that a thread's origin pins.

ghost use Rattle.std.specs.Prelude.{◌≡◌, ◌<◌, ◌^◌};
ghost use Rattle.std.specs.List.{list_any};
ghost use Rattle.erim_defs.specs.Machine.MapCalls.{any_page, has_byte_on, is_pinned};
ghost use Rattle.erim_defs.specs.Machine.MapCalls.{is_denied_page, is_protected};
ghost use Rattle.map_calls.specs.Guards.{meets_span, pins};
ghost use Rattle.map_calls.specs.Ranges.{page_range};
ghost use Rattle.erim_defs.specs.Machine.Access.{rights_in};

use crate::range::UserRange;
use crate::walk::next_in;
use erim_defs::page::PAGE_SIZE;
use erim_defs::{Found, Span, Thread, Trust};
use page_store::{Memory, Pages};

/// Is the first byte of a page of the range in a range of addresses?
fn meets_span(range: &UserRange, span: &Span) -> bool
    ensures { result ≡ meets_span (page_range range.now) span.now }
{
    let end = span.start.saturating_add(span.length);
    range.meets(span.start.div_ceil(PAGE_SIZE), end.div_ceil(PAGE_SIZE))
}

/// Has the range a page of trusted text?
fn has_text(trust: &Trust, range: &UserRange) -> bool
    ensures { result ≡ list_any (meets_span (page_range range.now)) trust.now.texts }
{
    trust.texts().iter().any(|text| meets_span(range, text))
}

/// Has a page the key of a domain that isn't open?
fn is_denied_page<P: Pages>(pages: &P, trust: &Trust, pkru: u32, page: u64) -> bool
    ensures { result ≡ is_denied_page trust.now pkru (rights_in (P.seen pages.now) page) }
{
    match pages.rights(page) {
        Some(rights) => trust.is_denied(pkru, rights.key),
        None => false,
    }
}

/// Has the range a page of a domain that isn't open?
fn has_denied_page<P: Pages>(pages: &P, trust: &Trust, pkru: u32, range: &UserRange) -> bool
    ensures { result ≡ any_page (page_range range.now)
        (λ q. is_denied_page trust.now pkru (rights_in (P.seen pages.now) q)) }
{
    let mut from = range.first;
    while let Some(page) = next_in(pages, from, range.end()) {
        if is_denied_page(pages, trust, pkru, page) {
            return true;
        }
        from = page + 1;
    }
    false
}

/// Is the range protected from a caller with this PKRU?
pub(crate) fn is_protected<P: Pages>(pages: &P, trust: &Trust, pkru: u32, range: &UserRange) -> bool
    ensures { result ≡ is_protected trust.now (rights_in (P.seen pages.now)) pkru (page_range range.now) }
{
    has_text(trust, range) || has_denied_page(pages, trust, pkru, range)
}

/// Has the range a page with a byte of an origin?
fn meets_origin(range: &UserRange, origin: &Found) -> bool
    ensures { result ≡ any_page (page_range range.now) (has_byte_on (Some origin.now)) }
{
    let last = origin
        .at
        .saturating_add(u64::from(origin.len))
        .saturating_sub(1);
    range.meets(origin.at / PAGE_SIZE, last / PAGE_SIZE + 1)
}

/// Does a thread pin a page of the range?
fn pins(thread: &Thread, range: &UserRange) -> bool
    ensures { result ≡ pins (page_range range.now) thread.now }
{
    match thread.origin {
        Some(origin) => thread.live && meets_origin(range, &origin),
        None => false,
    }
}

/// Is a page of the range pinned?
pub(crate) fn has_pin(threads: &[Thread], range: &UserRange) -> bool
    ensures { result ≡ list_any (pins (page_range range.now)) threads.now }
{
    threads.iter().any(|thread| pins(thread, range))
}

/// Is the page pinned?
pub fn is_pinned(threads: &[Thread], page: u64) -> bool
    requires { page < 2 ^ 35 }
    ensures { result ≡ is_pinned threads.now page }
{
    has_pin(
        threads,
        &UserRange {
            first: page,
            count: 1,
        },
    )
}
