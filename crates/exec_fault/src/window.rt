//! The code near a page: what is published of the pages beside it, and the page itself.

ghost use Rattle.std.specs.Prelude.{◌≡◌, ◌+◌, ◌*◌, ◌<◌, ◌≤◌, ◌^◌, ◌&&◌, ℕ, slice_index, nat_lt};
ghost use Rattle.std.specs.Prelude.{true};
ghost use Rattle.std.specs.Prelude.{◌-◌};
ghost use Rattle.erim_defs.specs.Machine.Pages.{is_published};
ghost use Rattle.erim_defs.specs.Machine.Access.{rights_in};
ghost use Rattle.exec_fault.specs.Verdicts.{HoldsPages, window_base, window_end, window_from};
ghost use Rattle.exec_fault.specs.Verdicts.{window_start};

use erim_defs::page::PAGE_SIZE;
use page_store::{Memory, PageCopy, Pages};

/// How many bytes a window has: those of three pages.
pub(crate) const WINDOW_SIZE: usize = 12288;

/// Is the page published?
pub(crate) fn is_published<P: Pages>(pages: &P, page: u64) -> bool
    ensures { result ≡ is_published (rights_in (P.seen pages.now) page) }
{
    match pages.rights(page) {
        Some(rights) => rights.exec,
        None => false,
    }
}

/// Is the page before one published? Before page 0 there is none.
pub(crate) fn is_published_before<P: Pages>(pages: &P, page: u64) -> bool
    ensures { result ≡ (nat_lt 0 page && is_published (rights_in (P.seen pages.now) (page - 1))) }
{
    page > 0 && is_published(pages, page - 1)
}

/// Where the code of a window begins in it: with the page before, or with the page.
pub(crate) fn window_start(before: bool) -> usize
    ensures start { result ≡ window_start before }
    ensures low { result ≤ 4096 }
{
    if before { 0 } else { 4096 }
}

/// Where it ends: with the page after, or with the page.
pub(crate) fn window_end(behind: bool) -> usize
    ensures end { result ≡ window_end behind }
    ensures low { 8192 ≤ result }
    ensures high { result ≤ 12288 }
{
    if behind { WINDOW_SIZE } else { 8192 }
}

/// The address of its first byte.
pub(crate) fn window_base(page: u64, before: bool) -> u64
    requires low { page < 2 ^ 35 }
    requires some { before ≡ true → 0 < page }
    ensures { result ≡ window_base page before }
{
    if before {
        PAGE_SIZE * page - PAGE_SIZE
    } else {
        PAGE_SIZE * page
    }
}

/// From where on it is scanned: a sequence that the page may make unsafe, with its check, begins at
/// most 64 bytes before the page.
pub(crate) fn window_from(before: bool) -> usize
    ensures { result ≡ window_from before }
{
    if before { 4096 - 64 } else { 0 }
}

/// Copies a page to a place of the window.
fn copy_in<P: Pages>(pages: &P, page: u64, into: &mut [u8; WINDOW_SIZE], place: usize)
    requires { place + 4096 ≤ 12288 }
    ensures inside { (i : ℕ) → i < 4096
        → slice_index into.new (place + i) ≡ P.bytes pages.now (4096 * page + i) }
    ensures before { (i : ℕ) → i < place → slice_index into.new i ≡ slice_index into.old i }
    ensures behind { (i : ℕ) → place + 4096 ≤ i → slice_index into.new i ≡ slice_index into.old i }
{
    let mut copy = PageCopy {
        page,
        rights: None,
        bytes: [0; 4096],
    };
    pages.copy_page(page, &mut copy);
    into[place..place + 4096].copy_from_slice(&copy.bytes);
}

/// Lays out a page between the one before it and the one after it. Before page 0 stands page 0.
pub(crate) fn lay_window<P: Pages>(pages: &P, page: u64, into: &mut [u8; WINDOW_SIZE])
    requires { page < 2 ^ 35 }
    ensures { HoldsPages into.new (P.bytes pages.now) page }
{
    copy_in(pages, page.saturating_sub(1), into, 0);
    copy_in(pages, page, into, 4096);
    copy_in(pages, page + 1, into, 8192);
}
