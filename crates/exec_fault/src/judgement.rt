//! The verdict on a page, and its publication.

ghost use Rattle.std.specs.Prelude.{◌≡◌, ◌<◌, ◌^◌};
ghost use Rattle.erim_defs.specs.Inspection.Unsafe.{first_unsafe};
ghost use Rattle.erim_defs.specs.Machine.Access.{whole};
ghost use Rattle.erim_defs.specs.Machine.Isolation.{IsSafeCode};
ghost use Rattle.erim_defs.specs.Machine.Pages.{code_with, published_code, with_value_at};
ghost use Rattle.erim_defs.specs.Machine.Access.{rights_in};
ghost use Rattle.exec_fault.specs.Verdicts.{on_page, published_page, taken_back_page, verdict_of};

use crate::answer::Verdict;
use crate::window::{
    WINDOW_SIZE, is_published, is_published_before, lay_window, window_base, window_end,
    window_from, window_start,
};
use erim_defs::page::PAGE_SIZE;
use erim_defs::{Found, Trust};
use page_store::{Memory, Pages};
use safe_occurrence::next_unsafe;

/// The first unsafe sequence from before a page on that the code near the page shows. The published
/// code itself is safe, so one on the page is the first of all with the page, and one after is
/// none.
fn first_near<P: Pages>(pages: &P, page: u64, trust: &Trust) -> Option<Found>
    requires low { page < 2 ^ 35 }
    requires safe { IsSafeCode trust.now
        (published_code (rights_in (P.seen pages.now)) (P.bytes pages.now)) }
    ensures { on_page page result ≡ first_unsafe trust.now
        (code_with (rights_in (P.seen pages.now)) (P.bytes pages.now) page) }
{
    let mut window = [0; WINDOW_SIZE];
    lay_window(pages, page, &mut window);
    let before = is_published_before(pages, page);
    let behind = is_published(pages, page + 1);
    let code = &window[window_start(before)..window_end(behind)];
    next_unsafe(code, window_base(page, before), window_from(before), trust)
}

/// Is anything unsafe in the published code with this page? The published code itself is safe.
pub fn verdict<P: Pages>(pages: &P, page: u64, trust: &Trust) -> Verdict
    requires low { page < 2 ^ 35 }
    requires safe { IsSafeCode trust.now
        (published_code (rights_in (P.seen pages.now)) (P.bytes pages.now)) }
    ensures { result ≡ verdict_of (first_unsafe trust.now
        (code_with (rights_in (P.seen pages.now)) (P.bytes pages.now) page)) }
{
    match first_near(pages, page, trust) {
        Some(found) if found.at < PAGE_SIZE * page + PAGE_SIZE => Verdict::Refuse { found },
        _ => Verdict::Publish,
    }
}

/// Publishes a page, where it is mapped: it can be fetched, and isn't writable.
pub fn publish<P: Pages>(pages: &mut P, page: u64)
    ensures seen { P.seen pages.new ≡ whole (with_value_at (rights_in (P.seen pages.old)) page
        (published_page (rights_in (P.seen pages.old) page))) }
    ensures bytes { P.bytes pages.new ≡ P.bytes pages.old }
    ensures frames { P.frames pages.new ≡ P.frames pages.old }
{
    if let Some(rights) = pages.rights(page) {
        pages.set_rights(page, rights.published_rights());
    }
}

/// Takes the publication of a page back, where it is mapped: it can be written, and not fetched.
pub fn take_back<P: Pages>(pages: &mut P, page: u64)
    ensures seen { P.seen pages.new ≡ whole (with_value_at (rights_in (P.seen pages.old)) page
        (taken_back_page (rights_in (P.seen pages.old) page))) }
    ensures bytes { P.bytes pages.new ≡ P.bytes pages.old }
    ensures frames { P.frames pages.new ≡ P.frames pages.old }
{
    if let Some(rights) = pages.rights(page) {
        pages.set_rights(page, rights.taken_back_rights());
    }
}
