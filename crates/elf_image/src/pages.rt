//! The pages that segments hold.

ghost use Rattle.std.specs.Prelude.{◌≡◌, ◌&&◌, is_some};
ghost use Rattle.erim_defs.specs.Inspection.Image.{is_loadable, segments, touches};
ghost use Rattle.elf_image.specs.Records.{is_held, is_lying, serves};
ghost use Rattle.elf_image.specs.Table.{HasTable};

use crate::field::header_count;
use crate::header::Header;
use crate::record::Record;
use erim_defs::Segment;
use erim_defs::page::PAGE_SIZE;

/// What a page is used for.
#[derive(Clone, Copy)]
pub(crate) enum Purpose {
    /// To be executed.
    Execution,
    /// To hold trusted text, which is executable and not writable.
    Text,
    /// To hold trusted data, which isn't executable.
    Data,
    /// To hold a trusted heap, which is writable too.
    Heap,
}

fn serves(purpose: Purpose, segment: &Segment) -> bool
    ensures { result ≡ serves purpose segment.now }
{
    match purpose {
        Purpose::Execution => segment.is_executable(),
        Purpose::Text => segment.is_executable() && !segment.is_writable(),
        Purpose::Data => !segment.is_executable(),
        Purpose::Heap => !segment.is_executable() && segment.is_writable(),
    }
}

/// Does the page belong to a segment that serves the purpose?
pub(crate) fn is_held(bytes: &[u8], purpose: Purpose, page: u64) -> bool
    requires { HasTable bytes.now }
    ensures { result ≡ is_held purpose (segments bytes.now) page }
{
    holder(bytes, purpose, page, 0).is_some()
}

// A header to whose segment the page belongs, and which serves the purpose. Pages of a range follow
// each other, so the header that held the one before is asked first.
#[tactic(auto, using(crate::proofs::PageLemmas::held_steps))]
fn holder(bytes: &[u8], purpose: Purpose, page: u64, near: u32) -> Option<u32>
    requires { HasTable bytes.now }
    ensures { is_some result ≡ is_held purpose (segments bytes.now) page }
{
    if near < header_count(bytes) && holds(&Header::read(bytes, near), purpose, page) {
        return Some(near);
    }
    for index in 0..header_count(bytes) {
        if holds(&Header::read(bytes, index), purpose, page) {
            return Some(index);
        }
    }
    None
}

// Does the page belong to the segment of a header, and does it serve the purpose?
fn holds(header: &Header, purpose: Purpose, page: u64) -> bool
    ensures { result ≡ (is_loadable header.now
        && (serves purpose header.now.segment && touches header.now.segment page)) }
{
    let segment = header.segment();
    header.is_loadable() && serves(purpose, &segment) && segment.touches(page)
}

/// Do all pages of the record's range belong to segments that serve the purpose? Its range may be
/// huge, and the first page that doesn't settles the answer.
#[tactic(auto, using(crate::proofs::PageLemmas::lying_steps))]
pub(crate) fn is_lying(bytes: &[u8], purpose: Purpose, item: &Record) -> bool
    requires { HasTable bytes.now }
    ensures { result ≡ is_lying purpose (segments bytes.now) item.now }
{
    let first = item.start() / PAGE_SIZE;
    let end = first + item.length() / PAGE_SIZE;
    let mut near = 0;
    for page in first..end {
        match holder(bytes, purpose, page, near) {
            Some(header) => near = header,
            None => return false,
        }
    }
    true
}
