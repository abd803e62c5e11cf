//! The rows of faults of the program headers and segments.

ghost use Rattle.std.specs.Prelude.{◌≡◌, ◌≤◌, [], length};
ghost use Rattle.std.specs.List.{list_any};
ghost use Rattle.erim_defs.specs.Inspection.Image.{header_count, headers, range_fault};
ghost use Rattle.erim_defs.specs.Inspection.Image.{segment_fault, shared_fault, shares_page};
ghost use Rattle.erim_defs.specs.Inspection.Image.{static_fault};
ghost use Rattle.elf_image.specs.Table.{HasTable, seen_segments};

use crate::field::header_count;
use crate::header::Header;
use erim_defs::{ImageFault, Segment};

/// The first fault of the program headers and segments.
#[tactic(auto, unfolding(erim_defs::specs::Inspection::Image::segment_fault))]
pub(crate) fn segment_fault(bytes: &[u8]) -> Option<ImageFault>
    requires { HasTable bytes.now }
    ensures { result ≡ segment_fault bytes.now }
{
    static_fault(bytes)
        .or_else(|| range_fault(bytes))
        .or_else(|| shared_fault(bytes))
}

// The first header that asks for what a static program has not.
#[tactic(auto, using(crate::proofs::TableLemmas::static_steps))]
fn static_fault(bytes: &[u8]) -> Option<ImageFault>
    requires { HasTable bytes.now }
    ensures { result ≡ static_fault 0 [] (headers bytes.now) }
{
    for index in 0..header_count(bytes) {
        if Header::read(bytes, index).is_dynamic() {
            return Some(ImageFault::NotStatic { index });
        }
    }
    None
}

// The first segment or note that lies where it may not.
#[tactic(auto, using(crate::proofs::TableLemmas::range_steps))]
fn range_fault(bytes: &[u8]) -> Option<ImageFault>
    requires { HasTable bytes.now }
    ensures { result ≡ range_fault (length bytes.now) 0 [] (headers bytes.now) }
{
    let mut pages = 0;
    for index in 0..header_count(bytes) {
        let header = Header::read(bytes, index);
        if !header.is_ranged(bytes.len() as u64, pages) {
            return Some(ImageFault::SegmentRange { index });
        }
        pages += header.header_pages();
    }
    None
}

// The first segment that touches a page of an earlier one.
#[tactic(auto, using(crate::proofs::TableLemmas::shared_steps))]
fn shared_fault(bytes: &[u8]) -> Option<ImageFault>
    requires { HasTable bytes.now }
    ensures { result ≡ shared_fault 0 [] (headers bytes.now) }
{
    for index in 0..header_count(bytes) {
        let header = Header::read(bytes, index);
        if header.is_loadable() && shares_earlier(bytes, index, &header.segment()) {
            return Some(ImageFault::SharedPage { index });
        }
    }
    None
}

// Does the segment share a page with one of the headers before an index?
#[tactic(auto, using(crate::proofs::TableLemmas::shares_steps))]
fn shares_earlier(bytes: &[u8], index: u32, segment: &Segment) -> bool
    requires table { HasTable bytes.now }
    requires index { index ≤ header_count bytes.now }
    ensures { result ≡ list_any (shares_page segment.now) (seen_segments bytes.now index) }
{
    let mut shares = false;
    for earlier in 0..index {
        let header = Header::read(bytes, earlier);
        shares = (header.is_loadable() && segment.shares_page(&header.segment())) || shares;
    }
    shares
}
