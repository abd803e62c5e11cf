//! Whether the bytes of a region lie elsewhere in the file too.

ghost use Rattle.std.specs.Prelude.{◌≡◌, ◌<◌, ◌^◌, count_by, nat_lt};
ghost use Rattle.std.specs.List.{list_any};
ghost use Rattle.erim_defs.specs.declared.elf.TheConstants.{PT_LOAD, PT_NOTE};
ghost use Rattle.erim_defs.specs.Inspection.Image.{headers, segments};
ghost use Rattle.erim_defs.specs.Rewriting.NewFile.{file_place, has_in_file, lies_elsewhere};
ghost use Rattle.erim_defs.specs.Rewriting.NewFile.{meets, meets_as};

use elf_image::{Header, Image};
use erim_defs::Segment;
use erim_defs::elf::{FILE_HEADER_SIZE, PT_LOAD, PT_NOTE};
use rewrite_sites::Region;

/// Does an address lie in the file part of an executable segment? Neither end is made.
fn has_in_file(a: u64, segment: &Segment) -> bool
    ensures { result ≡ has_in_file a segment.now }
{
    segment.is_executable() && segment.vaddr <= a && a - segment.vaddr < segment.filesz
}

/// The place in the file of an address of an executable segment.
pub fn file_place(image: &Image, a: u64) -> u64
    ensures place { result ≡ file_place (segments image.now) a }
    ensures low { result < 2 ^ 63 }
{
    // A place in the file is less than its length.
    let _file = image.bytes();
    for segment in image.segments() {
        if has_in_file(a, segment) {
            return segment.offset + (a - segment.vaddr);
        }
    }
    0
}

/// Has the file part of a segment a byte from a place up to another? Its end may pass 2^64, so it
/// isn't made.
fn meets(low: u64, high: u64, header: &Header) -> bool
    ensures { result ≡ meets low high header.now }
{
    let segment = header.segment();
    segment.filesz > 0
        && (low < segment.offset || low - segment.offset < segment.filesz)
        && segment.offset < high
}

/// Is a header of a kind, and has its file part a byte from a place up to another?
fn meets_as(kind: u32, low: u64, high: u64, header: &Header) -> bool
    ensures { result ≡ meets_as kind low high header.now }
{
    header.kind() == kind && meets(low, high, header)
}

/// Has a PT_NOTE a byte from a place up to another?
pub fn in_note(table: &[Header], low: u64, high: u64) -> bool
    ensures { result ≡ list_any (meets_as PT_NOTE low high) table.now }
{
    table.iter().any(|h| meets_as(PT_NOTE, low, high, h))
}

/// Have two PT_LOADs or more a byte from a place up to another?
fn in_other_part(table: &[Header], low: u64, high: u64) -> bool
    ensures { result ≡ nat_lt 1 (count_by (meets_as PT_LOAD low high) table.now) }
{
    table
        .iter()
        .filter(|h| meets_as(PT_LOAD, low, high, h))
        .count()
        > 1
}

/// Has the file header, a PT_NOTE or another PT_LOAD a byte of the region in the file?
#[tactic(auto, unfolding(erim_defs::specs::Rewriting::NewFile::lies_elsewhere))]
pub fn lies_elsewhere(image: &Image, table: &[Header], region: &Region<'_>) -> bool
    requires { table.now ≡ headers image.now }
    ensures { result ≡ lies_elsewhere image.now region.now }
{
    let low = file_place(image, region.start());
    let high = low + region.end().saturating_sub(region.start());
    low < FILE_HEADER_SIZE as u64 || in_note(table, low, high) || in_other_part(table, low, high)
}
