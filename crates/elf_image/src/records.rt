//! The rows of faults of the trust note's records.

ghost use Rattle.std.specs.Prelude.{◌≡◌, ◌≤◌, []};
ghost use Rattle.std.specs.List.{list_any};
ghost use Rattle.erim_defs.specs.Inspection.Image.{data_fault, entry_fault, is_placed_data};
ghost use Rattle.erim_defs.specs.Inspection.Image.{is_new_mark, is_record, overlaps, record_fault};
ghost use Rattle.erim_defs.specs.Inspection.Image.{segments};
ghost use Rattle.erim_defs.specs.Inspection.Image.{text_fault};
ghost use Rattle.elf_image.specs.Notes.{HasTableOf};
ghost use Rattle.elf_image.specs.Records.{is_in_text, record_of, records_fault, seen_before};
ghost use Rattle.elf_image.specs.Records.{table_records};
ghost use Rattle.elf_image.specs.Table.{HasTable};

use crate::domains::marked_earlier;
use crate::pages::{Purpose, is_lying};
use crate::record::Record;
use erim_defs::ImageFault;
use erim_defs::note::{TRUSTED_DATA, TRUSTED_HEAP};

/// Where the records of a trust note stand, and how many.
#[derive(Clone, Copy)]
pub(crate) struct RecordTable {
    pub(crate) place: usize,
    pub(crate) count: u32,
    /// Has its note version 2?
    pub(crate) has_domains: bool,
}

/// The first fault of the records.
#[tactic(auto, unfolding(crate::specs::Records::records_fault))]
pub(crate) fn records_fault(bytes: &[u8], table: RecordTable) -> Option<ImageFault>
    requires headers { HasTable bytes.now }
    requires records { HasTableOf bytes.now table }
    ensures { result ≡ records_fault bytes.now table }
{
    record_fault(bytes, table)
        .or_else(|| text_fault(bytes, table))
        .or_else(|| data_fault(bytes, table))
        .or_else(|| entry_fault(bytes, table))
}

// The first record with a wrong kind, key, start or length, that overlaps with an earlier one, or
// that marks a key again.
#[tactic(auto, using(crate::proofs::RecordLemmas::record_steps))]
fn record_fault(bytes: &[u8], table: RecordTable) -> Option<ImageFault>
    requires { HasTableOf bytes.now table }
    ensures { result ≡ record_fault table.has_domains 0 [] (table_records bytes.now table) }
{
    for index in 0..table.count {
        let record = Record::read(bytes, table, index);
        if !is_record(bytes, table, index, &record) {
            return Some(ImageFault::BadRecord { index });
        }
    }
    None
}

// Is it a record that may stand after those before an index?
fn is_record(bytes: &[u8], table: RecordTable, index: u32, item: &Record) -> bool
    requires table { HasTableOf bytes.now table }
    requires index { index ≤ table.count }
    ensures { result ≡ is_record table.has_domains (seen_before bytes.now table index) item.now }
{
    if !item.is_keyed(table.has_domains) {
        return false;
    }
    if item.is_entry_record() {
        return item.length() == 0;
    }
    if item.is_mark() {
        return table.has_domains && is_new_mark(bytes, table, index, item);
    }
    item.is_range() && item.is_paged() && !overlaps_earlier(bytes, table, index, item)
}

// Has a mark no range, and is it the first of its key?
fn is_new_mark(bytes: &[u8], table: RecordTable, index: u32, item: &Record) -> bool
    requires table { HasTableOf bytes.now table }
    requires index { index ≤ table.count }
    ensures { result ≡ is_new_mark (seen_before bytes.now table index) item.now }
{
    item.start() == 0 && item.length() == 0 && !marked_earlier(bytes, table, index, item.key())
}

// Does it overlap with a range of the records before an index?
#[tactic(auto, using(crate::proofs::RecordLemmas::overlaps_steps))]
fn overlaps_earlier(bytes: &[u8], table: RecordTable, index: u32, item: &Record) -> bool
    requires table { HasTableOf bytes.now table }
    requires index { index ≤ table.count }
    ensures { result ≡ list_any (overlaps item.now) (seen_before bytes.now table index) }
{
    let mut overlaps = false;
    for earlier in 0..index {
        overlaps = item.overlaps(&Record::read(bytes, table, earlier)) || overlaps;
    }
    overlaps
}

// The first trusted text outside of segments that are executable and not writable.
#[tactic(auto, using(crate::proofs::RecordLemmas::text_steps))]
fn text_fault(bytes: &[u8], table: RecordTable) -> Option<ImageFault>
    requires headers { HasTable bytes.now }
    requires records { HasTableOf bytes.now table }
    ensures { result ≡ text_fault 0 (segments bytes.now) [] (table_records bytes.now table) }
{
    for index in 0..table.count {
        let record = Record::read(bytes, table, index);
        if record.is_text() && !is_lying(bytes, Purpose::Text, &record) {
            return Some(ImageFault::TextNotExec { index });
        }
    }
    None
}

// The first trusted data or heap outside of segments that may hold it.
#[tactic(auto, using(crate::proofs::RecordLemmas::data_steps))]
fn data_fault(bytes: &[u8], table: RecordTable) -> Option<ImageFault>
    requires headers { HasTable bytes.now }
    requires records { HasTableOf bytes.now table }
    ensures { result ≡ data_fault 0 (segments bytes.now) [] (table_records bytes.now table) }
{
    for index in 0..table.count {
        if !is_placed_data(bytes, &Record::read(bytes, table, index)) {
            return Some(ImageFault::DataRange { index });
        }
    }
    None
}

// Does trusted data or a heap lie where it may?
#[tactic(auto, unfolding(crate::specs::Records::is_lying))]
fn is_placed_data(bytes: &[u8], item: &Record) -> bool
    requires { HasTable bytes.now }
    ensures { result ≡ is_placed_data (segments bytes.now) item.now }
{
    match item.kind() {
        TRUSTED_DATA => is_lying(bytes, Purpose::Data, item),
        TRUSTED_HEAP => is_lying(bytes, Purpose::Heap, item),
        _ => true,
    }
}

// The first entry outside of the text of its key.
#[tactic(auto, using(crate::proofs::RecordLemmas::entry_steps))]
fn entry_fault(bytes: &[u8], table: RecordTable) -> Option<ImageFault>
    requires { HasTableOf bytes.now table }
    ensures { result ≡ entry_fault 0 (table_records bytes.now table) []
        (table_records bytes.now table) }
{
    for index in 0..table.count {
        let record = Record::read(bytes, table, index);
        if record.is_entry_record() && !is_in_text(bytes, table, &record) {
            return Some(ImageFault::EntryNotTrusted { index });
        }
    }
    None
}

// Does the entry lie in a text of its key?
#[tactic(auto, using(crate::proofs::RecordLemmas::in_text_steps))]
fn is_in_text(bytes: &[u8], table: RecordTable, entry: &Record) -> bool
    requires { HasTableOf bytes.now table }
    ensures { result ≡ is_in_text entry.now (table_records bytes.now table) }
{
    for index in 0..table.count {
        if Record::read(bytes, table, index).holds_entry(entry) {
            return true;
        }
    }
    false
}
