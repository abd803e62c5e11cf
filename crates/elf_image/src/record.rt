//! A record of the trust note: its kind and its key of 4 bytes each, then start and length of 8.

ghost use Rattle.std.specs.Prelude.{◌≡◌, ◌+◌, ◌%◌, ◌^◌, ◌<◌, ◌==◌, ◌&&◌, nat_le, nat_lt};
ghost use Rattle.erim_defs.specs.Inspection.Image.{holds_entry, is_entry_record, is_keyed_record};
ghost use Rattle.erim_defs.specs.Inspection.Image.{is_mark, is_range, is_text, marks, overlaps};
ghost use Rattle.erim_defs.specs.Inspection.Image.{span_of};
ghost use Rattle.elf_image.specs.Notes.{HasTableOf};
ghost use Rattle.elf_image.specs.Records.{record_of};

use crate::records::RecordTable;
use erim_defs::Span;
use erim_defs::field::{u32_at, u64_at};
use erim_defs::note::{
    INTEGRITY_DOMAIN, MOST_DOMAINS, RECORD_KEY, RECORD_LENGTH, RECORD_SIZE, RECORD_START,
    TRUSTED_DATA, TRUSTED_ENTRY, TRUSTED_HEAP, TRUSTED_TEXT,
};
use erim_defs::page::{PAGE_SIZE, TRUSTED_KEY, USER_END};
use std::marker::Model;

/// A record of the trust note.
#[derive(Drop)]
pub(crate) struct Record {
    kind: u32,
    key: u32,
    start: u64,
    length: u64,
}

impl Model for Record {
    ghost use Rattle.erim_defs.specs.Inspection.Image.{Record as RecordValue};

    ghost Value = { RecordValue };

    ghost view = { λ fields.
        record { kind = fields.kind; key = fields.key; start = fields.start; length = fields.length } };
}

impl Record {
    /// The record of a number.
    #[tactic(auto, unfolding(crate::specs::Records::record_of))]
    pub(crate) fn read(bytes: &[u8], table: RecordTable, index: u32) -> Record
        requires table { HasTableOf bytes.now table }
        requires index { index < table.count }
        ensures { result ≡ record_of bytes.now table index }
    {
        let place = table.place + RECORD_SIZE * index as usize;
        Record {
            kind: u32_at(bytes, place),
            key: u32_at(bytes, place + RECORD_KEY),
            start: u64_at(bytes, place + RECORD_START),
            length: u64_at(bytes, place + RECORD_LENGTH),
        }
    }

    pub(crate) fn kind(&self) -> u32
        ensures { result ≡ self.now.kind }
    {
        self.kind
    }

    pub(crate) fn key(&self) -> u32
        ensures { result ≡ self.now.key }
    {
        self.key
    }

    pub(crate) fn start(&self) -> u64
        ensures { result ≡ self.now.start }
    {
        self.start
    }

    pub(crate) fn length(&self) -> u64
        ensures { result ≡ self.now.length }
    {
        self.length
    }

    pub(crate) fn span_of(&self) -> Span
        ensures { result ≡ span_of self.now }
    {
        Span {
            start: self.start,
            length: self.length,
        }
    }

    /// Does it have a key that its kind may have? Domains say whether its note has version 2.
    pub(crate) fn is_keyed(&self, domains: bool) -> bool
        ensures { result ≡ is_keyed_record domains self.now }
    {
        self.key == u32::from(TRUSTED_KEY)
            || (domains && self.kind != TRUSTED_HEAP && self.key > 0 && self.key <= MOST_DOMAINS)
    }

    /// Does it say trusted text?
    pub(crate) fn is_text(&self) -> bool
        ensures { result ≡ is_text self.now }
    {
        self.kind == TRUSTED_TEXT
    }

    /// Does it say an entry?
    pub(crate) fn is_entry_record(&self) -> bool
        ensures { result ≡ is_entry_record self.now }
    {
        self.kind == TRUSTED_ENTRY
    }

    /// Does it mark an integrity domain?
    pub(crate) fn is_mark(&self) -> bool
        ensures { result ≡ is_mark self.now }
    {
        self.kind == INTEGRITY_DOMAIN
    }

    /// Does it mark this key as an integrity domain?
    pub(crate) fn marks(&self, key: u32) -> bool
        ensures { result ≡ marks key self.now }
    {
        self.is_mark() && self.key == key
    }

    /// Does it say text, data or a heap?
    pub(crate) fn is_range(&self) -> bool
        ensures { result ≡ is_range self.now }
    {
        self.is_text() || self.kind == TRUSTED_DATA || self.kind == TRUSTED_HEAP
    }

    /// Is it made of whole pages of user memory?
    pub(crate) fn is_paged(&self) -> bool
        ensures { result ≡ (self.now.start % 4096 == 0 && (self.now.length % 4096 == 0
            && (nat_lt 0 self.now.length && nat_le (self.now.start + self.now.length) (2 ^ 47)))) }
    {
        self.start % PAGE_SIZE == 0
            && self.length % PAGE_SIZE == 0
            && self.length > 0
            && self.length <= USER_END
            && self.start <= USER_END - self.length
    }

    /// Does it overlap with a range of another record?
    pub(crate) fn overlaps(&self, other: &Record) -> bool
        ensures { result ≡ overlaps self.now other.now }
    {
        other.is_range()
            && is_below_end(self.start, other.start, other.length)
            && is_below_end(other.start, self.start, self.length)
    }

    /// Is it the text, of the entry's key, that holds the entry?
    pub(crate) fn holds_entry(&self, entry: &Record) -> bool
        ensures { result ≡ holds_entry entry.now self.now }
    {
        self.is_text()
            && self.key == entry.key
            && self.start <= entry.start
            && is_below_end(entry.start, self.start, self.length)
    }
}

// Is the address below the end of a range? The end may pass 2^64.
fn is_below_end(address: u64, start: u64, length: u64) -> bool
    ensures { result ≡ nat_lt address (start + length) }
{
    address < start || address - start < length
}
