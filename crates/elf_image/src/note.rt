//! Notes (ELF-64, "Note section"): the sizes of name and desc and the type, of 4 bytes each, then
//! name and desc, each padded to 4.

ghost use Rattle.std.specs.Prelude.{◌≡◌, ◌+◌, ◌≤◌, ◌<◌, ◌^◌, ◌&&◌, length, min, nat_le, true};
ghost use Rattle.erim_defs.specs.Inspection.Image.{is_counted, is_functions, is_note_shaped};
ghost use Rattle.erim_defs.specs.Inspection.Image.{is_trust, is_versioned, item_count, next_note};
ghost use Rattle.erim_defs.specs.Inspection.Image.{note_at, note_end, number_at, padded_size};
ghost use Rattle.elf_image.specs.Notes.{HasDesc, HasNote, functions_of, table_of};

use crate::functions::FunctionTable;
use crate::records::RecordTable;
use erim_defs::elf::{N_DESCSZ, N_TYPE, NOTE_HEADER_SIZE};
use erim_defs::field::u32_at;
use erim_defs::limits::{MOST_FUNCTIONS, MOST_RECORDS};
use erim_defs::note::{
    DOMAINS_VERSION, FUNCTION_SIZE, FUNCTIONS_NOTE, NOTE_COUNT, NOTE_ITEMS, NOTE_VERSION,
    RECORD_SIZE, TRUST_NOTE,
};
use std::marker::Model;

// Names end with a zero.
const TRUST_NAME: [u8; 5] = *b"ERIM\0";

const FUNCTIONS_NAME: [u8; 6] = *b"ERIMF\0";

fn padded_size(size: u32) -> u64
    ensures { result ≡ padded_size size }
{
    (u64::from(size) + 3) / 4 * 4
}

// How many bytes name and desc take. A desc without bytes ends with the name.
fn parts_size(bytes: &[u8], place: usize) -> u64
    requires { place + 12 ≤ length bytes.now }
    ensures { place + 12 + result ≡ note_end bytes.now place }
{
    let name_size = u32_at(bytes, place);
    let desc_size = u32_at(bytes, place + N_DESCSZ);
    if desc_size == 0 {
        u64::from(name_size)
    } else {
        padded_size(name_size) + u64::from(desc_size)
    }
}

// Does the note at a place end before the last place? The sum of place and sizes may pass 2^64.
pub(crate) fn is_whole(bytes: &[u8], place: usize, end: usize) -> bool
    requires order { place ≤ end }
    requires within { end ≤ length bytes.now }
    ensures { result ≡ (nat_le (place + 12) end && nat_le (note_end bytes.now place) end) }
{
    end - place >= NOTE_HEADER_SIZE
        && parts_size(bytes, place) <= (end - place - NOTE_HEADER_SIZE) as u64
}

// Where the next note begins, or the last place where it would begin after it.
pub(crate) fn next_note(bytes: &[u8], place: usize, end: usize) -> usize
    requires header { place + 12 ≤ end }
    requires within { end ≤ length bytes.now }
    ensures { result ≡ min (next_note bytes.now place) end }
{
    let size = padded_size(u32_at(bytes, place)) + padded_size(u32_at(bytes, place + N_DESCSZ));
    if size < (end - place - NOTE_HEADER_SIZE) as u64 {
        place + NOTE_HEADER_SIZE + size as usize
    } else {
        end
    }
}

/// A note that lies in the bytes as a whole.
#[derive(Drop)]
pub(crate) struct Note<'a> {
    place: usize,
    name: &'a [u8],
    kind: u32,
    desc: usize,
    size: u32,
}

impl<'a> Model for Note<'a> {
    ghost use Rattle.erim_defs.specs.Inspection.Image.{Note as NoteValue};

    ghost Value = { NoteValue };

    ghost view = { λ note.
        record { place = note.place; name = note.name.now; kind = note.kind; desc = note.desc; size = note.size } };
}

impl<'a> Note<'a> {
    /// The note at a place.
    pub(crate) fn read(bytes: &'a [u8], place: usize) -> Note<'a>
        requires { HasNote bytes.now place }
        ensures value { result ≡ note_at bytes.now place }
        ensures within { HasDesc bytes.now result }
    {
        let start = place + NOTE_HEADER_SIZE;
        let name_size = u32_at(bytes, place);
        Note {
            place,
            name: &bytes[start..start + name_size as usize],
            kind: u32_at(bytes, place + N_TYPE),
            desc: start + padded_size(name_size) as usize,
            size: u32_at(bytes, place + N_DESCSZ),
        }
    }

    /// Is it a trust note?
    pub(crate) fn is_trust(&self) -> bool
        ensures { result ≡ is_trust self.now }
    {
        self.name == TRUST_NAME.as_slice() && self.kind == TRUST_NOTE
    }

    /// Is it a functions note?
    pub(crate) fn is_functions(&self) -> bool
        ensures { result ≡ is_functions self.now }
    {
        self.name == FUNCTIONS_NAME.as_slice() && self.kind == FUNCTIONS_NOTE
    }

    fn version(&self, bytes: &[u8]) -> u32
        requires { self.now.desc + 4 ≤ length bytes.now }
        ensures { result ≡ number_at bytes.now self.now.desc 4 }
    {
        u32_at(bytes, self.desc)
    }

    fn item_count(&self, bytes: &[u8]) -> u32
        requires { self.now.desc + 8 ≤ length bytes.now }
        ensures { result ≡ item_count bytes.now self.now }
    {
        u32_at(bytes, self.desc + NOTE_COUNT)
    }

    // Does the desc have as many items of this size as it counts, and no more than may be?
    fn is_counted(&self, bytes: &[u8], item_size: u64, most: u32) -> bool
        requires within { HasDesc bytes.now self.now }
        requires small { item_size < 2 ^ 16 }
        ensures { result ≡ is_counted bytes.now self.now item_size most }
    {
        let size = u64::from(self.size);
        if size < NOTE_ITEMS {
            return false;
        }
        let count = self.item_count(bytes);
        size == NOTE_ITEMS + item_size * u64::from(count) && count <= most
    }

    /// Is it shaped as its kind asks?
    pub(crate) fn is_note_shaped(&self, bytes: &[u8]) -> bool
        requires { HasDesc bytes.now self.now }
        ensures { result ≡ is_note_shaped bytes.now self.now }
    {
        if self.is_trust() {
            self.is_counted(bytes, RECORD_SIZE as u64, MOST_RECORDS)
        } else if self.is_functions() {
            self.is_counted(bytes, FUNCTION_SIZE as u64, MOST_FUNCTIONS)
        } else {
            true
        }
    }

    /// Has a functions note version 1, and a trust note 1 or 2?
    pub(crate) fn is_versioned(&self, bytes: &[u8]) -> bool
        requires within { HasDesc bytes.now self.now }
        requires shaped { is_note_shaped bytes.now self.now ≡ true }
        ensures { result ≡ is_versioned bytes.now self.now }
    {
        !(self.is_trust() || self.is_functions())
            || self.version(bytes) == NOTE_VERSION
            || (self.is_trust() && self.version(bytes) == DOMAINS_VERSION)
    }

    /// Where the records of a trust note stand.
    pub(crate) fn table_of(&self, bytes: &[u8]) -> RecordTable
        requires within { HasDesc bytes.now self.now }
        requires shaped { is_note_shaped bytes.now self.now ≡ true }
        requires trust { is_trust self.now ≡ true }
        ensures { result ≡ table_of bytes.now self.now }
    {
        RecordTable {
            place: self.desc + NOTE_ITEMS as usize,
            count: self.item_count(bytes),
            has_domains: self.version(bytes) == DOMAINS_VERSION,
        }
    }

    /// Where the functions of a functions note stand.
    pub(crate) fn functions_of(&self, bytes: &[u8]) -> FunctionTable
        requires within { HasDesc bytes.now self.now }
        requires shaped { is_note_shaped bytes.now self.now ≡ true }
        requires functions { is_functions self.now ≡ true }
        ensures { result ≡ functions_of bytes.now self.now }
    {
        FunctionTable {
            place: self.desc + NOTE_ITEMS as usize,
            count: self.item_count(bytes),
        }
    }
}
