//! All notes of an image.

ghost use Rattle.std.specs.Prelude.{◌≡◌, ℕ, ◌+◌, ◌≤◌, ◌<◌, List, is_some, length, true};
ghost use Rattle.erim_defs.specs.Inspection.Image.{is_in_file, is_note_shaped, is_noted};
ghost use Rattle.elf_image.specs.Notes.{HasDesc, HasFunctionsOf, HasItems, HasNotes, HasTableOf};
ghost use Rattle.elf_image.specs.Notes.{Reads, ReadsAll, ReadsHeader, is_sound, see};
ghost use Rattle.elf_image.specs.Notes.{seen_domains, seen_functions, seen_records};
ghost use Rattle.elf_image.specs.Functions.{table_functions};
ghost use Rattle.elf_image.specs.Records.{table_records};
ghost use Rattle.elf_image.specs.Table.{HasTable};

use crate::field::header_count;
use crate::functions::FunctionTable;
use crate::header::Header;
use crate::note::{Note, is_whole, next_note};
use crate::records::RecordTable;
use erim_defs::ImageFault;

/// What is known of notes.
#[derive(Clone, Copy)]
pub(crate) struct NotesSeen {
    /// The records of the trust note.
    pub(crate) trust: Option<RecordTable>,
    /// The functions of the functions note.
    pub(crate) functions: Option<FunctionTable>,
    /// Has each of the two the version that is read?
    pub(crate) versioned: bool,
}

impl NotesSeen {
    /// The records of the trust note, or none.
    #[tactic(auto, unfolding(erim_defs::specs::Inspection::Image::records_from))]
    pub(crate) fn records(self) -> RecordTable
        ensures same { (bytes : List ℕ) →
            table_records bytes result ≡ seen_records bytes self.trust }
        ensures domains { result.has_domains ≡ seen_domains self.trust }
        ensures within { (bytes : List ℕ) → HasItems bytes self → HasTableOf bytes result }
    {
        self.trust.unwrap_or(RecordTable {
            place: 0,
            count: 0,
            has_domains: false,
        })
    }

    /// The functions of the functions note, or none.
    #[tactic(auto, unfolding(erim_defs::specs::Inspection::Image::functions_from))]
    pub(crate) fn functions(self) -> FunctionTable
        ensures same { (bytes : List ℕ) →
            table_functions bytes result ≡ seen_functions bytes self.functions }
        ensures within { (bytes : List ℕ) → HasItems bytes self → HasFunctionsOf bytes result }
    {
        self.functions
            .unwrap_or(FunctionTable { place: 0, count: 0 })
    }
}

/// Reads the notes of all headers, or finds their first fault.
pub(crate) fn read_notes(bytes: &[u8]) -> Result<NotesSeen, ImageFault>
    requires table { HasTable bytes.now }
    requires notes { HasNotes bytes.now }
    ensures { ReadsAll bytes.now result }
{
    let mut seen = NotesSeen {
        trust: None,
        functions: None,
        versioned: true,
    };
    for index in 0..header_count(bytes) {
        seen = read_header(bytes, &Header::read(bytes, index), seen)?;
    }
    Ok(seen)
}

// Reads the notes of one header.
#[tactic(auto, unfolding(crate::specs::Notes::see_all))]
fn read_header(bytes: &[u8], header: &Header, before: NotesSeen) -> Result<NotesSeen, ImageFault>
    requires within { is_noted header.now ≡ true →
        is_in_file (length bytes.now) header.now.segment ≡ true }
    requires items { HasItems bytes.now before }
    ensures { ReadsHeader bytes.now header.now before result }
{
    if !header.is_noted() {
        return Ok(before);
    }
    let segment = header.segment();
    read_between(
        bytes,
        segment.offset as usize,
        segment.filesz as usize,
        before,
    )
}

// Reads the notes in a given number of bytes from a place on. Each has 12 bytes at least, so as
// many steps as bytes are enough.
fn read_between(
    bytes: &[u8],
    start: usize,
    size: usize,
    before: NotesSeen,
) -> Result<NotesSeen, ImageFault>
    requires within { start + size ≤ length bytes.now }
    requires items { HasItems bytes.now before }
    ensures { Reads bytes.now size start before result }
{
    let end = start + size;
    let mut place = start;
    let mut seen = before;
    for _step in 0..size {
        if place >= end {
            return Ok(seen);
        }
        if !is_sound(bytes, place, end, seen) {
            let at = place as u64;
            return Err(ImageFault::NoteShape { at });
        }
        seen = see(bytes, &Note::read(bytes, place), seen);
        place = next_note(bytes, place, end);
    }
    Ok(seen)
}

// Is the note at a place whole and shaped, and no second one of its kind?
#[tactic(auto, unfolding(crate::specs::Notes::is_sound))]
fn is_sound(bytes: &[u8], place: usize, end: usize, seen: NotesSeen) -> bool
    requires order { place ≤ end }
    requires within { end ≤ length bytes.now }
    ensures { result ≡ is_sound bytes.now place end (is_some seen.trust)
        (is_some seen.functions) }
{
    if !is_whole(bytes, place, end) {
        return false;
    }
    let note = Note::read(bytes, place);
    note.is_note_shaped(bytes)
        && !(seen.trust.is_some() && note.is_trust())
        && !(seen.functions.is_some() && note.is_functions())
}

// What is known after one more note.
#[tactic(auto, unfolding(crate::specs::Notes::see))]
fn see(bytes: &[u8], note: &Note<'_>, seen: NotesSeen) -> NotesSeen
    requires within { HasDesc bytes.now note.now }
    requires shaped { is_note_shaped bytes.now note.now ≡ true }
    ensures { result ≡ see bytes.now seen note.now }
{
    let trust = match seen.trust {
        None if note.is_trust() => Some(note.table_of(bytes)),
        trust => trust,
    };
    let functions = match seen.functions {
        None if note.is_functions() => Some(note.functions_of(bytes)),
        functions => functions,
    };
    NotesSeen {
        trust,
        functions,
        versioned: seen.versioned && note.is_versioned(bytes),
    }
}
