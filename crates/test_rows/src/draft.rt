//! An image to be laid out, as the lines of a row give it.

ghost use Rattle.std.specs.Prelude.{◌≤◌, ◌*◌, length, IfOk};
ghost use Rattle.image_gen.specs.Parts.{total_bytes};

use crate::fault::RowFault;
use crate::words::{decimal, number, one_number, push_bytes, two_numbers, word};
use erim_defs::Span;
use erim_defs::limits::{MOST_FUNCTIONS, MOST_RECORDS};
use erim_defs::note::{
    INTEGRITY_DOMAIN, NOTE_VERSION, RECORD_SIZE, TRUSTED_DATA, TRUSTED_ENTRY, TRUSTED_HEAP,
    TRUSTED_TEXT,
};
use erim_defs::page::PAGE_SIZE;
use image_gen::{Mark, Part, lay_image};
use std::alloc::Global;

/// How many bytes a segment may have in the file.
const PART_LIMIT: usize = 65_536;

/// What the trust note begins with after its sizes and type: the name, filled up.
const TRUST_NAME: [u8; 8] = [b'E', b'R', b'I', b'M', 0, 0, 0, 0];

/// An image to be laid out.
#[derive(Drop)]
pub struct Draft {
    parts: Vec<Part>,
    marks: Vec<Mark>,
    keys: Vec<u32>,
    functions: Vec<Span>,
    version: u32,
    entry: u64,
}

impl Draft {
    /// An image without segments and records, which starts at 0x401000.
    pub fn new(alloc: Global) -> Draft {
        Draft {
            parts: Vec::new(alloc),
            marks: Vec::new(alloc),
            keys: Vec::new(alloc),
            functions: Vec::new(alloc),
            version: NOTE_VERSION,
            entry: 0x401000,
        }
    }

    /// Is there a segment?
    pub fn has_parts(&self) -> bool {
        !self.parts.is_empty()
    }

    /// Takes a line of an image, or answers that it is none.
    pub fn take(&mut self, alloc: Global, name: &str, rest: &str) -> Result<bool, RowFault> {
        match name {
            "page" => self.push_part(alloc, rest, false)?,
            "pages" => self.push_part(alloc, rest, true)?,
            "more" => self.push_more(alloc, rest)?,
            "text" => self.push_keyed(TRUSTED_TEXT, rest)?,
            "data" => self.push_keyed(TRUSTED_DATA, rest)?,
            "entry" => self.push_short(TRUSTED_ENTRY, rest)?,
            "heap" => self.push_keyed(TRUSTED_HEAP, rest)?,
            "mark" => self.push_short(INTEGRITY_DOMAIN, rest)?,
            "record" => self.push_record(rest)?,
            "function" => self.push_function(rest)?,
            "version" => self.version = required(decimal(rest))?,
            "start" => self.entry = required(one_number(rest))?,
            _ => return Ok(false),
        }
        Ok(true)
    }

    /// A segment: its address and flags, with a number of pages where it has more than one, and the
    /// bytes at its start.
    fn push_part(&mut self, alloc: Global, rest: &str, has_count: bool) -> Result<(), RowFault> {
        let Some((vaddr, rest)) = number(rest) else {
            return Err(RowFault::Shape("no address"));
        };
        let (letters, rest) = word(rest);
        let flags = flags_of(letters)?;
        let (count, rest) = if has_count { word(rest) } else { ("1", rest) };
        let Some(count) = decimal(count) else {
            return Err(RowFault::Shape("no number of pages"));
        };
        let memsz = u64::from(count) * PAGE_SIZE;
        let mut bytes = Vec::new(alloc);
        push_bytes(alloc, &mut bytes, rest)?;
        let part = Part {
            vaddr,
            flags,
            bytes,
            memsz,
        };
        Ok(self.parts.push(part)?)
    }

    /// Goes on with the bytes of the last segment.
    fn push_more(&mut self, alloc: Global, rest: &str) -> Result<(), RowFault> {
        match self.parts.last_mut() {
            Some(part) => push_bytes(alloc, &mut part.bytes, rest),
            None => Err(RowFault::Shape("no segment before")),
        }
    }

    /// Goes on with these bytes in the last segment.
    pub fn extend_last(&mut self, bytes: &[u8]) -> Result<(), RowFault> {
        match self.parts.last_mut() {
            Some(part) => Ok(part.bytes.extend_from_slice(bytes)?),
            None => Err(RowFault::Shape("no segment before")),
        }
    }

    /// A record of a range: its key, start and length; or as many as `*COUNT` says, each from the
    /// end of the one before on.
    fn push_keyed(&mut self, kind: u32, rest: &str) -> Result<(), RowFault> {
        let Some((key, rest)) = number(rest) else {
            return Err(RowFault::Shape("no key"));
        };
        let Some((mut start, length, rest)) = two_numbers(rest) else {
            return Err(RowFault::Shape("no range"));
        };
        for _record in 0..required(count_of(rest))? {
            self.push_mark(kind, key, start, length)?;
            start = start.saturating_add(length);
        }
        Ok(())
    }

    /// A record of length 0: its key, and its start where it has one.
    fn push_short(&mut self, kind: u32, rest: &str) -> Result<(), RowFault> {
        match number(rest) {
            Some((key, "")) if kind == INTEGRITY_DOMAIN => self.push_mark(kind, key, 0, 0),
            Some((key, start)) if kind == TRUSTED_ENTRY => {
                self.push_mark(kind, key, required(one_number(start))?, 0)
            }
            _ => Err(RowFault::Shape("another number of numbers")),
        }
    }

    /// Any record: its kind, key, start and length.
    fn push_record(&mut self, rest: &str) -> Result<(), RowFault> {
        let Some((kind, rest)) = number(rest) else {
            return Err(RowFault::Shape("no kind"));
        };
        self.push_keyed(low_of(kind)?, rest)
    }

    fn push_mark(&mut self, kind: u32, key: u64, start: u64, length: u64) -> Result<(), RowFault> {
        let key = low_of(key)?;
        self.marks.push(Mark {
            kind,
            start,
            length,
        })?;
        Ok(self.keys.push(key)?)
    }

    /// A function: its start and length; or as many as `*COUNT` says, one after the other.
    fn push_function(&mut self, rest: &str) -> Result<(), RowFault> {
        let Some((mut start, length, rest)) = two_numbers(rest) else {
            return Err(RowFault::Shape("no function"));
        };
        for _function in 0..required(count_of(rest))? {
            self.functions.push(Span { start, length })?;
            start = start.saturating_add(length);
        }
        Ok(())
    }

    /// The bytes of the image: as `lay_image` lays it, with the trust note's version and keys set.
    pub fn lay(self, alloc: Global) -> Result<Vec<u8>, RowFault> {
        let Draft {
            parts,
            marks,
            keys,
            functions,
            version,
            entry,
        } = self;
        let parts = small_parts(alloc, parts)?;
        if marks.len() > MOST_RECORDS as usize || functions.len() > MOST_FUNCTIONS as usize {
            return Err(RowFault::Shape("too many records or functions"));
        }
        let mut bytes = lay_image(alloc, &parts, &marks, &functions, entry)?;
        if !marks.is_empty() {
            let place = trust_place(&bytes)?;
            set_note(&mut bytes, place, version, &keys)?;
        }
        Ok(bytes)
    }
}

/// The value, or the row's fault.
fn required<T>(value: Option<T>) -> Result<T, RowFault> {
    value.ok_or(RowFault::Shape("another number of numbers"))
}

/// The number in 32 bits.
fn low_of(number: u64) -> Result<u32, RowFault> {
    u32::try_from(number).map_err(|_| RowFault::Shape("a number above 32 bits"))
}

/// The count that a `*COUNT` says, 1 where the text is empty.
fn count_of(text: &str) -> Option<u32> {
    if text.is_empty() {
        Some(1)
    } else {
        decimal(text.strip_prefix('*')?)
    }
}

/// The flags of a segment, of letters `r`, `w` and `x`, or none for `-`.
fn flags_of(letters: &str) -> Result<u32, RowFault> {
    match letters {
        "-" => Ok(0),
        "x" => Ok(1),
        "w" => Ok(2),
        "wx" => Ok(3),
        "r" => Ok(4),
        "rx" => Ok(5),
        "rw" => Ok(6),
        "rwx" => Ok(7),
        _ => Err(RowFault::Shape("no flags")),
    }
}

/// The segments, where they are few and small enough to be laid.
fn small_parts(alloc: Global, given: Vec<Part>) -> Result<Vec<Part>, RowFault>
    ensures few { IfOk result (λ parts. length parts.items ≤ 63) }
    ensures small { IfOk result (λ parts. total_bytes parts.items ≤ 65536 * 63) }
{
    let mut parts = Vec::new(alloc);
    for part in given {
        if parts.len() >= 63 || part.bytes.len() > PART_LIMIT {
            return Err(RowFault::Shape("too many segments, or too long ones"));
        }
        parts.push(part)?;
    }
    Ok(parts)
}

/// The place of the trust note's version.
fn trust_place(bytes: &[u8]) -> Result<usize, RowFault> {
    let mut found = Err(RowFault::Shape("no trust note"));
    for (place, window) in bytes.windows(8).enumerate() {
        if window == TRUST_NAME.as_slice() {
            found = Ok(place.saturating_add(8));
        }
    }
    found
}

/// Sets the version and the keys of the trust note whose version is at a place.
fn set_note(bytes: &mut [u8], place: usize, version: u32, keys: &[u32]) -> Result<(), RowFault> {
    set_word(bytes, place, version)?;
    let mut place = place.saturating_add(12);
    for key in keys {
        set_word(bytes, place, *key)?;
        place = place.saturating_add(RECORD_SIZE);
    }
    Ok(())
}

/// Sets the four bytes at a place, low byte first.
fn set_word(bytes: &mut [u8], place: usize, value: u32) -> Result<(), RowFault> {
    let end = place.saturating_add(4);
    match bytes.get_mut(place..end) {
        Some(field) => {
            field.copy_from_slice(&value.to_le_bytes());
            Ok(())
        }
        None => Err(RowFault::Shape("no room for the trust note")),
    }
}
