//! The file that a row works on: its own bytes, or an image that is laid out, and then the fields
//! that get other values.

use crate::draft::Draft;
use crate::fault::RowFault;
use crate::fields::put_fields;
use crate::words::{fill_to, number, one_number, push_bytes, word};
use std::alloc::Global;

/// A file as the lines of a row give it.
#[derive(Drop)]
pub struct RowFile {
    pub draft: Draft,
    /// The bytes, where nothing is laid out.
    whole: Option<Vec<u8>>,
    /// The fields that get other values.
    fields: String,
    /// How long the file is at least.
    length: Option<u64>,
}

impl RowFile {
    /// A file of which nothing is said yet.
    pub fn new(alloc: Global) -> RowFile {
        RowFile {
            draft: Draft::new(alloc),
            whole: None,
            fields: String::new(alloc),
            length: None,
        }
    }

    /// Is there nothing to lay out, and are there no bytes?
    pub fn is_empty(&self) -> bool {
        self.whole.is_none() && !self.draft.has_parts()
    }

    /// Takes a line of a file, or answers that it is none.
    pub fn take(&mut self, alloc: Global, name: &str, rest: &str) -> Result<bool, RowFault> {
        match name {
            "file" => self.whole = Some(whole_file(alloc, rest)?),
            "fields" => self.push_fields(rest)?,
            "length" => self.length = one_number(rest),
            _ => return self.draft.take(alloc, name, rest),
        }
        Ok(true)
    }

    fn push_fields(&mut self, rest: &str) -> Result<(), RowFault> {
        self.fields.push_str(rest)?;
        Ok(self.fields.push(' ')?)
    }

    /// The bytes of the file, with zeros up to its length.
    pub fn bytes(self, alloc: Global) -> Result<Vec<u8>, RowFault> {
        let RowFile {
            draft,
            whole,
            fields,
            length,
        } = self;
        let mut bytes = match whole {
            Some(bytes) => bytes,
            None => draft.lay(alloc)?,
        };
        if length.is_some() {
            fill_to(&mut bytes, length)?;
        }
        put_fields(&mut bytes, fields.as_str())?;
        Ok(bytes)
    }
}

/// A file: its length, and the bytes that it begins with, with zeros after them.
fn whole_file(alloc: Global, rest: &str) -> Result<Vec<u8>, RowFault> {
    let Some((length, rest)) = number(rest) else {
        return Err(RowFault::Shape("no length"));
    };
    let mut bytes = Vec::new(alloc);
    push_bytes(alloc, &mut bytes, rest)?;
    fill_to(&mut bytes, Some(length))?;
    Ok(bytes)
}

/// The bytes of the image that lines lay out, as the lines of a row do.
pub fn image_bytes(alloc: Global, lines: &str) -> Result<Vec<u8>, RowFault> {
    let mut file = RowFile::new(alloc);
    for line in lines.lines() {
        let (name, rest) = word(line);
        if !file.take(alloc, name, rest)? {
            return Err(RowFault::Shape("no line of an image"));
        }
    }
    file.bytes(alloc)
}
