//! The tables: of each, when a row of it is so.

use crate::reading::{has_line, is_canonical, whole_insn};
use erim_defs::Decoded;
use std::alloc::Global;
use test_rows::{RowFault, bytes_of, word};
use x86_decode::{Part, decode, locate};

/// Is the row of a file so?
pub fn is_row(alloc: Global, file: &str, row: &str) -> Result<bool, RowFault> {
    match file {
        "encodings.rows" => is_encoding(alloc, row),
        "canonical.rows" => is_canonical_line(alloc, row),
        "others.rows" => is_other_encoding(alloc, row),
        "parts.rows" => has_parts(alloc, row),
        "short.rows" => is_none(alloc, row, true),
        "undefined.rows" => is_none(alloc, row, false),
        _ => Err(RowFault::Shape("no such table")),
    }
}

/// The bytes before the opcode, the other bytes, the line.
fn is_encoding(alloc: Global, row: &str) -> Result<bool, RowFault> {
    let (front, rest) = word(row);
    let (rest, text) = word(rest);
    let mut bytes = bytes_of(alloc, front)?;
    let before = bytes.len();
    let rest = bytes_of(alloc, rest)?;
    bytes.extend_from_slice(&rest)?;
    match whole_insn(&bytes) {
        Some((insn, skip)) => Ok(skip == before && has_line(alloc, &insn, text)?),
        None => Ok(false),
    }
}

/// A canonical encoding and its line.
fn is_canonical_line(alloc: Global, row: &str) -> Result<bool, RowFault> {
    let (digits, text) = word(row);
    let bytes = bytes_of(alloc, digits)?;
    match whole_insn(&bytes) {
        Some((insn, _skip)) => Ok(is_canonical(&bytes, &bytes) && has_line(alloc, &insn, text)?),
        None => Ok(false),
    }
}

/// An encoding, and the canonical one.
fn is_other_encoding(alloc: Global, row: &str) -> Result<bool, RowFault> {
    let (digits, canonical) = word(row);
    let bytes = bytes_of(alloc, digits)?;
    let canonical = bytes_of(alloc, canonical)?;
    Ok(whole_insn(&bytes).is_some() && is_canonical(&bytes, &canonical))
}

/// Bytes that begin an instruction where `short`, else none.
fn is_none(alloc: Global, row: &str, short: bool) -> Result<bool, RowFault> {
    let bytes = bytes_of(alloc, row)?;
    let is_so = match decode(&bytes) {
        Decoded::Short => short,
        Decoded::Undefined => !short,
        Decoded::Insn { .. } => false,
    };
    Ok(is_so && locate(&bytes).is_none())
}

/// Has an encoding this part, `-` for none?
fn is_part(alloc: Global, bytes: &[u8], part: Option<Part>, row: &str) -> Result<bool, RowFault> {
    let wanted = bytes_of(alloc, row)?;
    let found = match part {
        Some(Part { at, len }) => {
            let end = usize::from(at).saturating_add(usize::from(len));
            bytes.get(usize::from(at)..end)
        }
        None => bytes.get(..0),
    };
    Ok(found == Some(wanted.as_slice()))
}

/// An encoding, its displacement, its immediate and its relative offset.
fn has_parts(alloc: Global, row: &str) -> Result<bool, RowFault> {
    let (digits, rest) = word(row);
    let (displacement, rest) = word(rest);
    let (immediate, relative_offset) = word(rest);
    let bytes = bytes_of(alloc, digits)?;
    let Some(places) = locate(&bytes) else {
        return Ok(false);
    };
    Ok(
        is_part(alloc, &bytes, places.displacement, displacement)?
            && is_part(alloc, &bytes, places.immediate, immediate)?
            && is_part(alloc, &bytes, places.relative_offset, relative_offset)?,
    )
}
