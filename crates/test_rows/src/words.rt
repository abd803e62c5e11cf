//! Reads the words, numbers and bytes of a row's line.

use crate::fault::RowFault;
use hex::FromHexError;
use std::alloc::Global;

/// How many bytes a file of a row may have.
const FILE_LIMIT: usize = 33_554_453;

/// The first word of a text and what comes after it, without spaces around.
pub fn word(text: &str) -> (&str, &str) {
    let text = text.trim();
    match text.split_once(' ') {
        Some((word, rest)) => (word, rest.trim()),
        None => (text, ""),
    }
}

/// The number in hexadecimal digits at the beginning of a text, and what comes after it.
pub fn number(text: &str) -> Option<(u64, &str)> {
    let (digits, rest) = word(text);
    match u64::from_str_radix(digits, 16) {
        Ok(number) => Some((number, rest)),
        Err(_) => None,
    }
}

/// The one number of a text.
pub fn one_number(text: &str) -> Option<u64> {
    match number(text) {
        Some((number, "")) => Some(number),
        _ => None,
    }
}

/// The two numbers of a text, and what comes after them.
pub fn two_numbers(text: &str) -> Option<(u64, u64, &str)> {
    let (first, rest) = number(text)?;
    let (second, rest) = number(rest)?;
    Some((first, second, rest))
}

/// The one number of a text in decimal digits.
pub fn decimal(text: &str) -> Option<u32> {
    text.trim().parse::<u32>().ok()
}

/// A text without the `*COUNT` at its end, and the count, which is 1 where there is none.
pub fn repeated(text: &str) -> Option<(&str, u32)> {
    match text.split_once('*') {
        Some((text, count)) => Some((text.trim(), decimal(count)?)),
        None => Some((text, 1)),
    }
}

/// Appends bytes that are given as pairs of hexadecimal digits, as often as `*COUNT` says.
fn push_digits(alloc: Global, bytes: &mut Vec<u8>, text: &str) -> Result<(), RowFault> {
    let Some((digits, count)) = repeated(text) else {
        return Err(RowFault::Shape("no count"));
    };
    let more = decoded(alloc, digits)?;
    for _time in 0..count {
        bytes.extend_from_slice(&more)?;
    }
    Ok(())
}

/// The bytes of pairs of hexadecimal digits.
fn decoded(alloc: Global, digits: &str) -> Result<Vec<u8>, RowFault> {
    match hex::decode(alloc, digits) {
        Ok(bytes) => Ok(bytes),
        Err(FromHexError::OutOfMemory) => Err(RowFault::Memory),
        Err(_) => Err(RowFault::Shape("no pairs of hexadecimal digits")),
    }
}

/// Appends bytes, where `+PLACE` goes on to that place with zeros.
pub fn push_bytes(alloc: Global, bytes: &mut Vec<u8>, text: &str) -> Result<(), RowFault> {
    for word in text.split_whitespace() {
        match word.strip_prefix('+') {
            Some(place) => fill_to(bytes, one_number(place))?,
            None => push_digits(alloc, bytes, word)?,
        }
    }
    Ok(())
}

/// Appends zeros up to a place.
pub fn fill_to(bytes: &mut Vec<u8>, place: Option<u64>) -> Result<(), RowFault> {
    match place {
        Some(place) if place <= FILE_LIMIT as u64 && place >= bytes.len() as u64 => {
            Ok(bytes.resize(place as usize, 0)?)
        }
        _ => Err(RowFault::Shape("no place, or one before, or too far")),
    }
}

/// The bytes of a text, `-` for none.
pub fn bytes_of(alloc: Global, text: &str) -> Result<Vec<u8>, RowFault> {
    let mut bytes = Vec::new(alloc);
    if text != "-" {
        push_bytes(alloc, &mut bytes, text)?;
    }
    Ok(bytes)
}
