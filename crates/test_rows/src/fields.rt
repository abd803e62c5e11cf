//! Fields of a file that get other values, `PLACE:WIDTH=VALUE`: place and width in decimal digits,
//! the value in hexadecimal ones, low byte first.

use crate::fault::RowFault;
use crate::words::{decimal, one_number};

/// A field and its value.
#[derive(Drop)]
struct Field {
    place: usize,
    width: usize,
    value: u64,
}

/// The field that a word says.
fn field_of(word: &str) -> Option<Field> {
    let (spot, digits) = word.split_once('=')?;
    let (place, width) = spot.split_once(':')?;
    Some(Field {
        place: decimal(place)? as usize,
        width: decimal(width)? as usize,
        value: one_number(digits)?,
    })
}

/// Puts a value into its field, where the bytes have it.
fn put(bytes: &mut [u8], field: &Field) -> Option<()> {
    let value = field.value.to_le_bytes();
    let digits = value.get(..field.width)?;
    let end = field.place.checked_add(field.width)?;
    let slots = bytes.get_mut(field.place..end)?;
    slots.copy_from_slice(digits);
    Some(())
}

/// Puts each value into its field.
pub fn put_fields(bytes: &mut [u8], words: &str) -> Result<(), RowFault> {
    for word in words.split_whitespace() {
        let Some(field) = field_of(word) else {
            return Err(RowFault::Shape("no field"));
        };
        if put(bytes, &field).is_none() {
            return Err(RowFault::Shape("no such field"));
        }
    }
    Ok(())
}
