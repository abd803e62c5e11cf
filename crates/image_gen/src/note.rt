//! The notes of an image.

ghost use Rattle.std.specs.Prelude.{◌≡◌, ◌≤◌, ◌++◌, [], ◌∷◌, length, OnOk, IfOk};
ghost use Rattle.erim_defs.specs.Output.LayImage.{words, mark_bytes, span_bytes, trust_note};
ghost use Rattle.erim_defs.specs.Output.LayImage.{functions_note};
ghost use Rattle.image_gen.specs.Parts.{mark_value, mark_values};

use crate::field::{push_words, push_xwords};
use crate::part::Mark;
use erim_defs::note::{
    FUNCTION_SIZE, FUNCTIONS_NOTE, NOTE_ITEMS, NOTE_VERSION, RECORD_SIZE, TRUST_NOTE,
};
use erim_defs::page::TRUSTED_KEY;
use erim_defs::{NoMemory, Span};
use std::alloc::{AllocError, Global};

/// The name of the trust note, filled up, of 5 bytes.
const TRUST_NAME: [u8; 8] = [b'E', b'R', b'I', b'M', 0, 0, 0, 0];

/// The name of the functions note, filled up, of 6 bytes.
const FUNCTIONS_NAME: [u8; 8] = [b'E', b'R', b'I', b'M', b'F', 0, 0, 0];

/// Appends what stands before the items of a note: the sizes of name and desc and the type, the
/// name, version and count.
fn push_note_head(
    bytes: &mut Vec<u8>,
    head: [u32; 3],
    name: &[u8; 8],
    count: u32,
) -> Result<(), AllocError>
    ensures { OnOk result (bytes.new.items
        ≡ bytes.old.items ++ (words head ++ (name.now ++ words (NOTE_VERSION ∷ count ∷ [])))) }
{
    push_words(bytes, &head)?;
    bytes.extend_from_slice(name)?;
    push_words(bytes, &[NOTE_VERSION, count])
}

/// Appends a record of the trust note.
fn push_mark(bytes: &mut Vec<u8>, mark: &Mark) -> Result<(), AllocError>
    ensures { OnOk result (bytes.new.items ≡ bytes.old.items ++ mark_bytes (mark_value mark.now)) }
{
    push_words(bytes, &[mark.kind, u32::from(TRUSTED_KEY)])?;
    push_xwords(bytes, &[mark.start, mark.length])
}

/// Appends the trust note, if there are marks.
fn push_trust(bytes: &mut Vec<u8>, marks: &[Mark]) -> Result<(), AllocError>
    requires { length marks.now ≤ 256 }
    ensures { OnOk result (bytes.new.items
        ≡ bytes.old.items ++ trust_note (mark_values marks.now)) }
{
    if marks.is_empty() {
        return Ok(());
    }
    let count = marks.len() as u32;
    let size = NOTE_ITEMS as u32 + RECORD_SIZE as u32 * count;
    push_note_head(bytes, [5, size, TRUST_NOTE], &TRUST_NAME, count)?;
    for mark in marks {
        push_mark(bytes, mark)?;
    }
    Ok(())
}

/// Appends the functions note, if there are functions.
fn push_functions(bytes: &mut Vec<u8>, functions: &[Span]) -> Result<(), AllocError>
    requires { length functions.now ≤ 4096 }
    ensures { OnOk result (bytes.new.items ≡ bytes.old.items ++ functions_note functions.now) }
{
    if functions.is_empty() {
        return Ok(());
    }
    let count = functions.len() as u32;
    let size = NOTE_ITEMS as u32 + FUNCTION_SIZE as u32 * count;
    push_note_head(bytes, [6, size, FUNCTIONS_NOTE], &FUNCTIONS_NAME, count)?;
    for function in functions {
        push_xwords(bytes, &[function.start, function.length])?;
    }
    Ok(())
}

/// The trust note where there are marks, and the functions note where there are functions.
pub fn notes(alloc: Global, marks: &[Mark], functions: &[Span]) -> Result<Vec<u8>, NoMemory>
    requires marks { length marks.now ≤ 256 }
    requires functions { length functions.now ≤ 4096 }
    ensures { IfOk result (λ bytes. bytes.items
        ≡ trust_note (mark_values marks.now) ++ functions_note functions.now) }
{
    let mut bytes = Vec::new(alloc);
    push_trust(&mut bytes, marks)?;
    push_functions(&mut bytes, functions)?;
    Ok(bytes)
}
