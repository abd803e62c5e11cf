//! The names of failed calls. The room for a note is taken first, so that a fault is always noted.

ghost use Rattle.std.specs.Prelude.{◌≡◌, ◌<◌, map, vec_len, vec_capacity, string_bytes, IfOk, OnOk};
ghost use Rattle.erim_io.specs.Store.{with_noted_name};

use std::alloc::{AllocError, Global};

// The note of a name, and room for it among the others.
pub(crate) fn room_to_note(
    alloc: Global,
    names: &mut Vec<String>,
    name: &str,
) -> Result<String, AllocError>
    ensures note { IfOk result (λ note. string_bytes note ≡ name.now) }
    ensures room { OnOk result (vec_len names.new < vec_capacity names.new) }
    ensures kept { names.new.items ≡ names.old.items }
{
    names.reserve(1)?;
    String::from_str(alloc, name)
}

// Notes the name of a call that failed.
pub(crate) fn note_failed(names: &mut Vec<String>, note: String, failed: bool)
    requires room { vec_len names.old < vec_capacity names.old }
    ensures { let old = map string_bytes names.old.items in
        map string_bytes names.new.items ≡ with_noted_name failed (string_bytes note) old }
{
    if failed {
        let _ = names.push(note);
    }
}
