//! Addresses, PKRU and sequences as they are printed.

ghost use Rattle.std.specs.Prelude.{◌≡◌, ◌++◌, OnOk, IfOk};
ghost use Rattle.std.specs.String.{string_bytes};
ghost use Rattle.erim_defs.specs.Output.Texts.{address_text, kind_text, pkru_text, unsafe_line};

use erim_defs::{Found, NoMemory, SeqKind};
use std::alloc::{AllocError, Global};

/// An address as it is printed.
pub fn address_text(alloc: Global, address: u64) -> Result<String, AllocError>
    ensures { IfOk result (λ text. string_bytes text ≡ address_text address) }
{
    format!(in alloc; "0x{address:012x}")
}

/// A PKRU as it is printed.
pub fn pkru_text(alloc: Global, pkru: u32) -> Result<String, AllocError>
    ensures { IfOk result (λ text. string_bytes text ≡ pkru_text pkru) }
{
    format!(in alloc; "0x{pkru:08x}")
}

/// The name of a kind of sequence.
pub fn kind_text(kind: SeqKind) -> &'static str
    ensures { result.now ≡ kind_text kind }
{
    match kind {
        SeqKind::Wrpkru => "wrpkru",
        SeqKind::Xrstor => "xrstor",
    }
}

/// Appends the line that names an unsafe sequence.
#[tactic(auto, unfolding(erim_defs::specs::Output::Texts::unsafe_line))]
pub fn push_unsafe_line(text: &mut String, found: &Found) -> Result<(), NoMemory>
    ensures { OnOk result (string_bytes text.new ≡ string_bytes text.old ++ unsafe_line found.now) }
{
    let kind = kind_text(found.kind);
    let at = found.at;
    writeln!(text, "unsafe {kind} at 0x{at:012x}")?;
    Ok(())
}
