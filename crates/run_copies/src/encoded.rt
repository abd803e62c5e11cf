//! Canonical encodings, after other bytes.

ghost use Rattle.std.specs.Prelude.{◌≡◌, ◌≤◌, ◌++◌, OnOk, length};
ghost use Rattle.erim_defs.specs.Encoding.Canonical.{canonical_encoding};

use erim_defs::Insn;
use std::alloc::AllocError;
use x86_encode::put_canonical;

/// How many bytes an instruction has in its canonical encoding.
pub fn encoded_len(insn: &Insn) -> u8
    ensures len { result ≡ length (canonical_encoding insn.now) }
    ensures few { result ≤ 15 }
{
    put_canonical(insn, &mut [0; 15])
}

/// Puts the canonical encoding of an instruction after other bytes.
pub fn push_canonical(bytes: &mut Vec<u8>, insn: &Insn) -> Result<(), AllocError>
    ensures bytes { OnOk result (bytes.new.items
        ≡ bytes.old.items ++ canonical_encoding insn.now) }
    ensures few { length (canonical_encoding insn.now) ≤ 15 }
{
    let mut buffer = [0; 15];
    let len = put_canonical(insn, &mut buffer);
    bytes.extend_from_slice(&buffer[..len as usize])
}
