//! What bytes say, for the tables.

ghost use Rattle.std.specs.Prelude.{◌≤◌};

use erim_defs::{Decoded, Insn, NoMemory};
use std::alloc::Global;
use x86_decode::decode;
use x86_encode::encode;
use x86_text::line;

/// The instruction that all of the bytes encode, and how many of them stand before its opcode.
pub fn whole_insn(bytes: &[u8]) -> Option<(Insn, usize)> {
    match decode(bytes) {
        Decoded::Insn { insn, len, skip } if usize::from(len) == bytes.len() => {
            Some((insn, usize::from(skip)))
        }
        _ => None,
    }
}

/// Writes the canonical encoding of what bytes begin with, and answers its length; 0 where that is
/// no instruction.
pub fn write_canonical(bytes: &[u8], into: &mut [u8; 15]) -> u8
    ensures { result ≤ 15 }
{
    match decode(bytes) {
        Decoded::Insn { insn, .. } => encode(&insn, into),
        _ => 0,
    }
}

/// Is this the canonical encoding of what bytes begin with? The bytes after it stay.
pub fn is_canonical(bytes: &[u8], encoding: &[u8]) -> bool {
    let mut into = [0xCC; 15];
    let len = usize::from(write_canonical(bytes, &mut into));
    let is_kept = into[len..].iter().all(|byte| *byte == 0xCC);
    &into[..len] == encoding && is_kept
}

/// Has the instruction this line?
pub fn has_line(alloc: Global, insn: &Insn, text: &str) -> Result<bool, NoMemory> {
    let mut out = Vec::new(alloc);
    line(0x401000, insn, &mut out)?;
    let line = out.as_slice().strip_prefix(b"0x000000401000 ");
    Ok(line.and_then(|line| line.strip_suffix(b"\n")) == Some(text.as_bytes()))
}
