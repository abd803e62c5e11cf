//! Appends fields, low byte first, and zeros.

ghost use Rattle.std.specs.Prelude.{◌≡◌, ◌+◌, ◌^◌, ◌<◌, ◌≤◌, ◌++◌, OnOk};
ghost use Rattle.erim_defs.specs.Output.LayImage.{halves, words, xwords, multiple_from};
ghost use Rattle.erim_defs.specs.Output.LayImage.{with_padding};

use erim_defs::field::{u16_bytes, u32_bytes, u64_bytes};
use std::alloc::AllocError;

/// Appends fields of 2 bytes.
pub fn push_halves(bytes: &mut Vec<u8>, numbers: &[u16]) -> Result<(), AllocError>
    ensures { OnOk result (bytes.new.items ≡ bytes.old.items ++ halves numbers.now) }
{
    for number in numbers {
        bytes.extend_from_slice(&u16_bytes(*number))?;
    }
    Ok(())
}

/// Appends fields of 4 bytes.
pub fn push_words(bytes: &mut Vec<u8>, numbers: &[u32]) -> Result<(), AllocError>
    ensures { OnOk result (bytes.new.items ≡ bytes.old.items ++ words numbers.now) }
{
    for number in numbers {
        bytes.extend_from_slice(&u32_bytes(*number))?;
    }
    Ok(())
}

/// Appends fields of 8 bytes.
pub fn push_xwords(bytes: &mut Vec<u8>, numbers: &[u64]) -> Result<(), AllocError>
    ensures { OnOk result (bytes.new.items ≡ bytes.old.items ++ xwords numbers.now) }
{
    for number in numbers {
        bytes.extend_from_slice(&u64_bytes(*number))?;
    }
    Ok(())
}

/// The least multiple of `size` that isn't below `n`.
pub fn multiple_from(size: u64, n: u64) -> u64
    requires some { 0 < size }
    requires room { n + size ≤ 2 ^ 64 }
    ensures { result ≡ multiple_from size n }
{
    (n + (size - 1)) / size * size
}

/// Appends zeros up to a place, if it is past the end, and then a piece.
pub fn push_at(bytes: &mut Vec<u8>, place: u64, piece: &[u8]) -> Result<(), AllocError>
    ensures { OnOk result (bytes.new.items ≡ with_padding place bytes.old.items ++ piece.now) }
{
    let end = bytes.len().max(place as usize);
    bytes.resize(end, 0)?;
    bytes.extend_from_slice(piece)
}
