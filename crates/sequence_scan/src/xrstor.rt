//! XRSTOR: `0F AE /5` with an operand in memory.

ghost use Rattle.std.specs.Prelude.{◌≡◌, ◌+◌, ◌<◌, ◌≤◌, ◌^◌, Some, length};
ghost use Rattle.erim_defs.specs.Encoding.Operand.{has_sib, disp_size};
ghost use Rattle.erim_defs.specs.Inspection.Code.{laid_at};
ghost use Rattle.erim_defs.specs.Inspection.Occurrence.{byte_or_zero, is_xrstor_modrm, xrstor_len};
ghost use Rattle.erim_defs.specs.Inspection.Occurrence.{xrstor_at, xrstor_with};

use crate::bytes::{byte_at, byte_is};
use erim_defs::{Found, SeqKind};

/// Has the operand of a ModRM byte a SIB byte?
#[tactic(auto, unfolding(erim_defs::specs::Encoding::Operand::has_sib))]
fn has_sib(m: u8) -> bool
    ensures { result ≡ has_sib m }
{
    m / 64 != 3 && m % 8 == 4
}

/// The bytes of the displacement that a ModRM byte and a SIB byte ask for.
#[tactic(auto, unfolding(erim_defs::specs::Encoding::Operand::disp_size))]
fn disp_size(m: u8, sib: u8) -> u8
    ensures size { result ≡ disp_size m sib }
    ensures few { result ≤ 4 }
{
    match m / 64 {
        0 if m % 8 == 5 || m % 8 == 4 && sib % 8 == 5 => 4,
        1 => 1,
        2 => 4,
        _ => 0,
    }
}

/// Does a ModRM byte make `0F AE` an XRSTOR: /5, and an operand in memory?
fn is_xrstor_modrm(m: u8) -> bool
    ensures { result ≡ is_xrstor_modrm m }
{
    m / 8 % 8 == 5 && m < 192
}

/// The bytes of an XRSTOR with this ModRM byte, and this SIB byte where it has one.
fn xrstor_len(m: u8, sib: u8) -> u8
    ensures { result ≡ xrstor_len m sib }
{
    3 + u8::from(has_sib(m)) + disp_size(m, sib)
}

/// The XRSTOR that 0F AE and the ModRM byte `m` begin, at a place of the code.
#[tactic(auto, using(crate::proofs::PresentLemmas::are_present_at))]
fn xrstor_with(m: u8, code: &[u8], base: u64, place: usize) -> Option<Found>
    requires inside { place < length code.now }
    requires user { base + length code.now ≤ 2 ^ 47 }
    ensures { result ≡ xrstor_with (Some m) (laid_at base code.now) (base + place) }
{
    // Where the byte is absent, or isn't a SIB byte, its value doesn't matter.
    let sib = byte_at(code, place + 3).unwrap_or(0);
    let len = xrstor_len(m, sib);
    if is_xrstor_modrm(m) && place + len as usize <= code.len() {
        Some(Found {
            at: base + place as u64,
            len,
            kind: SeqKind::Xrstor,
        })
    } else {
        None
    }
}

/// The XRSTOR whose first byte, 0F, is at a place of the code that begins at `base`.
pub fn xrstor_at(code: &[u8], base: u64, place: usize) -> Option<Found>
    requires inside { place < length code.now }
    requires user { base + length code.now ≤ 2 ^ 47 }
    ensures { result ≡ xrstor_at (laid_at base code.now) (base + place) }
{
    if !byte_is(code, place + 1, 0xAE) {
        return None;
    }
    let m = byte_at(code, place + 2)?;
    xrstor_with(m, code, base, place)
}
