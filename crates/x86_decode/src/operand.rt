//! The operand that a ModRM byte names.

ghost use Rattle.std.specs.Prelude.{◌≡◌, ◌<◌};
ghost use Rattle.erim_defs.specs.Encoding.Operand.{reg_with_bit, has_sib, disp_size, sib_mem};
ghost use Rattle.erim_defs.specs.Encoding.Operand.{place_of};
ghost use Rattle.erim_defs.specs.Encoding.Cursor.{sib_at, operand_at};
ghost use Rattle.x86_decode.specs.Gives.{Gives};

use crate::cursor::{byte_at, chunk_at, signed_value};
use erim_defs::grammar::{Rex, Stop};
use erim_defs::{Base, Mem, Place};

/// A register's number with its bit of REX.
#[tactic(auto, unfolding(erim_defs::specs::Encoding::Operand::reg_with_bit))]
pub fn reg_with_bit(bit: bool, n: u8) -> u8
    requires { n < 8 }
    ensures { result ≡ reg_with_bit bit n }
{
    if bit { n + 8 } else { n }
}

/// Whether a SIB byte follows.
#[tactic(auto, unfolding(erim_defs::specs::Encoding::Operand::has_sib))]
pub fn has_sib(m: u8) -> bool
    ensures { result ≡ has_sib m }
{
    m / 64 != 3 && m % 8 == 4
}

/// Bytes of the displacement.
#[tactic(auto, unfolding(erim_defs::specs::Encoding::Operand::disp_size))]
pub fn disp_size(m: u8, sib: u8) -> u8
    ensures size { result ≡ disp_size m sib }
    ensures low { result < 5 }
{
    match m / 64 {
        0 => {
            if m % 8 == 5 || m % 8 == 4 && sib % 8 == 5 {
                4
            } else {
                0
            }
        }
        1 => 1,
        2 => 4,
        _ => 0,
    }
}

/// The memory that a SIB byte names.
#[tactic(auto, unfolding(erim_defs::specs::Encoding::Operand::sib_mem))]
fn sib_mem(rex: Rex, mode: u8, sib: u8, disp: i32) -> Mem
    ensures { result ≡ sib_mem rex mode sib disp }
{
    let index = reg_with_bit(rex.x, sib / 8 % 8);
    let base = if mode == 0 && sib % 8 == 5 {
        Base::Zero
    } else {
        Base::Reg(reg_with_bit(rex.b, sib % 8))
    };
    if index == 4 {
        Mem {
            base,
            index: None,
            scale: 0,
            disp,
        }
    } else {
        Mem {
            base,
            index: Some(index),
            scale: sib / 64,
            disp,
        }
    }
}

/// The place that ModRM, SIB and displacement name.
#[tactic(auto, unfolding(erim_defs::specs::Encoding::Operand::place_of))]
fn place_of(rex: Rex, m: u8, sib: u8, disp: i32) -> Place
    ensures { result ≡ place_of rex m sib disp }
{
    if m / 64 == 3 {
        return Place::Reg(reg_with_bit(rex.b, m % 8));
    }
    if m % 8 == 4 {
        return Place::At(sib_mem(rex, m / 64, sib, disp));
    }
    let base = if m / 64 == 0 && m % 8 == 5 {
        Base::Rip
    } else {
        Base::Reg(reg_with_bit(rex.b, m % 8))
    };
    Place::At(Mem {
        base,
        index: None,
        scale: 0,
        disp,
    })
}

/// The SIB byte, or 0 where there is none.
#[tactic(auto, unfolding(erim_defs::specs::Encoding::Cursor::sib_at))]
fn sib_at(m: u8, least: u8, bytes: &[u8]) -> Result<(u8, &[u8]), Stop>
    requires { least < 16 }
    ensures { Gives (λ x. (x.0, x.1.now)) result (sib_at m least bytes.now) }
{
    if has_sib(m) {
        byte_at(bytes, Stop::Short(1 + (disp_size(m, 0) + least)))
    } else {
        Ok((0, bytes))
    }
}

/// The operand of a ModRM byte `m`, and how long its displacement is. `least` is what an
/// instruction needs after it.
#[tactic(auto, unfolding(erim_defs::specs::Encoding::Cursor::operand_at))]
pub fn operand_at(rex: Rex, m: u8, least: u8, bytes: &[u8]) -> Result<(Place, u8, &[u8]), Stop>
    requires { least < 16 }
    ensures { Gives (λ x. ((x.0, x.1), x.2.now)) result (operand_at rex m least bytes.now) }
{
    let (sib, rest) = sib_at(m, least, bytes)?;
    let size = disp_size(m, sib);
    let (disp, rest) = chunk_at(rest, size, least)?;
    Ok((place_of(rex, m, sib, signed_value(disp)), size, rest))
}
