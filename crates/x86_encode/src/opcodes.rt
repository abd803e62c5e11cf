//! Writes prefixes, REX and opcode, and encodings but for their immediate.

ghost use Rattle.std.specs.Prelude.{◌≡◌, ◌<◌, ◌≤◌, ◌+◌, ◌++◌, ◌%◌, take, false};
ghost use Rattle.erim_defs.specs.Encoding.Grammar.{rex_bytes};
ghost use Rattle.erim_defs.specs.Encoding.Canonical.{lock_bytes, is_wide, asks_rex, bit_value};
ghost use Rattle.erim_defs.specs.Encoding.Canonical.{rex_byte, rex_of, opcode_bytes};
ghost use Rattle.erim_defs.specs.Encoding.Canonical.{opcode_of_width, opcode_with_modrm};
ghost use Rattle.erim_defs.specs.Encoding.Canonical.{opcode_with_register, opcode_alone};
ghost use Rattle.erim_defs.specs.Encoding.Canonical.{reg_rm_bytes, rm_bytes, word_rm_bytes};
ghost use Rattle.erim_defs.specs.Encoding.Canonical.{byte_rm_bytes};
ghost use Rattle.x86_encode.specs.Buffer.{KeepsRest};

use crate::buffer::put;
use crate::operand::{
    has_upper_base, has_upper_index, is_upper, put_operand_bytes, register_number,
};
use erim_defs::{Place, Width};

/// An opcode, and what asks for bytes before it.
#[derive(Clone, Copy)]
pub struct Opcode {
    /// F0 stands before it.
    pub lock: bool,
    /// REX.W is set.
    pub wide: bool,
    /// A byte register asks REX.
    pub asked: bool,
    /// The escape opcode 0F stands before it.
    pub escape: bool,
    pub op: u8,
}

/// RexBits of REX beside W.
#[derive(Clone, Copy)]
pub struct RexBits {
    pub r: bool,
    pub x: bool,
    pub b: bool,
}

/// Does the width ask REX.W?
#[tactic(auto, unfolding(erim_defs::specs::Encoding::Canonical::is_wide))]
pub fn is_wide(w: Width) -> bool
    ensures { result ≡ is_wide w }
{
    matches!(w, Width::W8)
}

/// Does a register ask REX, as SPL, BPL, SIL and DIL do?
#[tactic(auto, unfolding(erim_defs::specs::Encoding::Canonical::asks_rex))]
pub fn asks_rex(w: Width, place: &Place) -> bool
    ensures { result ≡ asks_rex w place.now }
{
    match (w, place) {
        (Width::W1, Place::Reg(n)) => *n >= 4 && *n < 8,
        _ => false,
    }
}

/// The opcode of a width.
#[tactic(auto, unfolding(erim_defs::specs::Encoding::Canonical::opcode_of_width))]
pub fn opcode_of_width(w: Width, op: u8) -> u8
    requires { op < 255 }
    ensures { result ≡ opcode_of_width w op }
{
    match w {
        Width::W1 => op,
        Width::W4 => op + 1,
        Width::W8 => op + 1,
    }
}

/// The value of a bit.
#[tactic(auto, unfolding(erim_defs::specs::Encoding::Canonical::bit_value))]
fn bit_value(b: bool, n: u8) -> u8
    ensures is { result ≡ bit_value b n }
    ensures low { result ≤ n }
{
    if b { n } else { 0 }
}

/// A REX byte.
#[tactic(auto, unfolding(erim_defs::specs::Encoding::Canonical::rex_byte))]
fn rex_byte(w: bool, bits: RexBits) -> u8
    ensures { result ≡ rex_byte w bits.r bits.x bits.b }
{
    0x40 + bit_value(w, 8) + bit_value(bits.r, 4) + bit_value(bits.x, 2) + bit_value(bits.b, 1)
}

/// The prefix.
#[tactic(auto, unfolding(erim_defs::specs::Encoding::Canonical::lock_bytes))]
fn put_lock(into: &mut [u8; 15], lock: bool) -> u8
    ensures next { result ≤ 1 }
    ensures put { take result into.new ≡ lock_bytes lock }
    ensures kept { KeepsRest result into.old into.new }
{
    if lock { put(into, 0, 0xF0) } else { 0 }
}

/// REX, where it is asked or needed.
#[tactic(auto, unfolding(erim_defs::specs::Encoding::Canonical::rex_of))]
fn put_rex(into: &mut [u8; 15], at: u8, asked: bool, w: bool, bits: RexBits) -> u8
    requires { at ≤ 1 }
    ensures more { at ≤ result }
    ensures next { result ≤ at + 1 }
    ensures put { take result into.new ≡
        take at into.old ++ rex_bytes (rex_of asked w bits.r bits.x bits.b) }
    ensures kept { KeepsRest result into.old into.new }
{
    if asked || w || bits.r || bits.x || bits.b {
        put(into, at, rex_byte(w, bits))
    } else {
        at
    }
}

/// The opcode, after 0F or not.
#[tactic(auto, unfolding(erim_defs::specs::Encoding::Canonical::opcode_bytes))]
fn put_opcode(into: &mut [u8; 15], at: u8, escape: bool, op: u8) -> u8
    requires { at ≤ 2 }
    ensures more { at ≤ result }
    ensures next { result ≤ at + 2 }
    ensures put { take result into.new ≡ take at into.old ++ opcode_bytes escape op }
    ensures kept { KeepsRest result into.old into.new }
{
    if escape {
        let at = put(into, at, 0x0F);
        put(into, at, op)
    } else {
        put(into, at, op)
    }
}

/// An opcode with the operands reg and r/m.
#[tactic(auto, unfolding(erim_defs::specs::Encoding::Canonical::opcode_with_modrm))]
pub fn put_opcode_modrm(into: &mut [u8; 15], code: Opcode, reg: u8, e: &Place) -> u8
    ensures next { result ≤ 10 }
    ensures put { take result into.new ≡
        opcode_with_modrm code.lock code.wide code.asked code.escape code.op reg e.now }
    ensures kept { KeepsRest result into.old into.new }
{
    let bits = RexBits {
        r: is_upper(reg),
        x: has_upper_index(e),
        b: has_upper_base(e),
    };
    let at = put_lock(into, code.lock);
    let at = put_rex(into, at, code.asked, code.wide, bits);
    let at = put_opcode(into, at, code.escape, code.op);
    put_operand_bytes(into, at, reg, e)
}

/// An opcode with a register in it.
#[tactic(auto, unfolding(erim_defs::specs::Encoding::Canonical::opcode_with_register))]
pub fn put_opcode_register(into: &mut [u8; 15], wide: bool, asked: bool, op: u8, n: u8) -> u8
    requires { op ≤ 248 }
    ensures next { result ≤ 2 }
    ensures put { take result into.new ≡ opcode_with_register wide asked op n }
    ensures kept { KeepsRest result into.old into.new }
{
    let bits = RexBits {
        r: false,
        x: false,
        b: is_upper(n),
    };
    let at = put_rex(into, 0, asked, wide, bits);
    put(into, at, op + n % 8)
}

/// An opcode alone.
#[tactic(auto, unfolding(erim_defs::specs::Encoding::Canonical::opcode_alone))]
pub fn put_opcode_alone(into: &mut [u8; 15], wide: bool, escape: bool, op: u8) -> u8
    ensures next { result ≤ 3 }
    ensures put { take result into.new ≡ opcode_alone wide escape op }
    ensures kept { KeepsRest result into.old into.new }
{
    let bits = RexBits {
        r: false,
        x: false,
        b: false,
    };
    let at = put_rex(into, 0, false, wide, bits);
    put_opcode(into, at, escape, op)
}

/// The operands reg and r/m of a width. The opcode has its even form, and `wide` and `asked` are
/// left to the operands.
#[tactic(auto, unfolding(erim_defs::specs::Encoding::Canonical::reg_rm_bytes))]
pub fn put_reg_rm(
    into: &mut [u8; 15],
    lock: bool,
    w: Width,
    escape: bool,
    op: u8,
    g: Place,
    e: &Place,
) -> u8
    requires { op < 255 }
    ensures next { result ≤ 10 }
    ensures put { take result into.new ≡ reg_rm_bytes lock w escape op g e.now }
    ensures kept { KeepsRest result into.old into.new }
{
    let code = Opcode {
        lock,
        wide: is_wide(w),
        asked: asks_rex(w, &g) || asks_rex(w, e),
        escape,
        op: opcode_of_width(w, op),
    };
    put_opcode_modrm(into, code, register_number(g), e)
}

/// An opcode extension, and the operand r/m of a width.
#[tactic(auto, unfolding(erim_defs::specs::Encoding::Canonical::rm_bytes))]
pub fn put_rm(into: &mut [u8; 15], lock: bool, w: Width, op: u8, reg: u8, e: &Place) -> u8
    requires { op < 255 }
    ensures next { result ≤ 10 }
    ensures put { take result into.new ≡ rm_bytes lock w op reg e.now }
    ensures kept { KeepsRest result into.old into.new }
{
    let code = Opcode {
        lock,
        wide: is_wide(w),
        asked: asks_rex(w, e),
        escape: false,
        op: opcode_of_width(w, op),
    };
    put_opcode_modrm(into, code, reg, e)
}

/// A register or opcode extension, and r/m without byte registers.
#[tactic(auto, unfolding(erim_defs::specs::Encoding::Canonical::word_rm_bytes))]
pub fn put_word_rm(into: &mut [u8; 15], w: Width, escape: bool, op: u8, reg: u8, e: &Place) -> u8
    ensures next { result ≤ 10 }
    ensures put { take result into.new ≡ word_rm_bytes w escape op reg e.now }
    ensures kept { KeepsRest result into.old into.new }
{
    let code = Opcode {
        lock: false,
        wide: is_wide(w),
        asked: false,
        escape,
        op,
    };
    put_opcode_modrm(into, code, reg, e)
}

/// A register or opcode extension, and r/m of one byte.
#[tactic(auto, unfolding(erim_defs::specs::Encoding::Canonical::byte_rm_bytes))]
pub fn put_byte_rm(into: &mut [u8; 15], w: Width, op: u8, reg: u8, e: &Place) -> u8
    ensures next { result ≤ 10 }
    ensures put { take result into.new ≡ byte_rm_bytes w op reg e.now }
    ensures kept { KeepsRest result into.old into.new }
{
    let code = Opcode {
        lock: false,
        wide: is_wide(w),
        asked: asks_rex(Width::W1, e),
        escape: true,
        op,
    };
    put_opcode_modrm(into, code, reg, e)
}
