//! The bytes of an operand: ModRM, SIB and displacement.

ghost use Rattle.std.specs.Prelude.{◌≡◌, ◌<◌, ◌≤◌, ◌+◌, ◌++◌, ◌∷◌, [], take};
ghost use Rattle.erim_defs.specs.Encoding.Canonical.{is_upper, register_number, modrm_byte};
ghost use Rattle.erim_defs.specs.Encoding.Canonical.{index_number, sib_byte, disp_mode, disp_bytes};
ghost use Rattle.erim_defs.specs.Encoding.Canonical.{needs_sib, base_disp_bytes, memory_bytes};
ghost use Rattle.erim_defs.specs.Encoding.Canonical.{operand_bytes, has_upper_index};
ghost use Rattle.erim_defs.specs.Encoding.Canonical.{has_upper_base};
ghost use Rattle.x86_encode.specs.Buffer.{KeepsRest};

use crate::buffer::{fits_byte, put, put_four, put_one};
use erim_defs::{Base, Mem, Place};

/// Does the register need a bit of REX?
#[tactic(auto, unfolding(erim_defs::specs::Encoding::Canonical::is_upper))]
pub fn is_upper(n: u8) -> bool
    ensures { result ≡ is_upper n }
{
    n >= 8
}

/// The number of a register.
#[tactic(auto, unfolding(erim_defs::specs::Encoding::Canonical::register_number))]
pub fn register_number(place: Place) -> u8
    ensures { result ≡ register_number place }
{
    match place {
        Place::Reg(n) => n,
        Place::High(n) => n % 4 + 4,
        Place::At(_) => 0,
    }
}

/// A ModRM byte.
#[tactic(auto, unfolding(erim_defs::specs::Encoding::Canonical::modrm_byte))]
fn modrm_byte(mode: u8, reg: u8, rm: u8) -> u8
    requires { mode < 4 }
    ensures { result ≡ modrm_byte mode reg rm }
{
    64 * mode + 8 * (reg % 8) + rm % 8
}

/// The number of an index.
#[tactic(auto, unfolding(erim_defs::specs::Encoding::Canonical::index_number))]
fn index_number(index: Option<u8>) -> u8
    ensures is { result ≡ index_number index }
    ensures low { result < 8 }
{
    match index {
        None => 4,
        Some(i) => i % 8,
    }
}

/// A SIB byte.
#[tactic(auto, unfolding(erim_defs::specs::Encoding::Canonical::sib_byte))]
fn sib_byte(scale: u8, index: Option<u8>, base: u8) -> u8
    ensures { result ≡ sib_byte scale index base }
{
    64 * (scale % 4) + 8 * index_number(index) + base % 8
}

/// The mod of a base with a displacement.
#[tactic(auto, unfolding(erim_defs::specs::Encoding::Canonical::disp_mode))]
fn disp_mode(base: u8, disp: i32) -> u8
    ensures is { result ≡ disp_mode base disp }
    ensures low { result < 3 }
{
    if disp == 0 && base % 8 != 5 {
        0
    } else if fits_byte(disp) {
        1
    } else {
        2
    }
}

/// The displacement of a mod.
#[tactic(auto, unfolding(erim_defs::specs::Encoding::Canonical::disp_bytes))]
fn put_disp(into: &mut [u8; 15], at: u8, mode: u8, disp: i32) -> u8
    requires { at ≤ 11 }
    ensures more { at ≤ result }
    ensures next { result ≤ at + 4 }
    ensures put { take result into.new ≡ take at into.old ++ disp_bytes mode disp }
    ensures kept { KeepsRest result into.old into.new }
{
    match mode {
        0 => at,
        1 => put_one(into, at, disp),
        _ => put_four(into, at, disp),
    }
}

/// Does memory with a base need a SIB byte?
#[tactic(auto, unfolding(erim_defs::specs::Encoding::Canonical::needs_sib))]
fn needs_sib(base: u8, index: Option<u8>) -> bool
    ensures { result ≡ needs_sib base index }
{
    match index {
        None => base % 8 == 4,
        Some(_) => true,
    }
}

/// Memory with a base.
#[tactic(auto, unfolding(erim_defs::specs::Encoding::Canonical::base_disp_bytes))]
fn put_base_disp(into: &mut [u8; 15], at: u8, reg: u8, base: u8, m: &Mem) -> u8
    requires { at ≤ 4 }
    ensures more { at ≤ result }
    ensures next { result ≤ at + 6 }
    ensures put { take result into.new ≡ take at into.old ++ base_disp_bytes reg base m.now }
    ensures kept { KeepsRest result into.old into.new }
{
    let mode = disp_mode(base, m.disp);
    if needs_sib(base, m.index) {
        let at = put(into, at, modrm_byte(mode, reg, 4));
        let at = put(into, at, sib_byte(m.scale, m.index, base));
        put_disp(into, at, mode, m.disp)
    } else {
        let at = put(into, at, modrm_byte(mode, reg, base));
        put_disp(into, at, mode, m.disp)
    }
}

/// Memory.
#[tactic(auto, unfolding(erim_defs::specs::Encoding::Canonical::memory_bytes))]
fn put_memory_bytes(into: &mut [u8; 15], at: u8, reg: u8, m: &Mem) -> u8
    requires { at ≤ 4 }
    ensures more { at ≤ result }
    ensures next { result ≤ at + 6 }
    ensures put { take result into.new ≡ take at into.old ++ memory_bytes reg m.now }
    ensures kept { KeepsRest result into.old into.new }
{
    match m.base {
        Base::Zero => {
            let at = put(into, at, modrm_byte(0, reg, 4));
            let at = put(into, at, sib_byte(m.scale, m.index, 5));
            put_four(into, at, m.disp)
        }
        Base::Reg(base) => put_base_disp(into, at, reg, base, m),
        Base::Rip => {
            let at = put(into, at, modrm_byte(0, reg, 5));
            put_four(into, at, m.disp)
        }
    }
}

/// ModRM, SIB and displacement, of reg and r/m.
#[tactic(auto, unfolding(erim_defs::specs::Encoding::Canonical::operand_bytes))]
pub fn put_operand_bytes(into: &mut [u8; 15], at: u8, reg: u8, e: &Place) -> u8
    requires { at ≤ 4 }
    ensures more { at ≤ result }
    ensures next { result ≤ at + 6 }
    ensures put { take result into.new ≡ take at into.old ++ operand_bytes reg e.now }
    ensures kept { KeepsRest result into.old into.new }
{
    match e {
        Place::At(m) => put_memory_bytes(into, at, reg, m),
        Place::Reg(n) => put(into, at, modrm_byte(3, reg, *n)),
        Place::High(n) => put(
            into,
            at,
            modrm_byte(3, reg, register_number(Place::High(*n))),
        ),
    }
}

/// Does the index of r/m need a bit of REX?
#[tactic(auto, unfolding(erim_defs::specs::Encoding::Canonical::has_upper_index))]
pub fn has_upper_index(e: &Place) -> bool
    ensures { result ≡ has_upper_index e.now }
{
    match e {
        Place::At(Mem { index: Some(i), .. }) => is_upper(*i),
        _ => false,
    }
}

/// Does the base of r/m, or r/m itself, need a bit of REX?
#[tactic(auto, unfolding(erim_defs::specs::Encoding::Canonical::has_upper_base))]
pub fn has_upper_base(e: &Place) -> bool
    ensures { result ≡ has_upper_base e.now }
{
    match e {
        Place::At(
            Mem {
                base: Base::Reg(base),
                ..
            },
        ) => is_upper(*base),
        Place::Reg(n) => is_upper(*n),
        _ => false,
    }
}
