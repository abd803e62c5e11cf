//! Shifts, and tests of bits.

ghost use Rattle.std.specs.Prelude.{◌≡◌, ◌^◌, ◌<◌, ◌≤◌};
ghost use Rattle.std.specs.Int.{cast_signed};
ghost use Rattle.erim_defs.specs.Bits.{has_bit};
ghost use Rattle.erim_defs.specs.Machine.Alu.{bits_of, differ, shift_count, shift_result};
ghost use Rattle.erim_defs.specs.Machine.Alu.{signed_bit};
ghost use Rattle.erim_defs.specs.Machine.Alu.{shift_carry, shift_overflow, shift_by, shift, bt};
ghost use Rattle.erim_defs.specs.Machine.Registers.{int_width};

use crate::arithmetic::with_flags;
use crate::width::{bits, is_negative, signed_value, truncate, wrap};
use erim_defs::{Flags, Outcome, ShiftOp, Width};

/// Is bit `k` of a number set?
fn has_bit(n: u64, k: u32) -> bool
    requires { k < 64 }
    ensures { result ≡ has_bit n k }
{
    (n >> k) % 2 == 1
}

/// Is bit `k` of a signed number set? It goes on with its sign.
fn signed_bit(z: i128, k: u32) -> bool
    requires { k < 64 }
    ensures { result ≡ signed_bit z k }
{
    (z >> k).cast_unsigned() % 2 == 1
}

/// The low 6 bits of a count at 8 bytes, else the low 5.
fn shift_count(w: Width, n: u8) -> u32
    ensures { result ≡ shift_count (int_width w) n }
{
    match w {
        Width::W8 => u32::from(n % 64),
        _ => u32::from(n % 32),
    }
}

/// The operand shifted. SAR rounds down.
fn shift_result(op: ShiftOp, w: Width, a: u64, n: u32) -> u64
    requires a { a < 2 ^ bits_of (int_width w) }
    requires n { n < 64 }
    ensures value { result ≡ shift_result op (int_width w) a n }
    ensures fits { result < 2 ^ bits_of (int_width w) }
{
    match op {
        ShiftOp::Shl => truncate(w, u128::from(a) << n),
        ShiftOp::Shr => a >> n,
        ShiftOp::Sar => wrap(w, signed_value(w, a) >> n),
    }
}

/// The bit that went last. SHL and SHR leave CF as it was where they shift by the width and more.
fn shift_carry(op: ShiftOp, w: Width, a: u64, n: u32, cf: bool) -> bool
    requires a { a < 2 ^ bits_of (int_width w) }
    requires positive { 0 < n }
    requires below { n < 64 }
    ensures { result ≡ shift_carry op (int_width w) a n cf }
{
    match op {
        ShiftOp::Shl if n < bits(w) => has_bit(a, bits(w) - n),
        ShiftOp::Shr if n < bits(w) => has_bit(a, n - 1),
        ShiftOp::Sar => signed_bit(signed_value(w, a), n - 1),
        _ => cf,
    }
}

/// The overflow of a shift by 1 bit.
fn shift_overflow(op: ShiftOp, w: Width, a: u64, value: u64, carry: bool) -> bool
    ensures { result ≡ shift_overflow op (int_width w) a value carry }
{
    match op {
        ShiftOp::Shl => is_negative(w, value) != carry,
        ShiftOp::Shr => is_negative(w, a),
        ShiftOp::Sar => false,
    }
}

/// A shift by 1 bit or more.
fn shift_by(op: ShiftOp, w: Width, a: u64, n: u32, flags: Flags) -> Outcome
    requires a { a < 2 ^ bits_of (int_width w) }
    requires positive { 0 < n }
    requires below { n < 64 }
    ensures outcome { result ≡ shift_by op (int_width w) a n flags }
    ensures fits { result.value < 2 ^ bits_of (int_width w) }
{
    let value = shift_result(op, w, a, n);
    let carry = shift_carry(op, w, a, n, flags.cf);
    let overflow = if n == 1 {
        shift_overflow(op, w, a, value, carry)
    } else {
        flags.of
    };
    Outcome {
        value,
        flags: with_flags(w, value, carry, overflow),
    }
}

/// SHL, SHR and SAR. A shift by 0 bits changes no flag.
#[tactic(auto, unfolding(erim_defs::specs::Machine::Alu::shift))]
pub fn shift(op: ShiftOp, w: Width, a: u64, n: u8, flags: Flags) -> Outcome
    requires { a < 2 ^ bits_of (int_width w) }
    ensures outcome { result ≡ shift op (int_width w) a n flags }
    ensures fits { result.value < 2 ^ bits_of (int_width w) }
{
    match shift_count(w, n) {
        0 => Outcome { value: a, flags },
        count => shift_by(op, w, a, count, flags),
    }
}

/// BT: CF is the bit of this number, which is taken by the width.
#[tactic(auto, unfolding(erim_defs::specs::Machine::Alu::bt))]
pub fn bt(w: Width, a: u64, bit: u8, flags: Flags) -> Flags
    ensures { result ≡ bt (int_width w) a bit flags }
{
    Flags {
        cf: has_bit(a, u32::from(bit) % bits(w)),
        ..flags
    }
}
