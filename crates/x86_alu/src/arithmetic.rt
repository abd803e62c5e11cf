//! Arithmetic and logic, with the flags that they set.

ghost use Rattle.std.specs.Prelude.{◌≡◌, ◌^◌, ◌<◌, ◌≤◌};
ghost use Rattle.erim_defs.specs.Machine.Alu.{bits_of, flags_of_result, carry_of, sum_of};
ghost use Rattle.erim_defs.specs.Machine.Alu.{difference_of, by_bits, alu, imul, keeping_carry};
ghost use Rattle.erim_defs.specs.Machine.Alu.{unary};
ghost use Rattle.erim_defs.specs.Machine.Registers.{int_width};

use crate::width::{is_negative, is_past_width, modulus, signed_value, truncate, wrap};
use erim_defs::{AluOp, Flags, Outcome, UnaryOp, Width};

/// ZF, SF and PF as a result sets them, beside its carry and overflow. PF looks at the low byte.
pub(crate) fn with_flags(w: Width, value: u64, carry: bool, overflow: bool) -> Flags
    ensures { result ≡ flags_of_result (int_width w) value carry overflow }
{
    Flags {
        cf: carry,
        pf: (value % 256).count_ones() % 2 == 0,
        zf: value == 0,
        sf: is_negative(w, value),
        of: overflow,
    }
}

/// The carry that ADC adds and SBB subtracts.
fn carry_of(flags: Flags) -> u8
    ensures { result ≡ carry_of flags }
{
    if flags.cf { 1 } else { 0 }
}

/// The sum of two operands and a carry.
fn sum(w: Width, a: u64, b: u64, carry: u8) -> Outcome
    requires a { a < 2 ^ bits_of (int_width w) }
    requires b { b < 2 ^ bits_of (int_width w) }
    ensures outcome { result ≡ sum_of (int_width w) a b carry }
    ensures fits { result.value < 2 ^ bits_of (int_width w) }
{
    let whole = u128::from(a) + u128::from(b) + u128::from(carry);
    let value = truncate(w, whole);
    let overflow = is_past_width(
        w,
        signed_value(w, a) + signed_value(w, b) + i128::from(carry),
    );
    Outcome {
        value,
        flags: with_flags(w, value, whole >= modulus(w), overflow),
    }
}

/// The difference of two operands, less a borrow.
fn difference(w: Width, a: u64, b: u64, borrow: u8) -> Outcome
    requires a { a < 2 ^ bits_of (int_width w) }
    requires b { b < 2 ^ bits_of (int_width w) }
    ensures outcome { result ≡ difference_of (int_width w) a b borrow }
    ensures fits { result.value < 2 ^ bits_of (int_width w) }
{
    let bound = modulus(w);
    let whole = u128::from(a) + (bound - u128::from(b)) + (bound - u128::from(borrow));
    let value = truncate(w, whole);
    let carry = u128::from(a) < u128::from(b) + u128::from(borrow);
    let overflow = is_past_width(
        w,
        signed_value(w, a) - signed_value(w, b) - i128::from(borrow),
    );
    Outcome {
        value,
        flags: with_flags(w, value, carry, overflow),
    }
}

/// A result of AND, OR or XOR.
fn by_bits(w: Width, value: u64) -> Outcome
    ensures { result ≡ by_bits (int_width w) value }
{
    Outcome {
        value,
        flags: with_flags(w, value, false, false),
    }
}

/// Arithmetic and logic of two operands. The value of CMP is its first operand.
#[tactic(auto, unfolding(erim_defs::specs::Machine::Alu::alu))]
pub fn alu(op: AluOp, w: Width, a: u64, b: u64, flags: Flags) -> Outcome
    requires a { a < 2 ^ bits_of (int_width w) }
    requires b { b < 2 ^ bits_of (int_width w) }
    ensures outcome { result ≡ alu op (int_width w) a b flags }
    ensures fits { result.value < 2 ^ bits_of (int_width w) }
{
    match op {
        AluOp::Add => sum(w, a, b, 0),
        AluOp::Or => by_bits(w, a | b),
        AluOp::Adc => sum(w, a, b, carry_of(flags)),
        AluOp::Sbb => difference(w, a, b, carry_of(flags)),
        AluOp::And => by_bits(w, a & b),
        AluOp::Sub => difference(w, a, b, 0),
        AluOp::Xor => by_bits(w, a ^ b),
        AluOp::Cmp => Outcome {
            value: a,
            ..difference(w, a, b, 0)
        },
    }
}

/// The signed product. CF and OF say that it doesn't fit the width.
#[tactic(auto, unfolding(erim_defs::specs::Machine::Alu::imul))]
pub fn imul(w: Width, a: u64, b: u64, flags: Flags) -> Outcome
    requires a { a < 2 ^ bits_of (int_width w) }
    requires b { b < 2 ^ bits_of (int_width w) }
    ensures outcome { result ≡ imul (int_width w) a b flags }
    ensures fits { result.value < 2 ^ bits_of (int_width w) }
{
    let product = signed_value(w, a) * signed_value(w, b);
    let past = is_past_width(w, product);
    Outcome {
        value: wrap(w, product),
        flags: Flags {
            cf: past,
            of: past,
            ..flags
        },
    }
}

/// An outcome that leaves CF as it was.
fn keeping_carry(flags: Flags, outcome: Outcome) -> Outcome
    ensures { result ≡ keeping_carry flags outcome }
{
    Outcome {
        value: outcome.value,
        flags: Flags {
            cf: flags.cf,
            ..outcome.flags
        },
    }
}

/// NOT, NEG, INC and DEC.
#[tactic(auto, unfolding(erim_defs::specs::Machine::Alu::unary))]
pub fn unary(op: UnaryOp, w: Width, a: u64, flags: Flags) -> Outcome
    requires { a < 2 ^ bits_of (int_width w) }
    ensures outcome { result ≡ unary op (int_width w) a flags }
    ensures fits { result.value < 2 ^ bits_of (int_width w) }
{
    match op {
        UnaryOp::Not => Outcome {
            value: truncate(w, modulus(w) - 1 - u128::from(a)),
            flags,
        },
        UnaryOp::Neg => difference(w, 0, a, 0),
        UnaryOp::Inc => keeping_carry(flags, sum(w, a, 1, 0)),
        UnaryOp::Dec => keeping_carry(flags, difference(w, a, 1, 0)),
    }
}
