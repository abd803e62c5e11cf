//! What operands of a width hold, read as numbers with and without sign.

ghost use Rattle.std.specs.Prelude.{◌≡◌, ◌^◌, ◌%◌, ◌<◌, FitsSigned};
ghost use Rattle.std.specs.Int.{cast_signed, w64};
ghost use Rattle.erim_defs.specs.Machine.Alu.{bits_of, is_negative, is_past_width, wrap};
ghost use Rattle.erim_defs.specs.Machine.Registers.{int_width};

use erim_defs::Width;

/// How many bits an operand has.
pub(crate) fn bits(w: Width) -> u32
    ensures { result ≡ bits_of (int_width w) }
{
    match w {
        Width::W1 => 8,
        Width::W4 => 32,
        Width::W8 => 64,
    }
}

/// The least number that is past the width.
pub(crate) fn modulus(w: Width) -> u128
    ensures { result ≡ 2 ^ bits_of (int_width w) }
{
    match w {
        Width::W1 => 1 << 8,
        Width::W4 => 1 << 32,
        Width::W8 => 1 << 64,
    }
}

/// The low bits of a number, as many as the width has.
pub(crate) fn truncate(w: Width, x: u128) -> u64
    ensures { result ≡ x % 2 ^ bits_of (int_width w) }
{
    match w {
        Width::W1 => (x % (1 << 8)) as u64,
        Width::W4 => (x % (1 << 32)) as u64,
        Width::W8 => (x % (1 << 64)) as u64,
    }
}

/// Is the top bit of an operand set?
pub(crate) fn is_negative(w: Width, x: u64) -> bool
    ensures { result ≡ is_negative (int_width w) x }
{
    match w {
        Width::W1 => x >= 1 << 7,
        Width::W4 => x >= 1 << 31,
        Width::W8 => x >= 1 << 63,
    }
}

/// An operand as a signed number, in two's complement.
pub(crate) fn signed_value(w: Width, x: u64) -> i128
    requires { x < 2 ^ bits_of (int_width w) }
    ensures value { result ≡ cast_signed (int_width w) x }
    ensures fits { FitsSigned w64 result }
{
    if is_negative(w, x) {
        i128::from(x) - modulus(w).cast_signed()
    } else {
        i128::from(x)
    }
}

/// Does a signed number not fit the width?
pub(crate) fn is_past_width(w: Width, z: i128) -> bool
    ensures { result ≡ is_past_width (int_width w) z }
{
    let half = modulus(w).cast_signed() / 2;
    z < -half || z >= half
}

/// What the width holds of a signed number.
pub(crate) fn wrap(w: Width, z: i128) -> u64
    ensures { result ≡ wrap (int_width w) z }
{
    truncate(w, z.cast_unsigned())
}
