//! Writes bytes and immediates into the buffer, each after what is there.

ghost use Rattle.std.specs.Prelude.{◌≡◌, ◌<◌, ◌≤◌, ◌+◌, ◌++◌, ◌∷◌, ℕ, [], take, get_or};
ghost use Rattle.erim_defs.specs.Encoding.Canonical.{four_bytes, one_byte, eight_bytes, fits_byte};
ghost use Rattle.erim_defs.specs.Encoding.Canonical.{width_bytes, shortest_bytes};
ghost use Rattle.x86_encode.specs.Buffer.{KeepsRest};

use erim_defs::Width;

/// A byte.
pub fn put(into: &mut [u8; 15], at: u8, b: u8) -> u8
    requires { at < 15 }
    ensures next { result ≡ at + 1 }
    ensures put { take result into.new ≡ take at into.old ++ (b ∷ []) }
    ensures kept { KeepsRest result into.old into.new }
{
    into[at as usize] = b;
    at + 1
}

/// An immediate or displacement in four bytes.
#[tactic(auto, unfolding(erim_defs::specs::Encoding::Canonical::four_bytes))]
pub fn put_four(into: &mut [u8; 15], at: u8, z: i32) -> u8
    requires { at ≤ 11 }
    ensures next { result ≡ at + 4 }
    ensures put { take result into.new ≡ take at into.old ++ four_bytes z }
    ensures kept { KeepsRest result into.old into.new }
{
    let [a, b, c, d] = z.to_le_bytes();
    let at = put(into, at, a);
    let at = put(into, at, b);
    let at = put(into, at, c);
    put(into, at, d)
}

/// Its lowest byte.
#[tactic(auto, unfolding(erim_defs::specs::Encoding::Canonical::four_bytes, erim_defs::specs::Encoding::Canonical::one_byte))]
pub fn put_one(into: &mut [u8; 15], at: u8, z: i32) -> u8
    requires { at < 15 }
    ensures next { result ≡ at + 1 }
    ensures put { take result into.new ≡ take at into.old ++ one_byte z }
    ensures kept { KeepsRest result into.old into.new }
{
    let [low, _, _, _] = z.to_le_bytes();
    put(into, at, low)
}

/// An immediate in eight bytes.
#[tactic(auto, unfolding(erim_defs::specs::Encoding::Canonical::eight_bytes))]
pub fn put_eight(into: &mut [u8; 15], at: u8, n: u64) -> u8
    requires { at ≤ 7 }
    ensures next { result ≡ at + 8 }
    ensures put { take result into.new ≡ take at into.old ++ eight_bytes n }
    ensures kept { KeepsRest result into.old into.new }
{
    let [a, b, c, d, e, f, g, h] = n.to_le_bytes();
    let at = put(into, at, a);
    let at = put(into, at, b);
    let at = put(into, at, c);
    let at = put(into, at, d);
    let at = put(into, at, e);
    let at = put(into, at, f);
    let at = put(into, at, g);
    put(into, at, h)
}

/// Is one byte enough?
#[tactic(auto, unfolding(erim_defs::specs::Encoding::Canonical::fits_byte))]
pub fn fits_byte(z: i32) -> bool
    ensures { result ≡ fits_byte z }
{
    -128 <= z && z <= 127
}

/// An immediate in one byte where it fits, else in four.
#[tactic(auto, unfolding(erim_defs::specs::Encoding::Canonical::shortest_bytes))]
pub fn put_shortest(into: &mut [u8; 15], at: u8, z: i32) -> u8
    requires { at ≤ 11 }
    ensures next { at < result }
    ensures fits { result ≤ at + 4 }
    ensures put { take result into.new ≡ take at into.old ++ shortest_bytes z }
    ensures kept { KeepsRest result into.old into.new }
{
    if fits_byte(z) {
        put_one(into, at, z)
    } else {
        put_four(into, at, z)
    }
}

/// An immediate for operands of a width.
#[tactic(auto, unfolding(erim_defs::specs::Encoding::Canonical::width_bytes))]
pub fn put_of_width(into: &mut [u8; 15], at: u8, w: Width, z: i32) -> u8
    requires { at ≤ 11 }
    ensures next { at < result }
    ensures fits { result ≤ at + 4 }
    ensures put { take result into.new ≡ take at into.old ++ width_bytes w z }
    ensures kept { KeepsRest result into.old into.new }
{
    match w {
        Width::W1 => put_one(into, at, z),
        Width::W4 => put_four(into, at, z),
        Width::W8 => put_four(into, at, z),
    }
}
