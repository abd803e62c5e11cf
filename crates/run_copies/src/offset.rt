//! Offsets from an address to another.

ghost use Rattle.std.specs.Prelude.{◌≡◌};
ghost use Rattle.erim_defs.specs.Rewriting.Copies.{offset_to};
ghost use Rattle.run_copies.specs.Spelling.{near_number};

/// The offset from an address to another, signed.
pub fn offset_to(from: u64, to: u64) -> i64
    ensures { result ≡ offset_to from to }
{
    to.wrapping_sub(from).cast_signed()
}

/// A number, where it has 32 bits.
pub fn near_number(z: i64) -> Option<i32>
    ensures { result ≡ near_number z }
{
    i32::try_from(z).ok()
}
