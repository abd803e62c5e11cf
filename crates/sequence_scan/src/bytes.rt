//! The bytes of a code, by their places.

ghost use Rattle.std.specs.Prelude.{◌≡◌, ◌+◌, ℕ};
ghost use Rattle.erim_defs.specs.Inspection.Code.{laid_at, has};

/// The byte at a place of the code, or none after its end.
#[tactic(auto, using(erim_defs::proofs::CodeLemmas::laid_at_place))]
pub fn byte_at(code: &[u8], place: usize) -> Option<u8>
    ensures { (base a : ℕ) → a ≡ base + place → laid_at base code.now a ≡ result }
{
    code.get(place).copied()
}

/// Is the byte at a place of the code there, and this one?
pub fn byte_is(code: &[u8], place: usize, byte: u8) -> bool
    ensures { (base a : ℕ) → a ≡ base + place → has (laid_at base code.now a) byte ≡ result }
{
    byte_at(code, place) == Some(byte)
}
