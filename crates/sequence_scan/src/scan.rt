//! Which sequences stand in a code.

ghost use Rattle.std.specs.Prelude.{◌≡◌, ◌+◌, ◌<◌, ◌≤◌, ◌^◌, length};
ghost use Rattle.erim_defs.specs.Inspection.Code.{laid_at};
ghost use Rattle.erim_defs.specs.Inspection.Occurrence.{occurrence_at, IsFirstFrom};

use crate::bytes::byte_is;
use crate::wrpkru::wrpkru_at;
use crate::xrstor::xrstor_at;
use erim_defs::Found;

/// The sequence that begins at the place `place` of `code`, whose place 0 has the address `base`,
/// and lies wholly in it, if there is one. Both kinds begin with 0F, which few places have, so it
/// is asked first.
#[tactic(auto, unfolding(erim_defs::specs::Inspection::Occurrence::occurrence_at))]
pub fn sequence_at(code: &[u8], base: u64, place: usize) -> Option<Found>
    requires inside { place < length code.now }
    requires user { base + length code.now ≤ 2 ^ 47 }
    ensures { result ≡ occurrence_at (laid_at base code.now) (base + place) }
{
    if !byte_is(code, place, 0x0F) {
        return None;
    }
    wrpkru_at(code, base, place).or_else(|| xrstor_at(code, base, place))
}

/// The first sequence at or after the place `from` that lies wholly in `code`, whose place 0 has
/// the address `base`. Each place is asked.
pub fn next_sequence(code: &[u8], base: u64, from: usize) -> Option<Found>
    requires { base + length code.now ≤ 2 ^ 47 }
    ensures { IsFirstFrom (laid_at base code.now) (base + from) result }
{
    for place in from..code.len() {
        if let Some(found) = sequence_at(code, base, place) {
            return Some(found);
        }
    }
    None
}
