//! Which sequences of a code are unsafe.

ghost use Rattle.std.specs.Prelude.{◌≡◌, ◌+◌, ◌≤◌, ◌^◌, length};
ghost use Rattle.erim_defs.specs.Inspection.Code.{laid_at};
ghost use Rattle.erim_defs.specs.Inspection.Unsafe.{IsFirstUnsafe};

use crate::safe::is_safe;
use erim_defs::{Found, Trust};
use sequence_scan::next_sequence;

/// The first unsafe sequence at or after the place `from` of the code, whose place 0 has the
/// address `base`; none where `from` is past the end. Each sequence before it is asked once.
pub fn next_unsafe(code: &[u8], base: u64, from: usize, trust: &Trust) -> Option<Found>
    requires { base + length code.now ≤ 2 ^ 47 }
    ensures { IsFirstUnsafe trust.now (laid_at base code.now) (base + from)
        (base + length code.now) result }
{
    let mut place = from;
    'scan: while let Some(found) = next_sequence(code, base, place) {
        if !is_safe(code, base, &found, trust) {
            return Some(found);
        }
        place = (found.at - base) as usize + 1;
    }
    None
}
