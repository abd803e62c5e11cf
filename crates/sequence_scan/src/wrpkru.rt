//! WRPKRU: `0F 01 EF`.

ghost use Rattle.std.specs.Prelude.{◌≡◌, ◌+◌, ◌<◌, ◌≤◌, ◌^◌, length};
ghost use Rattle.erim_defs.specs.Inspection.Code.{laid_at};
ghost use Rattle.erim_defs.specs.Inspection.Occurrence.{wrpkru_at};

use crate::bytes::byte_is;
use erim_defs::{Found, SeqKind};

/// The WRPKRU whose first byte, 0F, is at a place of the code that begins at `base`.
pub fn wrpkru_at(code: &[u8], base: u64, place: usize) -> Option<Found>
    requires inside { place < length code.now }
    requires user { base + length code.now ≤ 2 ^ 47 }
    ensures { result ≡ wrpkru_at (laid_at base code.now) (base + place) }
{
    if byte_is(code, place + 1, 0x01) && byte_is(code, place + 2, 0xEF) {
        Some(Found {
            at: base + place as u64,
            len: 3,
            kind: SeqKind::Wrpkru,
        })
    } else {
        None
    }
}
