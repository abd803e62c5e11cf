//! Takes bytes from the front.

ghost use Rattle.std.specs.Prelude.{◌≡◌, ◌<◌};
ghost use Rattle.erim_defs.specs.Encoding.Parts.{signed_value};
ghost use Rattle.erim_defs.specs.Encoding.Cursor.{byte_at, chunk_at};
ghost use Rattle.x86_decode.specs.Gives.{Gives};

use erim_defs::grammar::Stop;

/// The first byte, or `stop`.
pub fn byte_at(bytes: &[u8], stop: Stop) -> Result<(u8, &[u8]), Stop>
    ensures { Gives (λ x. (x.0, x.1.now)) result (byte_at stop bytes.now) }
{
    match bytes {
        [] => Err(stop),
        [first, rest @ ..] => Ok((*first, rest)),
    }
}

/// The first `n` bytes. `least` is what an instruction needs after them.
pub fn chunk_at(bytes: &[u8], n: u8, least: u8) -> Result<(&[u8], &[u8]), Stop>
    requires n { n < 16 }
    requires least { least < 64 }
    ensures { Gives (λ x. (x.0.now, x.1.now)) result (chunk_at n least bytes.now) }
{
    let size = n as usize;
    if bytes.len() < size {
        return Err(Stop::Short(n - bytes.len() as u8 + least));
    }
    Ok(bytes.split_at(size))
}

/// The value of no byte, one or four, with a sign.
pub fn signed_value(bytes: &[u8]) -> i32
    ensures { result ≡ signed_value bytes.now }
{
    match bytes {
        [b] => b.cast_signed() as i32,
        [a, b, c, d] => i32::from_le_bytes([*a, *b, *c, *d]),
        _ => 0,
    }
}
