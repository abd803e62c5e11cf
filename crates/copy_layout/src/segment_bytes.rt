//! The bytes of the segment, with a candidate and zeros after.

ghost use Rattle.std.specs.Prelude.{◌≡◌, ◌++◌, replicate, slice_get};

/// The byte at a place of bytes, others after them, and zeros.
pub fn byte_of(front: &[u8], back: &[u8], zeros: u64, place: usize) -> Option<u8>
    ensures { result ≡ slice_get ((front.now ++ back.now) ++ replicate zeros 0) place }
{
    if place < front.len() {
        return Some(front[place]);
    }
    let behind = place - front.len();
    if behind < back.len() {
        return Some(back[behind]);
    }
    if ((behind - back.len()) as u64) < zeros {
        Some(0)
    } else {
        None
    }
}
