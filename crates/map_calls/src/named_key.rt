//! The key that a call names.

ghost use Rattle.std.specs.Prelude.{◌≡◌, ◌<◌};
ghost use Rattle.map_calls.specs.Keys.{NamesKey, is_held};

use erim_defs::Keys;
use erim_defs::linux::{ANY_KEY, EINVAL, KEYS};

/// Is a key allocated?
fn is_held(keys: &Keys, key: u64) -> bool
    ensures { result ≡ is_held keys.now key }
{
    key < u64::from(KEYS) && (keys.taken >> key as u32) % 2 == 1
}

/// The key that a number names by its low 32 bits, or none where it leaves the keys of pages. `Err`
/// is EINVAL, where the key isn't allocated.
pub(crate) fn named_key(keys: &Keys, number: u64) -> Result<Option<u8>, u16>
    ensures { NamesKey keys.now number result }
{
    let key = number % (1 << 32);
    if key == ANY_KEY {
        return Ok(None);
    }
    if !is_held(keys, key) {
        return Err(EINVAL);
    }
    Ok(Some(key as u8))
}
