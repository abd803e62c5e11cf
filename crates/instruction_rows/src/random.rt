//! Canonical encodings of byte strings that are spread like random ones.

use crate::reading::{is_canonical, write_canonical};
use anyhow::Result;

/// How many byte strings there are.
const COUNT: u32 = 3000;

/// The number after another one, of some that are spread like random ones.
fn next(number: u64) -> u64 {
    number
        .wrapping_mul(6_364_136_223_846_793_005)
        .wrapping_add(1_442_695_040_888_963_407)
}

/// The next byte string.
fn next_bytes(number: &mut u64) -> [u8; 15] {
    let mut bytes = [0; 15];
    for byte in &mut bytes {
        *number = next(*number);
        *byte = (*number >> 56) as u8;
    }
    bytes
}

/// Is the canonical encoding of each its own, whatever comes after it? Prints those that aren't,
/// or else all of them where asked.
pub fn check_random<R: Print + AllocGlobal>(rt: &R, is_printing: bool) -> Result<bool> {
    let mut is_right = true;
    let mut number = 1;
    for _string in 0..COUNT {
        let bytes = next_bytes(&mut number);
        let mut into = [0; 15];
        let len = usize::from(write_canonical(&bytes, &mut into));
        if len > 0 {
            let is_own = is_canonical(&into, &into[..len]);
            if is_printing || !is_own {
                println!(rt;
                    "spelling {}",
                    hex::encode(rt.alloc(), &into[..len])?.as_str()
                )?;
            }
            is_right = is_right && is_own;
        }
    }
    println!(rt; "random: {COUNT} rows")?;
    Ok(is_right)
}
