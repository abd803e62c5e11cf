//! The fields of files: little-endian numbers at a place, and their bytes.

ghost use Rattle.std.specs.Prelude.{◌≡◌, ◌+◌, ◌≤◌, length};
ghost use Rattle.std.specs.Int.{w16, w32, w64, to_le_bytes};
ghost use Rattle.erim_defs.specs.Inspection.Image.{number_at};

use byteorder::{ByteOrder, LittleEndian};

/// The number in the two bytes at a place.
#[tactic(auto, unfolding(crate::specs::Inspection::Image::number_at))]
pub fn u16_at(bytes: &[u8], place: usize) -> u16
    requires { place + 2 ≤ length bytes.now }
    ensures { result ≡ number_at bytes.now place 2 }
{
    LittleEndian::read_u16(&bytes[place..])
}

/// The number in the four bytes at a place.
#[tactic(auto, unfolding(crate::specs::Inspection::Image::number_at))]
pub fn u32_at(bytes: &[u8], place: usize) -> u32
    requires { place + 4 ≤ length bytes.now }
    ensures { result ≡ number_at bytes.now place 4 }
{
    LittleEndian::read_u32(&bytes[place..])
}

/// The number in the eight bytes at a place.
#[tactic(auto, unfolding(crate::specs::Inspection::Image::number_at))]
pub fn u64_at(bytes: &[u8], place: usize) -> u64
    requires { place + 8 ≤ length bytes.now }
    ensures { result ≡ number_at bytes.now place 8 }
{
    LittleEndian::read_u64(&bytes[place..])
}

/// The two bytes of a number.
pub fn u16_bytes(number: u16) -> [u8; 2]
    ensures { result ≡ to_le_bytes w16 number }
{
    let mut bytes = [0; 2];
    LittleEndian::write_u16(&mut bytes, number);
    bytes
}

/// The four bytes of a number.
pub fn u32_bytes(number: u32) -> [u8; 4]
    ensures { result ≡ to_le_bytes w32 number }
{
    let mut bytes = [0; 4];
    LittleEndian::write_u32(&mut bytes, number);
    bytes
}

/// The eight bytes of a number.
pub fn u64_bytes(number: u64) -> [u8; 8]
    ensures { result ≡ to_le_bytes w64 number }
{
    let mut bytes = [0; 8];
    LittleEndian::write_u64(&mut bytes, number);
    bytes
}
