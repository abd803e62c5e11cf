//! The fields of an image's file header (ELF-64, "File header").

ghost use Rattle.std.specs.Prelude.{◌≡◌, ◌≤◌, length};
ghost use Rattle.erim_defs.specs.Inspection.Image.{entry_point, header_count, table_place};

use erim_defs::elf::{E_ENTRY, E_PHNUM, E_PHOFF};
use erim_defs::field::{u16_at, u64_at};

/// The address at which the program starts (e_entry).
pub(crate) fn entry_point(bytes: &[u8]) -> u64
    requires { 64 ≤ length bytes.now }
    ensures { result ≡ entry_point bytes.now }
{
    u64_at(bytes, E_ENTRY)
}

/// The place of the first program header (e_phoff).
pub(crate) fn table_place(bytes: &[u8]) -> u64
    requires { 64 ≤ length bytes.now }
    ensures { result ≡ table_place bytes.now }
{
    u64_at(bytes, E_PHOFF)
}

/// The number of program headers (e_phnum).
pub(crate) fn header_count(bytes: &[u8]) -> u32
    requires { 64 ≤ length bytes.now }
    ensures { result ≡ header_count bytes.now }
{
    u32::from(u16_at(bytes, E_PHNUM))
}
