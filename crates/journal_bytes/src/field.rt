//! The fields of a journal's header.

ghost use Rattle.std.specs.Prelude.{◌≡◌, ◌≤◌, length};
ghost use Rattle.erim_defs.specs.Output.Journal.{budget_of, count_of, frames_of};

use erim_defs::field::u32_at;

/// How many bytes stand before the entries.
pub(crate) const HEADER_SIZE: usize = 20;

/// How many an entry has.
pub(crate) const ENTRY_SIZE: usize = 8;

const BUDGET: usize = 8;

const FRAMES: usize = 12;

const COUNT: usize = 16;

/// How many steps the run could make.
pub(crate) fn budget_of(bytes: &[u8]) -> u32
    requires { 20 ≤ length bytes.now }
    ensures { result ≡ budget_of bytes.now }
{
    u32_at(bytes, BUDGET)
}

/// How many pages could be mapped in it.
pub(crate) fn frames_of(bytes: &[u8]) -> u32
    requires { 20 ≤ length bytes.now }
    ensures { result ≡ frames_of bytes.now }
{
    u32_at(bytes, FRAMES)
}

/// How many entries there are to be.
pub(crate) fn count_of(bytes: &[u8]) -> u32
    requires { 20 ≤ length bytes.now }
    ensures { result ≡ count_of bytes.now }
{
    u32_at(bytes, COUNT)
}
