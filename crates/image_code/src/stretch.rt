//! A stretch of code: the bytes of adjoining pages.

ghost use Rattle.std.specs.Prelude.{◌≡◌, ◌+◌, ◌*◌, ◌%◌, ◌≤◌, ◌^◌, IfOk, length};

use crate::ranges::PageBounds;
use erim_defs::page::PAGE_SIZE;
use erim_defs::{Found, NoMemory, Trust};
use safe_occurrence::next_unsafe;
use std::alloc::Global;

/// The bytes of adjoining pages of user memory.
#[derive(Drop)]
pub struct Stretch {
    /// The address of the first.
    pub base: u64,
    /// All of them.
    pub bytes: Vec<u8>,
    ghost user: { base + length bytes.items ≤ 2 ^ 47 },
    ghost paged: { base % 4096 ≡ 0 },
    ghost whole: { length bytes.items % 4096 ≡ 0 },
}

impl Stretch {
    ghost use Rattle.image_code.specs.Ranges.{LaysRange};
    ghost use Rattle.image_code.specs.Stretches.{IsWithin, stretch_code, stretch_end};
    ghost use Rattle.erim_defs.specs.Inspection.Unsafe.{IsFirstUnsafe};

    /// Its pages.
    pub fn pages(&self) -> PageBounds
        ensures first { 4096 * result.first ≡ self.now.base }
        ensures end { 4096 * result.end ≡ stretch_end self.now }
    {
        PageBounds {
            first: self.base / PAGE_SIZE,
            end: (self.base + self.bytes.len() as u64) / PAGE_SIZE,
        }
    }

    /// The bytes of some of its pages.
    pub fn part(&self, alloc: Global, pages: &PageBounds) -> Result<Vec<u8>, NoMemory>
        requires { IsWithin self.now pages.now }
        ensures { IfOk result (λ part. LaysRange (stretch_code self.now) pages.now part.items) }
    {
        let start = (PAGE_SIZE * pages.first - self.base) as usize;
        let end = (PAGE_SIZE * pages.end - self.base) as usize;
        Ok(Vec::from_slice(alloc, &self.bytes[start..end])?)
    }

    /// The byte at an address, where it has one.
    pub fn byte_at(&self, address: u64) -> Option<u8>
        ensures { result ≡ stretch_code self.now address }
    {
        let place = address.checked_sub(self.base)?;
        self.bytes.get(place as usize).copied()
    }

    /// The first sequence from an address on that is unsafe by the bytes of the stretch alone.
    pub fn next_unsafe(&self, trust: &Trust, from: u64) -> Option<Found>
        ensures { IsFirstUnsafe trust.now (stretch_code self.now) from (stretch_end self.now)
            result }
    {
        let place = from.saturating_sub(self.base) as usize;
        next_unsafe(self.bytes.as_slice(), self.base, place, trust)
    }
}
