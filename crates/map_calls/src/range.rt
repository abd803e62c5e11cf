//! Ranges of pages.

ghost use Rattle.std.specs.Prelude.{◌≡◌, ◌+◌, ◌≤◌, ◌^◌, ◌&&◌, nat_le, nat_lt};

use erim_defs::linux::EINVAL;
use erim_defs::page::{PAGE_SIZE, USER_END_PAGE};

/// A range of pages of user memory.
#[derive(Clone, Copy)]
pub(crate) struct UserRange {
    pub(crate) first: u64,
    pub(crate) count: u64,
    ghost low: { first + count ≤ 2 ^ 35 },
}

impl UserRange {
    ghost use Rattle.erim_defs.specs.Machine.MapCalls.{any_page};
    ghost use Rattle.map_calls.specs.Ranges.{Covers, page_range};

    /// The pages that a given number of bytes from an address on cover. `Err` is EINVAL, where the
    /// address isn't that of a page or they end past user memory.
    pub(crate) fn covering(addr: u64, len: u64) -> Result<UserRange, u16>
        ensures { Covers addr len result }
    {
        let first = addr / PAGE_SIZE;
        let count = len.div_ceil(PAGE_SIZE);
        if addr % PAGE_SIZE != 0 || first + count > USER_END_PAGE {
            return Err(EINVAL);
        }
        Ok(UserRange { first, count })
    }

    /// The page after the last.
    pub(crate) fn end(&self) -> u64
        ensures end { result ≡ self.now.first + self.now.count }
        ensures low { result ≤ 2 ^ 35 }
    {
        self.first + self.count
    }

    /// Has it a page from one on, up to an end?
    pub(crate) fn meets(&self, low: u64, end: u64) -> bool
        ensures { result ≡ any_page (page_range self.now) (λ q. nat_le low q && nat_lt q end) }
    {
        low.max(self.first) < end.min(self.end())
    }
}
