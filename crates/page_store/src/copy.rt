//! A copy of a page.

use erim_defs::Rights;

/// A page as it was when it was copied.
#[derive(Clone, Copy)]
pub struct PageCopy {
    /// Its number: its address is 4096 times that.
    pub page: u64,
    /// None where it wasn't mapped.
    pub rights: Option<Rights>,
    /// Its bytes, which are 0 where it wasn't mapped.
    pub bytes: [u8; 4096],
}
