//! The system calls on pages and protection keys: mmap(2), munmap(2), mprotect(2), pkeys(7).
//!
//! Each is the row of its name in `erim_defs/specs/Machine/MapCalls`. An error is its number, which
//! the caller negates. A range is walked by its mapped pages alone.
#![tactic(auto)]

mod guards;
mod keys;
mod mapping;
mod named_key;
mod protection;
mod range;
mod rights;
mod unmapping;
mod walk;

pub use guards::is_pinned;
pub use keys::{pkey_alloc, pkey_free};
pub use mapping::mmap;
pub use protection::{mprotect, pkey_mprotect};
pub use unmapping::munmap;
