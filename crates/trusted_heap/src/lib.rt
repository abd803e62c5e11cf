//! The trusted heap: the calls talloc and tfree, which give blocks of memory to the trusted part
//! and take them back.
//!
//! Both are the rows of their names in `erim_defs/specs/Machine/HeapCalls`. An error is its number,
//! which the caller negates. A block takes the lowest place where it fits: in each range of heap
//! the search walks once over the live blocks, which stand by rising address.
#![tactic(auto)]

mod blocks;
mod fit;
mod heap;

pub use heap::Heap;
