//! The state of a machine.

use erim_defs::{End, Escape, Keys};
use sys_calls::{Output, Threads};
use trusted_heap::Heap;

/// Pages, threads, keys, the trusted heap, output, and how the process ended.
#[derive(Drop)]
pub struct Machine<P> {
    pub pages: P,
    pub threads: Threads,
    pub keys: Keys,
    pub heap: Heap,
    pub output: Output,
    pub end: Option<End>,
    pub steps: u32,
    pub escape: Option<Escape>,
}
