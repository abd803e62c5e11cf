//! Finds the sequences of bytes that write PKRU in a code, at any byte offset.
//!
//! `sequence_at` gives the one at a place, WRPKRU or XRSTOR, and `next_sequence` the first one from
//! a place on; `safe_occurrence` says which are safe. They meet `occurrence_at` of `erim_defs`;
//! bytes after the end of the code are absent.
#![tactic(auto)]

mod bytes;
mod scan;
mod wrpkru;
mod xrstor;

pub use scan::{next_sequence, sequence_at};
