//! Says which sequences that write PKRU are safe in a code, and finds the unsafe ones.
//!
//! `is_safe` says whether an entry of the trusted part, after WRPKRU, or the check of its kind
//! follows a sequence, and `next_unsafe` gives the first unsafe one from a place on. They meet
//! `is_safe` and `unsafe_at` of `erim_defs`; bytes after the end of the code are absent, and
//! contradict nothing.
#![tactic(auto)]

mod safe;
mod scan;

pub use safe::is_safe;
pub use scan::next_unsafe;
