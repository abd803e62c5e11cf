//! The texts that are printed of images, processes and runs.
//!
//! `report` is the report of a process that entries led to, `soak_line` the line of a run of a made
//! image and `gen_line` that of one that is saved; `inspection` and `inspect_text` say the unsafe
//! list of an image. Each is exactly its text in `erim_defs`' `specs/Output`.
#![tactic(auto)]

mod ends;
mod listing;
mod run_report;
mod soak;
mod texts;

pub use listing::{UnsafeList, inspect_text, inspection};
pub use run_report::report;
pub use soak::{gen_line, soak_line};
pub use texts::{address_text, kind_text};
