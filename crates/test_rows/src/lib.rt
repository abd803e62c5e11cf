//! Rows of worked examples as lines of text, for the crates of rows and tests: what `command_rows`,
//! `instruction_rows`, `word_rows`, `process_tests`, `runner_tests` and `rewriting_tests` read.
//!
//! `words` reads numbers and bytes, `file` the file that the lines of a row give: its bytes, or an
//! image to be laid out (`draft`), with other values of some fields (`fields`). Nothing here ends
//! the process: what isn't understood is a `RowFault`.
#![tactic(auto)]

mod draft;
mod fault;
mod fields;
mod file;
mod words;

pub use draft::Draft;
pub use fault::RowFault;
pub use file::{RowFile, image_bytes};
pub use words::{bytes_of, decimal, number, one_number, push_bytes, word};
