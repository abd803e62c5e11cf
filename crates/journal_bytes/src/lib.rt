//! Journals as bytes: `write_journal` makes those of a journal, and `read_journal` makes a journal
//! of bytes, or says their first fault.
//!
//! The bytes are `journal_text` of `erim_defs`' `Journal`, and the fault is `journal_fault` there.
//! A run saves its journal by the one, and what goes on from a saved journal reads it by the other.
//! Both take time in the length of the bytes alone. Faults are asked in the order of the definition
//! (`faults`), of fields (`field`) and of entries (`entries`), and no memory is asked for before
//! the last of them; then the entries have their room at once.
#![tactic(auto)]

mod entries;
mod faults;
mod field;
mod journal;
mod reader;
mod writer;

pub use erim_defs::{Entry, JournalFault};
pub use journal::Journal;
pub use reader::read_journal;
pub use writer::write_journal;
