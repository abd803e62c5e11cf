//! The types that several crates share, and in `specs/` the definitions that all contracts cite.
//!
//! The definitions stand in folders by what rests on them: `Inspection` (codes, the trusted part,
//! safe and unsafe sequences, images), `Encoding` (the grammar of instructions and their notation),
//! `Machine` (pages, steps, the start, replays, isolation and what each step is held to), `Output`
//! (reports, journals, generated images) and `Rewriting` (regions, their copies, the new file).
//! `definition_rows` computes them on rows with values from outside; `proofs/` holds the lemmas that
//! two crates or more need, but for those on encoding, which are in `encoding_laws`.
//!
//! Every other crate uses this one. Of its functions `one_journal` is a law (the bytes of a journal
//! determine it), those of `field` read numbers at a place and give their bytes, those of `pkru` say
//! what a PKRU permits, `key_beside` finds a key by its range, and the others are methods of the
//! shared types.
#![tactic(auto)]

pub mod elf;
mod fault;
pub mod field;
mod found;
pub mod grammar;
mod insn;
mod journal;
pub mod limits;
pub mod linux;
mod machine;
mod memory;
pub mod note;
pub mod page;
pub mod pkru;
pub mod register;
mod replay_fault;
mod rewriting;
mod segment;
mod start_fault;
mod stepped;
mod time_slice;
mod trust;

pub use fault::ImageFault;
pub use found::{Found, SeqKind};
pub use insn::{
    AluOp, Base, By, Decoded, FetchOutcome, Insn, Mem, Place, ShiftOp, Src, UnaryOp, Width,
};
pub use journal::{JournalFault, one_journal};
pub use machine::{Access, Cause, End, Entry, Escape, Flags, Keys, Outcome, Rights, Thread};
pub use memory::NoMemory;
pub use replay_fault::ReplayFault;
pub use rewriting::Why;
pub use segment::Segment;
pub use start_fault::StartFault;
pub use stepped::Stepped;
pub use time_slice::TimeSlice;
pub use trust::{Span, Trust, key_beside};
