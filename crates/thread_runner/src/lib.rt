//! Runs a process: by several workers, by itself, or by the steps of a journal.
//!
//! `run_workers` has each worker take turns of the process behind its lock (`publish_lock`), in a
//! thread of its own, until the process is over; `run` starts a process and runs it so, and ensures
//! that its journal is a complete replay with no worker above those that it was given.
//!
//! `run_serial` starts a process and runs it, a given number of steps of a thread in a row;
//! `finish` goes on with a process that was started, one step of a thread at a time. Both go on
//! until the process has ended or its budget is spent, and ensure that the entries that they add
//! are those of the time slices in `erim_defs`' `TimeSlices`, that the journal is a complete
//! replay, and that its last state keeps the isolation invariant.
//!
//! `replay` starts a process and makes the steps of a journal's entries again. What breaks that is
//! `replay_fault` in `erim_defs`, of which `unbroken` and `first_unmade` are laws.
#![tactic(auto)]

mod replays;
mod runner;
mod time_slice;
mod workers;

pub use erim_defs::ReplayFault;
pub use replays::{first_unmade, replay, unbroken};
pub use runner::{finish, run_serial};
pub use workers::{NoGate, run, run_workers};
