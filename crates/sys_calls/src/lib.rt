//! The system calls write(2) and clone(2), and what they change: the output and the threads.
//!
//! Each is the row of its name in `erim_defs/specs/Machine` (`Calls`, `ThreadCalls`). An error is
//! its number, which the caller negates. Both take their memory at the start.
#![tactic(auto)]

mod clone_call;
mod output;
mod threads;
mod write_call;

pub use clone_call::clone_thread;
pub use output::Output;
pub use threads::Threads;
pub use write_call::write_out;
