//! A process on the emulated machine, with the journal of its steps.
//!
//! `Process::start` checks an accepted image and loads it; `step_now` makes one step of a thread
//! and writes it into the journal. A process' value is its setup and its journal: `state_of`
//! replays them, and every view (`rights`, `word`, `thread`, `output`, `end`, `escape`) is read
//! from that state. Steps meet `step`, the start `first_state` and `start_fault`, and the kept
//! facts are `IsReplay` and what `isolation` proves of every run. `thread_runner` calls it;
//! `check_start` asks `image_code` for the first unsafe sequence of trusted text.
#![tactic(auto)]

mod answers;
mod calls;
mod crossing;
mod fetch;
mod heap_calls;
mod image_pages;
mod key_calls;
mod live;
mod machine;
mod origin;
mod page_calls;
mod process;
mod setup;
mod start;
mod step;
mod thread_calls;

pub use crossing::{may_be_sent, may_be_shared, processes_cross};
pub use erim_defs::{StartFault, Stepped};
pub use process::Process;
pub use setup::Setup;
