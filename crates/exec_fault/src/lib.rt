//! What is decided at an exec fault: a page is published, or refused for a sequence.
//!
//! `verdict` looks at the code near the page, the published pages beside it among it, and answers
//! the first unsafe sequence of the published code with that page, `first_unsafe` of `erim_defs`;
//! `publish` gives a page the rights of a published one. `erim_process` asks both at an exec fault
//! on a page that asks to be executed. `safe_occurrence` has the scan.
#![tactic(auto)]

mod answer;
mod judgement;
mod window;

pub use answer::Verdict;
pub use judgement::{publish, take_back, verdict};
