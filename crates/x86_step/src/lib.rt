//! Executes instructions on a thread and a memory.
//!
//! `exec` executes any instruction but a system call over any `Memory`, exactly as `plan` and
//! `effect` of `erim_defs` say: the result, the thread with its origin, the bytes, and which bytes
//! were looked at. Nothing changes where an access stops. The inner functions have one contract,
//! `Executes`, each for the plan of its kind; operands come by `Gets`, and results go by `Puts`. In
//! the files: `registers` has registers at each width, `operands` what stands in memory,
//! `arithmetic`, `moves`, `flow`, `exchanges`, `rights` and `xrstor` the kinds of instructions,
//! `origin` the origin of a thread and its escape, and `execution` all kinds. `boundary` is the law
//! of what an execution on a part of the pages says of other memories.
#![tactic(auto)]

mod answer;
mod arithmetic;
pub mod boundary;
mod exchanges;
mod execution;
mod flow;
mod moves;
mod operands;
mod origin;
mod registers;
mod rights;
mod xrstor;

pub use answer::Exec;
pub use execution::exec;
pub use origin::{is_escape, set_origin};
pub use registers::{onward, register, set_register};
