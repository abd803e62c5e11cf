//! The gates into trusted text and out of it, and where the checks' instructions begin.
//!
//! `gate_in` and `gate_out` write the bytes of a gate, for a program that is made or rewritten.
//! `position_in_check` says at which instruction of the check after a sequence an address is. They
//! meet the definitions of those names in `erim_defs`.
#![tactic(auto)]

mod gates;
mod position;

pub use gates::{gate_in, gate_out};
pub use position::position_in_check;
