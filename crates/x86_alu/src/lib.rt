//! Results and flags of arithmetic and logic on operands of 1, 4 and 8 bytes.
//!
//! `alu`, `imul`, `unary`, `shift`, `bt` and `condition` are the definitions of these names in
//! `erim_defs/specs/Machine/Alu`, each one body for all widths. An operand stands in a `u64` and
//! is below 2 to its width in bits; so is the value of each outcome, which a register or memory
//! can hold then. Nothing here takes memory. In the files: `width` reads operands as numbers with
//! and without sign, `arithmetic` adds, subtracts, multiplies and combines bits, `shifts` shifts
//! and tests bits, and `conditions` reads flags.
#![tactic(auto)]

mod arithmetic;
mod conditions;
mod shifts;
mod width;

pub use arithmetic::{alu, imul, unary};
pub use conditions::condition;
pub use shifts::{bt, shift};
