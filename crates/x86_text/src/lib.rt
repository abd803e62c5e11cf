//! Writes instructions as text, in the notation of `erim_defs/specs/Notation`.
//!
//! `line` appends the line of an instruction at an address, which is `insn_line`, or changes
//! nothing where memory runs out. `erim disasm` calls it for each instruction of an image. It asks
//! nothing of the instruction: also one that no bytes encode has a line.
//! In the files: `names` and `operand_list` take an instruction apart into what `notation_of` has
//! of it, `operands` and `instruction` write that, and `lines` makes the line on the stack and then
//! appends it whole.
#![tactic(auto)]

mod instruction;
mod lines;
mod names;
mod operand_list;
mod operands;

pub use lines::line;
