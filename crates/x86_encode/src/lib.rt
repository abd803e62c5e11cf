//! The encoder: writes the canonical encoding of an x86-64 instruction.
//!
//! Of the encodings that an instruction has, `canonical_encoding` of `erim_defs/specs/Canonical`
//! chooses one. `encode` writes it to the front of a buffer of 15 bytes, for every instruction that
//! some bytes encode (`IsWellFormed`), and promises that it is an encoding of the instruction and
//! is decoded as it, whatever follows (`IsReadBack` of `specs/ReadBack`); `put_canonical` writes
//! the same without this promise, and so asks nothing of the instruction. In the files: `encoding`
//! goes over all instructions, `kinds` has those with several opcodes, `opcodes` writes prefixes,
//! REX and opcode, `operand` ModRM, SIB and displacement, and `buffer` bytes and immediates.
#![tactic(auto)]

mod buffer;
mod encoding;
mod kinds;
mod opcodes;
mod operand;

pub use encoding::{encode, put_canonical};
