//! The decoder: reads the x86-64 instruction that bytes begin with.
//!
//! `decode` says the instruction, its length and the bytes before its opcode, or that the bytes
//! begin no instruction, or that they are the beginning of one. It is `decode` of
//! `erim_defs/specs/Decoding`, and what `Decodes` says: which bytes encode which instruction is
//! `Encodes` of `Grammar`. `locate` says where displacement, immediate and relative offset stand,
//! by `Locates` of `specs/PartPlaces`, and `measure` the instruction with the sizes of its parts,
//! exactly as `standing` of `erim_defs`. The two laws, `prefix_free` and `decode_is_exact`, have
//! nothing to run: who needs them in a proof calls them. The machine's steps (`erim_process`) and
//! `erim disasm` call `decode`. In the files: `front` reads prefixes, F3 and REX, `body` what
//! follows, `opcode_map` finds the row of an opcode, `operand` reads ModRM, SIB and displacement,
//! `forms` makes the instruction, and `cursor` takes bytes from the front.
#![tactic(auto)]

mod body;
mod cursor;
mod decoding;
mod forms;
mod front;
mod opcode_map;
mod operand;
mod positions;

pub use decoding::{decode, decode_is_exact, prefix_free};
pub use positions::{Measured, Part, PartPlaces, locate, measure};
