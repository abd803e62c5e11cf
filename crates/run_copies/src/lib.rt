//! The copies of regions: what stands in the copy of a region at an address, and the jump to it.
//!
//! `RegionCopy::spell` spells the copy of a region after some NOPs from an address on, or answers
//! that it can't be spelled there; `RegionCopy::piece` has the bytes, and `RegionCopy::jump` the
//! jump to them. They meet `candidate`, `is_spelled`, `piece` and `jump_to` of `erim_defs`. In the
//! files: `offset` has offsets between addresses, `jumps` the jump to an address and a jump with
//! another offset, `encoded` puts canonical encodings after other bytes, `split` puts a MOV in two
//! there, `insns` the copy of one instruction, `parts` those of a region, and `copy` keeps all of
//! it.
#![tactic(auto)]

mod copy;
mod encoded;
mod insns;
mod jumps;
mod offset;
mod parts;
mod split;

pub use copy::RegionCopy;

/// The byte of a NOP (SDM volume 2, "NOP").
pub const NOP: u8 = 0x90;
