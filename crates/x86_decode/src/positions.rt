//! Where an instruction's displacement, immediate and relative offset stand in its bytes.

ghost use Rattle.std.specs.Prelude.{◌≡◌, ◌+◌, ◌<◌, ◌≤◌, IfSome, length};
ghost use Rattle.x86_decode.specs.PartPlaces.{part_at, ends_in_relative_offset, part_places};
ghost use Rattle.x86_decode.specs.PartPlaces.{Locates};
ghost use Rattle.x86_decode.specs.Stands.{Stands};

use crate::body::Sizes;
use crate::decoding::window_of;
use crate::front::front_at;
use erim_defs::Insn;

/// A given number of bytes of an instruction, from a place on.
#[derive(Clone, Copy, PartialEq, Eq)]
pub struct Part {
    pub at: u8,
    pub len: u8,
}

/// Where an instruction's displacement, immediate and relative offset stand in its bytes (SDM
/// volume 2, "Displacement and immediate bytes").
#[derive(Clone, Copy, PartialEq, Eq)]
pub struct PartPlaces {
    /// Of its operand in memory.
    pub displacement: Option<Part>,
    pub immediate: Option<Part>,
    /// Of a direct jump or call.
    pub relative_offset: Option<Part>,
}

/// A given number of bytes, if any.
fn part_at(at: u8, len: u8) -> Option<Part>
    ensures { result ≡ part_at at len }
{
    match len {
        0 => None,
        _ => Some(Part { at, len }),
    }
}

/// Does a relative offset end the instruction?
fn ends_in_relative_offset(insn: &Insn) -> bool
    ensures { result ≡ ends_in_relative_offset insn.now }
{
    matches!(
        insn,
        Insn::Jcc { .. } | Insn::Jmp { .. } | Insn::Call { .. }
    )
}

/// The parts of an instruction of `len` bytes.
fn part_places(insn: &Insn, sizes: Sizes, len: u8) -> PartPlaces
    requires { sizes.disp + sizes.imm ≤ len }
    ensures { result ≡ part_places len insn.now sizes.disp sizes.imm }
{
    let number = part_at(len - sizes.imm, sizes.imm);
    let displacement = part_at(len - sizes.imm - sizes.disp, sizes.disp);
    if ends_in_relative_offset(insn) {
        PartPlaces {
            displacement,
            immediate: None,
            relative_offset: number,
        }
    } else {
        PartPlaces {
            displacement,
            immediate: number,
            relative_offset: None,
        }
    }
}

/// The layout of the instruction that the bytes begin with; nothing where they begin with none.
/// Takes no memory.
pub fn locate(bytes: &[u8]) -> Option<PartPlaces>
    ensures { Locates bytes.now result }
{
    let window = window_of(bytes);
    match front_at(0, false, false, window) {
        Ok((insn, sizes, rest)) => {
            let len = (window.len() - rest.len()) as u8;
            Some(part_places(&insn, sizes, len))
        }
        Err(_) => None,
    }
}

/// An instruction, how many bytes it has, and how many of them stand before its opcode, are its
/// displacement, and are the immediate or relative offset that ends it.
#[derive(Clone, Copy)]
pub struct Measured {
    pub insn: Insn,
    pub len: u8,
    pub skip: u8,
    pub disp: u8,
    pub imm: u8,
}

/// The instruction that the bytes begin with, with the sizes of its parts; nothing where they begin
/// with none. Takes no memory.
pub fn measure(bytes: &[u8]) -> Option<Measured>
    ensures standing { Stands bytes.now result }
    ensures sizes { IfSome result (λ m. (0 < m.len) × (m.len ≤ length bytes.now)
        × (m.len ≤ 15) × (m.disp + m.imm ≤ m.len)) }
{
    let window = window_of(bytes);
    match front_at(0, false, false, window) {
        Ok((insn, sizes, rest)) => {
            Some(Measured {
                insn,
                len: (window.len() - rest.len()) as u8,
                skip: sizes.skip,
                disp: sizes.disp,
                imm: sizes.imm,
            })
        }
        Err(_) => None,
    }
}
