//! What an instruction is written with, beside its name.

ghost use Rattle.std.specs.Prelude.{◌≡◌, ◌∷◌, [], Some};
ghost use Rattle.erim_defs.specs.Encoding.Notation.{notation_of, source_text, by_text, memory_text};
ghost use Rattle.erim_defs.specs.Encoding.Notation.{register_text};
ghost use Rattle.x86_text.specs.Operands.{operand_text, operand_texts};

use erim_defs::{By, Insn, Mem, Place, Src, Width};

/// An operand.
#[derive(Clone, Copy)]
pub enum Operand {
    /// A place.
    Place(Place),
    /// A number with a sign.
    Signed(i32),
    /// A number without one.
    Number(u64),
    /// The register CL.
    Cl,
}

/// The operands of an instruction.
#[derive(Clone, Copy)]
pub enum OperandList {
    None,
    One(Operand),
    Two(Operand, Operand),
    Three(Operand, Operand, Operand),
}

fn place_operand(place: Place) -> Operand
    ensures { result ≡ Operand.Place place }
{
    Operand::Place(place)
}

fn memory_operand(memory: Mem) -> Operand
    ensures { operand_text result ≡ memory_text memory }
{
    Operand::Place(Place::At(memory))
}

fn register_operand(number: u8) -> Operand
    ensures { operand_text result ≡ register_text number }
{
    Operand::Place(Place::Reg(number))
}

fn number_operand(number: u8) -> Operand
    ensures { result ≡ Operand.Number number }
{
    Operand::Number(u64::from(number))
}

fn source_operand(src: Src) -> Operand
    ensures { operand_text result ≡ source_text src }
{
    match src {
        Src::From(from) => place_operand(from),
        Src::Imm(number) => Operand::Signed(number),
    }
}

fn count_operand(by: By) -> Operand
    ensures { operand_text result ≡ by_text by }
{
    match by {
        By::Count(count) => number_operand(count),
        By::Cl => Operand::Cl,
    }
}

/// Does F0 stand before the instruction?
#[tactic(auto, unfolding(erim_defs::specs::Encoding::Notation::notation_of))]
pub fn is_locked(insn: &Insn) -> bool
    ensures { result ≡ (notation_of insn.now).lock }
{
    match *insn {
        Insn::Alu { lock, .. }
        | Insn::Xchg { lock, .. }
        | Insn::Unary { lock, .. }
        | Insn::Cmpxchg { lock, .. }
        | Insn::Xadd { lock, .. } => lock,
        _ => false,
    }
}

/// How many bytes the instruction works on, where that is written.
#[tactic(auto, unfolding(erim_defs::specs::Encoding::Notation::notation_of))]
pub fn insn_width(insn: &Insn) -> Option<Width>
    ensures { result ≡ (notation_of insn.now).width }
{
    match *insn {
        Insn::Alu { w, .. }
        | Insn::Test { w, .. }
        | Insn::Xchg { w, .. }
        | Insn::Mov { w, .. }
        | Insn::Lea { w, .. }
        | Insn::MovZx { w, .. }
        | Insn::MovSx { w, .. }
        | Insn::Imul { w, .. }
        | Insn::Widen { w }
        | Insn::Spread { w }
        | Insn::Shift { w, .. }
        | Insn::Unary { w, .. }
        | Insn::Cmov { w, .. }
        | Insn::Bt { w, .. }
        | Insn::Cmpxchg { w, .. }
        | Insn::Xadd { w, .. } => Some(w),
        _ => None,
    }
}

/// The operands, in the order of the instruction's fields.
#[tactic(auto, unfolding(erim_defs::specs::Encoding::Notation::notation_of))]
pub fn insn_operands(insn: &Insn) -> OperandList
    ensures { operand_texts result ≡ (notation_of insn.now).operands }
{
    use OperandList::{One, Three, Two};
    match *insn {
        Insn::Alu { dst, src, .. } | Insn::Mov { dst, src, .. } => Two(
            place_operand(dst),
            source_operand(src),
        ),
        Insn::Test { a, src, .. } => Two(place_operand(a), source_operand(src)),
        Insn::Xchg { a, r, .. } => Two(place_operand(a), place_operand(r)),
        Insn::Cmpxchg { dst, r, .. } | Insn::Xadd { dst, r, .. } => Two(
            place_operand(dst),
            place_operand(r),
        ),
        Insn::MovWide { r, imm } => Two(register_operand(r), Operand::Number(imm)),
        Insn::Lea { r, m, .. } => Two(register_operand(r), memory_operand(m)),
        Insn::Push { src } => One(source_operand(src)),
        Insn::Pop { r } => One(register_operand(r)),
        Insn::MovSxd { r, src } => Two(register_operand(r), place_operand(src)),
        Insn::MovZx { r, from, src, .. } | Insn::MovSx { r, from, src, .. } => Three(
            register_operand(r),
            number_operand(from),
            place_operand(src),
        ),
        Insn::Imul { r, a, b: None, .. } => Two(register_operand(r), place_operand(a)),
        Insn::Imul {
            r,
            a,
            b: Some(b),
            ..
        } => Three(register_operand(r), place_operand(a), Operand::Signed(b)),
        Insn::Jcc { c, rel } => Two(number_operand(c), Operand::Signed(rel)),
        Insn::Jmp { rel } | Insn::Call { rel } => One(Operand::Signed(rel)),
        Insn::JmpTo { to } | Insn::CallTo { to } => One(place_operand(to)),
        Insn::Shift { dst, by, .. } => Two(place_operand(dst), count_operand(by)),
        Insn::Unary { dst, .. } => One(place_operand(dst)),
        Insn::Cmov { c, r, src, .. } => Three(
            number_operand(c),
            register_operand(r),
            place_operand(src),
        ),
        Insn::Set { c, dst } => Two(number_operand(c), place_operand(dst)),
        Insn::Bt { a, bit, .. } => Two(place_operand(a), number_operand(bit)),
        Insn::Xrstor { m } => One(memory_operand(m)),
        Insn::Fence { kind } => One(number_operand(kind)),
        _ => OperandList::None,
    }
}
