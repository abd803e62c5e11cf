//! The rows of the table, found by opcode.

ghost use Rattle.std.specs.Prelude.{◌≡◌, ◌≤◌, IfSome};
ghost use Rattle.erim_defs.specs.Encoding.OpcodeTable.{plain_row, with_lock};
ghost use Rattle.erim_defs.specs.Encoding.OpcodeMap.{alu_opcode_row, middle_opcode_row};
ghost use Rattle.erim_defs.specs.Encoding.OpcodeMap.{high_opcode_row, one_byte_row, is_shift_reg};
ghost use Rattle.erim_defs.specs.Encoding.OpcodeMap.{two_byte_row, one_byte_has_modrm};
ghost use Rattle.erim_defs.specs.Encoding.OpcodeMap.{two_byte_has_modrm};

use erim_defs::grammar::{Arithmetic, Exchange, Flow, Form, Move, Row, System};

/// A row with nothing before it.
fn plain_row(form: Form, imm: u8) -> Row
    ensures { result ≡ plain_row form imm }
{
    Row {
        form,
        imm,
        locks: false,
        size_prefix: false,
        low: false,
    }
}

/// A row that F0 may stand before.
fn lockable_row(form: Form, imm: u8) -> Row
    ensures { result ≡ with_lock (plain_row form imm) }
{
    Row {
        form,
        imm,
        locks: true,
        size_prefix: false,
        low: false,
    }
}

/// Whether reg, the opcode extension, is that of a shift.
#[tactic(auto, unfolding(erim_defs::specs::Encoding::OpcodeMap::is_shift_reg))]
fn is_shift_reg(reg: u8) -> bool
    ensures { result ≡ is_shift_reg reg }
{
    reg == 4 || reg == 5 || reg == 7
}

/// The row of an opcode from C0 on.
#[tactic(auto, unfolding(erim_defs::specs::Encoding::OpcodeMap::high_opcode_row))]
fn high_opcode_row(op: u8, m: u8) -> Option<Row>
    ensures row { result ≡ high_opcode_row op m }
    ensures small { IfSome result (λ r. r.imm ≤ 8) }
{
    let reg = m / 8 % 8;
    match op {
        0xC0 | 0xC1 if is_shift_reg(reg) => Some(plain_row(
            Form::Arithmetic(Arithmetic::ShiftMi),
            1,
        )),
        0xC3 => Some(plain_row(Form::Flow(Flow::RetZo), 0)),
        0xC6 if reg == 0 => Some(plain_row(Form::Move(Move::MovMi), 1)),
        0xC7 if reg == 0 => Some(plain_row(Form::Move(Move::MovMi), 4)),
        0xC9 => Some(plain_row(Form::Flow(Flow::LeaveZo), 0)),
        0xD0 | 0xD1 if is_shift_reg(reg) => Some(plain_row(
            Form::Arithmetic(Arithmetic::ShiftM1),
            0,
        )),
        0xD2 | 0xD3 if is_shift_reg(reg) => Some(plain_row(
            Form::Arithmetic(Arithmetic::ShiftMc),
            0,
        )),
        0xE8 => Some(plain_row(Form::Flow(Flow::CallD), 4)),
        0xE9 => Some(plain_row(Form::Flow(Flow::JmpD), 4)),
        0xEB => Some(plain_row(Form::Flow(Flow::JmpD), 1)),
        0xF6 if reg == 0 => Some(plain_row(Form::Arithmetic(Arithmetic::TestMi), 1)),
        0xF7 if reg == 0 => Some(plain_row(Form::Arithmetic(Arithmetic::TestMi), 4)),
        0xF6 | 0xF7 if reg == 2 || reg == 3 => Some(lockable_row(
            Form::Arithmetic(Arithmetic::UnaryM),
            0,
        )),
        0xFE | 0xFF if reg < 2 => Some(lockable_row(Form::Arithmetic(Arithmetic::UnaryM), 0)),
        0xFF => match reg {
            2 => Some(plain_row(Form::Flow(Flow::CallM), 0)),
            4 => Some(plain_row(Form::Flow(Flow::JmpM), 0)),
            6 => Some(plain_row(Form::Flow(Flow::PushM), 0)),
            _ => None,
        },
        _ => None,
    }
}

/// The row of an opcode up to 3F.
#[tactic(auto, unfolding(erim_defs::specs::Encoding::OpcodeMap::alu_opcode_row))]
fn alu_opcode_row(op: u8) -> Option<Row>
    ensures row { result ≡ alu_opcode_row op }
    ensures small { IfSome result (λ r. r.imm ≤ 8) }
{
    match op % 8 {
        0 | 1 if op <= 0x37 => Some(lockable_row(Form::Arithmetic(Arithmetic::AluMr), 0)),
        0 | 1 => Some(plain_row(Form::Arithmetic(Arithmetic::AluMr), 0)),
        2 | 3 => Some(plain_row(Form::Arithmetic(Arithmetic::AluRm), 0)),
        4 => Some(plain_row(Form::Arithmetic(Arithmetic::AluI), 1)),
        5 => Some(plain_row(Form::Arithmetic(Arithmetic::AluI), 4)),
        _ => None,
    }
}

/// The row of an opcode from 40 to BF.
#[tactic(auto, unfolding(erim_defs::specs::Encoding::OpcodeMap::middle_opcode_row))]
fn middle_opcode_row(w: bool, op: u8, m: u8) -> Option<Row>
    ensures row { result ≡ middle_opcode_row w op m }
    ensures small { IfSome result (λ r. r.imm ≤ 8) }
{
    let reg = m / 8 % 8;
    match op {
        0x50..=0x57 => Some(plain_row(Form::Flow(Flow::PushO), 0)),
        0x58..=0x5F => Some(plain_row(Form::Flow(Flow::PopO), 0)),
        0x63 if w => Some(plain_row(Form::Move(Move::MovSxdRm), 0)),
        0x68 => Some(plain_row(Form::Flow(Flow::PushI), 4)),
        0x69 => Some(plain_row(Form::Arithmetic(Arithmetic::ImulRmi), 4)),
        0x6A => Some(plain_row(Form::Flow(Flow::PushI), 1)),
        0x6B => Some(plain_row(Form::Arithmetic(Arithmetic::ImulRmi), 1)),
        0x70..=0x7F => Some(plain_row(Form::Flow(Flow::JccD), 1)),
        0x80 | 0x83 if reg < 7 => Some(lockable_row(Form::Arithmetic(Arithmetic::AluMi), 1)),
        0x80 | 0x83 => Some(plain_row(Form::Arithmetic(Arithmetic::AluMi), 1)),
        0x81 if reg < 7 => Some(lockable_row(Form::Arithmetic(Arithmetic::AluMi), 4)),
        0x81 => Some(plain_row(Form::Arithmetic(Arithmetic::AluMi), 4)),
        0x84 | 0x85 => Some(plain_row(Form::Arithmetic(Arithmetic::TestMr), 0)),
        0x86 | 0x87 => Some(lockable_row(Form::Exchange(Exchange::XchgMr), 0)),
        0x88 | 0x89 => Some(plain_row(Form::Move(Move::MovMr), 0)),
        0x8A | 0x8B => Some(plain_row(Form::Move(Move::MovRm), 0)),
        0x8D if m < 192 => Some(plain_row(Form::Move(Move::LeaRm), 0)),
        0x98 => Some(plain_row(Form::Move(Move::WidenZo), 0)),
        0x99 => Some(plain_row(Form::Move(Move::SpreadZo), 0)),
        0xA8 => Some(plain_row(Form::Arithmetic(Arithmetic::TestI), 1)),
        0xA9 => Some(plain_row(Form::Arithmetic(Arithmetic::TestI), 4)),
        0xB0..=0xB7 => Some(plain_row(Form::Move(Move::MovByteOi), 1)),
        0xB8..=0xBF if w => Some(plain_row(Form::Move(Move::MovWideOi), 8)),
        0xB8..=0xBF => Some(plain_row(Form::Move(Move::MovOi), 4)),
        _ => None,
    }
}

/// The row of an opcode of one byte.
#[tactic(auto, unfolding(erim_defs::specs::Encoding::OpcodeMap::one_byte_row))]
pub fn one_byte_row(f3: bool, w: bool, op: u8, m: u8) -> Option<Row>
    ensures row { result ≡ one_byte_row f3 w op m }
    ensures small { IfSome result (λ r. r.imm ≤ 8) }
{
    match op {
        0x90 if f3 => Some(Row {
            low: true,
            ..plain_row(Form::System(System::Nop), 0)
        }),
        0x90 => Some(Row {
            low: true,
            size_prefix: true,
            ..plain_row(Form::System(System::Nop), 0)
        }),
        _ if f3 => None,
        0x00..=0x3F => alu_opcode_row(op),
        0x40..=0xBF => middle_opcode_row(w, op, m),
        _ => high_opcode_row(op, m),
    }
}

/// The row of an opcode after the escape opcode 0F.
#[tactic(auto, unfolding(erim_defs::specs::Encoding::OpcodeMap::two_byte_row))]
pub fn two_byte_row(f3: bool, op: u8, m: u8) -> Option<Row>
    ensures row { result ≡ two_byte_row f3 op m }
    ensures small { IfSome result (λ r. r.imm ≤ 8) }
{
    let reg = m / 8 % 8;
    match op {
        0x1E if f3 && m == 0xFA => Some(plain_row(Form::System(System::Nop), 0)),
        _ if f3 => None,
        0x01 if m == 0xEF => Some(plain_row(Form::System(System::WrpkruZo), 0)),
        0x01 if m == 0xEE => Some(plain_row(Form::System(System::RdpkruZo), 0)),
        0x05 => Some(plain_row(Form::System(System::SyscallZo), 0)),
        0x1F if reg == 0 => Some(Row {
            size_prefix: true,
            ..plain_row(Form::System(System::Nop), 0)
        }),
        0x40..=0x4F => Some(plain_row(Form::Move(Move::CmovRm), 0)),
        0x80..=0x8F => Some(plain_row(Form::Flow(Flow::JccD), 4)),
        0x90..=0x9F => Some(plain_row(Form::Move(Move::SetM), 0)),
        0xAE if reg == 5 && m < 192 => Some(plain_row(Form::System(System::XrstorM), 0)),
        0xAE if m == 0xE8 || m == 0xF0 || m == 0xF8 => Some(plain_row(
            Form::System(System::FenceZo),
            0,
        )),
        0xAF => Some(plain_row(Form::Arithmetic(Arithmetic::ImulRm), 0)),
        0xB0 | 0xB1 => Some(lockable_row(Form::Exchange(Exchange::CmpxchgMr), 0)),
        0xB6 => Some(plain_row(Form::Move(Move::MovZxByteRm), 0)),
        0xB7 => Some(plain_row(Form::Move(Move::MovZxWordRm), 0)),
        0xBA if reg == 4 => Some(plain_row(Form::Arithmetic(Arithmetic::BtMi), 1)),
        0xBE => Some(plain_row(Form::Move(Move::MovSxByteRm), 0)),
        0xBF => Some(plain_row(Form::Move(Move::MovSxWordRm), 0)),
        0xC0 | 0xC1 => Some(lockable_row(Form::Exchange(Exchange::XaddMr), 0)),
        _ => None,
    }
}

/// Whether ModRM follows an opcode of one byte.
#[tactic(auto, unfolding(erim_defs::specs::Encoding::OpcodeMap::one_byte_has_modrm))]
pub fn one_byte_has_modrm(op: u8) -> bool
    ensures { result ≡ one_byte_has_modrm op }
{
    match op {
        0x00..=0x3F => op % 8 < 4,
        0x63 | 0x69 | 0x6B | 0x80 | 0x81 | 0x83 => true,
        0x84..=0x8B | 0x8D | 0xC0 | 0xC1 | 0xC6 | 0xC7 => true,
        0xD0..=0xD3 | 0xF6 | 0xF7 | 0xFE | 0xFF => true,
        _ => false,
    }
}

/// Whether ModRM follows an opcode after 0F.
#[tactic(auto, unfolding(erim_defs::specs::Encoding::OpcodeMap::two_byte_has_modrm))]
pub fn two_byte_has_modrm(op: u8) -> bool
    ensures { result ≡ two_byte_has_modrm op }
{
    match op {
        0x01 | 0x1E | 0x1F | 0x40..=0x4F | 0x90..=0x9F | 0xAE | 0xAF => true,
        0xB0 | 0xB1 | 0xB6 | 0xB7 | 0xBA | 0xBE | 0xBF | 0xC0 | 0xC1 => true,
        _ => false,
    }
}
