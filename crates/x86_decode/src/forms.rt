//! The instruction of a form, from the fields of its encoding.

ghost use Rattle.std.specs.Prelude.{◌≡◌, ◌/◌, ◌%◌, ℕ, List};
ghost use Rattle.erim_defs.specs.Encoding.Forms.{operand_width, rex_width, register_named};
ghost use Rattle.erim_defs.specs.Encoding.Forms.{rm_place, byte_rm_place, reg_place, reg_number};
ghost use Rattle.erim_defs.specs.Encoding.Forms.{memory_of, opcode_reg, alu_op, unary_op, shift_op};
ghost use Rattle.erim_defs.specs.Encoding.Forms.{imm8, imm64, arithmetic_of, move_of, flow_of};
ghost use Rattle.erim_defs.specs.Encoding.Forms.{exchange_of, system_of, insn_of};
ghost use Rattle.erim_defs.specs.declared.insn.Insn.TheVariants.{Alu, Test, Imul, Shift, Mov};
ghost use Rattle.erim_defs.specs.declared.insn.Insn.TheVariants.{MovZx, MovSx, Cmov, Lea};

use crate::cursor::signed_value;
use crate::operand::reg_with_bit;
use erim_defs::grammar::{Arithmetic, Exchange, Fields, Flow, Form, Move, System};
use erim_defs::{AluOp, Base, By, Insn, Mem, Place, ShiftOp, Src, UnaryOp, Width};

/// The width that opcode and REX.W say.
#[tactic(auto, unfolding(erim_defs::specs::Encoding::Forms::operand_width))]
fn operand_width(f: Fields) -> Width
    ensures { result ≡ operand_width f }
{
    if f.op % 2 == 0 {
        Width::W1
    } else if f.rex.w {
        Width::W8
    } else {
        Width::W4
    }
}

/// The width of a row without byte registers.
#[tactic(auto, unfolding(erim_defs::specs::Encoding::Forms::rex_width))]
fn rex_width(f: Fields) -> Width
    ensures { result ≡ rex_width f }
{
    if f.rex.w { Width::W8 } else { Width::W4 }
}

/// The register of a number.
#[tactic(auto, unfolding(erim_defs::specs::Encoding::Forms::register_named))]
fn register_named(w: Width, any: bool, n: u8) -> Place
    ensures { result ≡ register_named w any n }
{
    match w {
        Width::W1 if !any && n >= 4 && n < 8 => Place::High(n - 4),
        _ => Place::Reg(n),
    }
}

/// What r/m names.
#[tactic(auto, unfolding(erim_defs::specs::Encoding::Forms::rm_place))]
fn rm_place(f: Fields) -> Place
    ensures { result ≡ rm_place f }
{
    match f.place {
        Place::Reg(n) => register_named(operand_width(f), f.rex.any, n),
        place => place,
    }
}

/// What r/m names, of one byte.
#[tactic(auto, unfolding(erim_defs::specs::Encoding::Forms::byte_rm_place))]
fn byte_rm_place(f: Fields) -> Place
    ensures { result ≡ byte_rm_place f }
{
    match f.place {
        Place::Reg(n) => register_named(Width::W1, f.rex.any, n),
        place => place,
    }
}

/// What reg names.
#[tactic(auto, unfolding(erim_defs::specs::Encoding::Forms::reg_place))]
fn reg_place(f: Fields) -> Place
    ensures { result ≡ reg_place f }
{
    register_named(
        operand_width(f),
        f.rex.any,
        reg_with_bit(f.rex.r, f.m / 8 % 8),
    )
}

/// The number of the register that reg names.
#[tactic(auto, unfolding(erim_defs::specs::Encoding::Forms::reg_number))]
fn reg_number(f: Fields) -> u8
    ensures { result ≡ reg_number f }
{
    reg_with_bit(f.rex.r, f.m / 8 % 8)
}

/// The memory that r/m names, in a row that takes memory alone.
#[tactic(auto, unfolding(erim_defs::specs::Encoding::Forms::memory_of))]
fn memory_of(place: Place) -> Mem
    ensures { result ≡ memory_of place }
{
    match place {
        Place::At(m) => m,
        _ => Mem {
            base: Base::Zero,
            index: None,
            scale: 0,
            disp: 0,
        },
    }
}

/// The register in the opcode.
#[tactic(auto, unfolding(erim_defs::specs::Encoding::Forms::opcode_reg))]
fn opcode_reg(f: Fields) -> u8
    ensures { result ≡ opcode_reg f }
{
    reg_with_bit(f.rex.b, f.op % 8)
}

/// The operation in the opcode.
#[tactic(auto, unfolding(erim_defs::specs::Encoding::Forms::alu_op))]
fn alu_op(n: u8) -> AluOp
    ensures { result ≡ alu_op n }
{
    match n {
        0 => AluOp::Add,
        1 => AluOp::Or,
        2 => AluOp::Adc,
        3 => AluOp::Sbb,
        4 => AluOp::And,
        5 => AluOp::Sub,
        6 => AluOp::Xor,
        _ => AluOp::Cmp,
    }
}

/// The operation that reg names, of one operand.
#[tactic(auto, unfolding(erim_defs::specs::Encoding::Forms::unary_op))]
fn unary_op(n: u8) -> UnaryOp
    ensures { result ≡ unary_op n }
{
    match n {
        0 => UnaryOp::Inc,
        1 => UnaryOp::Dec,
        2 => UnaryOp::Not,
        _ => UnaryOp::Neg,
    }
}

/// The shift that reg names.
#[tactic(auto, unfolding(erim_defs::specs::Encoding::Forms::shift_op))]
fn shift_op(n: u8) -> ShiftOp
    ensures { result ≡ shift_op n }
{
    match n {
        4 => ShiftOp::Shl,
        5 => ShiftOp::Shr,
        _ => ShiftOp::Sar,
    }
}

/// An immediate of one byte, without sign.
#[tactic(auto, unfolding(erim_defs::specs::Encoding::Forms::imm8))]
fn imm8(imm: &[u8]) -> u8
    ensures { result ≡ imm8 imm.now }
{
    match imm {
        [b, ..] => *b,
        [] => 0,
    }
}

/// An immediate of 8 bytes, without sign.
#[tactic(auto, unfolding(erim_defs::specs::Encoding::Forms::imm64))]
fn imm64(imm: &[u8]) -> u64
    ensures { result ≡ imm64 imm.now }
{
    match imm {
        [a, b, c, d, e, f, g, h] => u64::from_le_bytes([*a, *b, *c, *d, *e, *f, *g, *h]),
        _ => 0,
    }
}

/// Arithmetic and logic of two operands, by the number of its operation.
fn alu_insn(f: Fields, n: u8, dst: Place, src: Src, lock: bool) -> Insn
    ensures { result ≡ Alu (alu_op n) (operand_width f) dst src lock }
{
    let op = alu_op(n);
    let w = operand_width(f);
    Insn::Alu {
        op,
        w,
        dst,
        src,
        lock,
    }
}

/// A shift.
fn shift_insn(f: Fields, by: By) -> Insn
    ensures { result ≡ Shift (shift_op (f.m / 8 % 8)) (operand_width f) (rm_place f) by }
{
    Insn::Shift {
        op: shift_op(f.m / 8 % 8),
        w: operand_width(f),
        dst: rm_place(f),
        by,
    }
}

/// TEST.
fn test_insn(f: Fields, a: Place, src: Src) -> Insn
    ensures { result ≡ Test (operand_width f) a src }
{
    let w = operand_width(f);
    Insn::Test { w, a, src }
}

/// IMUL.
fn imul_insn(f: Fields, b: Option<i32>) -> Insn
    ensures { result ≡ Imul (rex_width f) (reg_number f) f.place b }
{
    Insn::Imul {
        w: rex_width(f),
        r: reg_number(f),
        a: f.place,
        b,
    }
}

/// Arithmetic, logic and bits.
#[tactic(auto, unfolding(erim_defs::specs::Encoding::Forms::arithmetic_of))]
fn arithmetic_of(form: Arithmetic, f: Fields, imm: &[u8]) -> Insn
    ensures { result ≡ arithmetic_of form f imm.now }
{
    let reg = f.m / 8 % 8;
    match form {
        Arithmetic::AluMr => alu_insn(f, f.op / 8, rm_place(f), Src::From(reg_place(f)), f.lock),
        Arithmetic::AluRm => alu_insn(f, f.op / 8, reg_place(f), Src::From(rm_place(f)), false),
        Arithmetic::AluI => alu_insn(
            f,
            f.op / 8,
            Place::Reg(0),
            Src::Imm(signed_value(imm)),
            false,
        ),
        Arithmetic::AluMi => alu_insn(f, reg, rm_place(f), Src::Imm(signed_value(imm)), f.lock),
        Arithmetic::TestMr => test_insn(f, rm_place(f), Src::From(reg_place(f))),
        Arithmetic::TestI => test_insn(f, Place::Reg(0), Src::Imm(signed_value(imm))),
        Arithmetic::TestMi => test_insn(f, rm_place(f), Src::Imm(signed_value(imm))),
        Arithmetic::ImulRm => imul_insn(f, None),
        Arithmetic::ImulRmi => imul_insn(f, Some(signed_value(imm))),
        Arithmetic::UnaryM => Insn::Unary {
            op: unary_op(reg),
            w: operand_width(f),
            dst: rm_place(f),
            lock: f.lock,
        },
        Arithmetic::ShiftMi => shift_insn(f, By::Count(imm8(imm))),
        Arithmetic::ShiftM1 => shift_insn(f, By::Count(1)),
        Arithmetic::ShiftMc => shift_insn(f, By::Cl),
        Arithmetic::BtMi => Insn::Bt {
            w: rex_width(f),
            a: f.place,
            bit: imm8(imm),
        },
    }
}

/// MOV.
fn mov_insn(w: Width, dst: Place, src: Src) -> Insn
    ensures { result ≡ Mov w dst src }
{
    Insn::Mov { w, dst, src }
}

/// MOVZX.
fn movzx_insn(f: Fields, from: u8, src: Place) -> Insn
    ensures { result ≡ MovZx (rex_width f) (reg_number f) from src }
{
    let w = rex_width(f);
    let r = reg_number(f);
    Insn::MovZx { w, r, from, src }
}

/// MOVSX.
fn movsx_insn(f: Fields, from: u8, src: Place) -> Insn
    ensures { result ≡ MovSx (rex_width f) (reg_number f) from src }
{
    let w = rex_width(f);
    let r = reg_number(f);
    Insn::MovSx { w, r, from, src }
}

/// MOV where a condition holds.
fn cmov_insn(f: Fields) -> Insn
    ensures { result ≡ Cmov (f.op % 16) (rex_width f) (reg_number f) f.place }
{
    Insn::Cmov {
        c: f.op % 16,
        w: rex_width(f),
        r: reg_number(f),
        src: f.place,
    }
}

/// LEA.
fn lea_insn(f: Fields) -> Insn
    ensures { result ≡ Lea (rex_width f) (reg_number f) (memory_of f.place) }
{
    Insn::Lea {
        w: rex_width(f),
        r: reg_number(f),
        m: memory_of(f.place),
    }
}

/// Moves, with extension or on a condition.
#[tactic(auto, unfolding(erim_defs::specs::Encoding::Forms::move_of))]
fn move_of(form: Move, f: Fields, imm: &[u8]) -> Insn
    ensures { result ≡ move_of form f imm.now }
{
    let number = Src::Imm(signed_value(imm));
    let low = opcode_reg(f);
    match form {
        Move::MovMr => mov_insn(operand_width(f), rm_place(f), Src::From(reg_place(f))),
        Move::MovRm => mov_insn(operand_width(f), reg_place(f), Src::From(rm_place(f))),
        Move::MovByteOi => mov_insn(Width::W1, register_named(Width::W1, f.rex.any, low), number),
        Move::MovOi => mov_insn(Width::W4, Place::Reg(low), number),
        Move::MovMi => mov_insn(operand_width(f), rm_place(f), number),
        Move::MovWideOi => Insn::MovWide {
            r: low,
            imm: imm64(imm),
        },
        Move::LeaRm => lea_insn(f),
        Move::MovSxdRm => Insn::MovSxd {
            r: reg_number(f),
            src: f.place,
        },
        Move::MovZxByteRm => movzx_insn(f, 1, byte_rm_place(f)),
        Move::MovZxWordRm => movzx_insn(f, 2, f.place),
        Move::MovSxByteRm => movsx_insn(f, 1, byte_rm_place(f)),
        Move::MovSxWordRm => movsx_insn(f, 2, f.place),
        Move::WidenZo => Insn::Widen { w: rex_width(f) },
        Move::SpreadZo => Insn::Spread { w: rex_width(f) },
        Move::CmovRm => cmov_insn(f),
        Move::SetM => Insn::Set {
            c: f.op % 16,
            dst: byte_rm_place(f),
        },
    }
}

/// Jumps, calls and the stack.
#[tactic(auto, unfolding(erim_defs::specs::Encoding::Forms::flow_of))]
fn flow_of(form: Flow, f: Fields, imm: &[u8]) -> Insn
    ensures { result ≡ flow_of form f imm.now }
{
    let number = signed_value(imm);
    match form {
        Flow::JccD => Insn::Jcc {
            c: f.op % 16,
            rel: number,
        },
        Flow::JmpD => Insn::Jmp { rel: number },
        Flow::CallD => Insn::Call { rel: number },
        Flow::JmpM => Insn::JmpTo { to: f.place },
        Flow::CallM => Insn::CallTo { to: f.place },
        Flow::RetZo => Insn::Ret,
        Flow::PushO => Insn::Push {
            src: Src::From(Place::Reg(opcode_reg(f))),
        },
        Flow::PushI => Insn::Push {
            src: Src::Imm(number),
        },
        Flow::PushM => Insn::Push {
            src: Src::From(f.place),
        },
        Flow::PopO => Insn::Pop { r: opcode_reg(f) },
        Flow::LeaveZo => Insn::Leave,
    }
}

/// Exchanges of two operands.
#[tactic(auto, unfolding(erim_defs::specs::Encoding::Forms::exchange_of))]
fn exchange_of(form: Exchange, f: Fields) -> Insn
    ensures { (imm : List ℕ) → result ≡ exchange_of form f imm }
{
    let w = operand_width(f);
    let place = rm_place(f);
    let r = reg_place(f);
    let lock = f.lock;
    match form {
        Exchange::XchgMr => Insn::Xchg {
            w,
            a: place,
            r,
            lock,
        },
        Exchange::CmpxchgMr => Insn::Cmpxchg {
            w,
            dst: place,
            r,
            lock,
        },
        Exchange::XaddMr => Insn::Xadd {
            w,
            dst: place,
            r,
            lock,
        },
    }
}

/// System instructions, fences and NOP.
#[tactic(auto, unfolding(erim_defs::specs::Encoding::Forms::system_of))]
fn system_of(form: System, f: Fields) -> Insn
    ensures { (imm : List ℕ) → result ≡ system_of form f imm }
{
    match form {
        System::SyscallZo => Insn::Syscall,
        System::WrpkruZo => Insn::Wrpkru,
        System::RdpkruZo => Insn::Rdpkru,
        System::XrstorM => Insn::Xrstor {
            m: memory_of(f.place),
        },
        System::FenceZo => Insn::Fence { kind: f.m / 8 % 8 },
        System::Nop => Insn::Nop,
    }
}

/// The instruction of a row.
#[tactic(auto, unfolding(erim_defs::specs::Encoding::Forms::insn_of))]
pub fn insn_of(form: Form, f: Fields, imm: &[u8]) -> Insn
    ensures { result ≡ insn_of form f imm.now }
{
    match form {
        Form::Arithmetic(form) => arithmetic_of(form, f, imm),
        Form::Move(form) => move_of(form, f, imm),
        Form::Flow(form) => flow_of(form, f, imm),
        Form::Exchange(form) => exchange_of(form, f),
        Form::System(form) => system_of(form, f),
    }
}
