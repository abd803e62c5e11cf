//! The names of instructions, widths and scales.

ghost use Rattle.std.specs.Prelude.{◌≡◌, Some, codes};
ghost use Rattle.erim_defs.specs.Encoding.Notation.{alu_name, shift_name, unary_name, scale_text};
ghost use Rattle.erim_defs.specs.Encoding.Notation.{width_text, lock_text, notation_of};

use erim_defs::{AluOp, Insn, ShiftOp, UnaryOp, Width};

fn alu_name(op: AluOp) -> &'static str
    ensures { result.now ≡ alu_name op }
{
    match op {
        AluOp::Add => "add",
        AluOp::Or => "or",
        AluOp::Adc => "adc",
        AluOp::Sbb => "sbb",
        AluOp::And => "and",
        AluOp::Sub => "sub",
        AluOp::Xor => "xor",
        AluOp::Cmp => "cmp",
    }
}

fn shift_name(op: ShiftOp) -> &'static str
    ensures { result.now ≡ shift_name op }
{
    match op {
        ShiftOp::Shl => "shl",
        ShiftOp::Shr => "shr",
        ShiftOp::Sar => "sar",
    }
}

fn unary_name(op: UnaryOp) -> &'static str
    ensures { result.now ≡ unary_name op }
{
    match op {
        UnaryOp::Not => "not",
        UnaryOp::Neg => "neg",
        UnaryOp::Inc => "inc",
        UnaryOp::Dec => "dec",
    }
}

/// 2 ^ `scale`, where it is 0 to 3.
pub fn scale_text(scale: u8) -> &'static str
    ensures { result.now ≡ scale_text scale }
{
    match scale {
        0 => "1",
        1 => "2",
        2 => "4",
        _ => "8",
    }
}

/// How many bytes an instruction works on, or nothing.
pub fn width_text(width: Option<Width>) -> &'static str
    ensures { result.now ≡ width_text width }
{
    match width {
        None => "",
        Some(Width::W1) => "1",
        Some(Width::W4) => "4",
        Some(Width::W8) => "8",
    }
}

/// What stands before the name.
pub fn lock_text(lock: bool) -> &'static str
    ensures { result.now ≡ lock_text lock }
{
    if lock { "lock " } else { "" }
}

/// The name of an instruction, without its width.
#[tactic(auto, unfolding(erim_defs::specs::Encoding::Notation::notation_of))]
pub fn insn_name(insn: &Insn) -> &'static str
    ensures { result.now ≡ (notation_of insn.now).name }
{
    match *insn {
        Insn::Alu { op, .. } => alu_name(op),
        Insn::Test { .. } => "test",
        Insn::Xchg { .. } => "xchg",
        Insn::Mov { .. } => "mov",
        Insn::MovWide { .. } => "movwide",
        Insn::Lea { .. } => "lea",
        Insn::Push { .. } => "push",
        Insn::Pop { .. } => "pop",
        Insn::MovSxd { .. } => "movsxd",
        Insn::MovZx { .. } => "movzx",
        Insn::MovSx { .. } => "movsx",
        Insn::Imul { .. } => "imul",
        Insn::Jcc { .. } => "jcc",
        Insn::Jmp { .. } => "jmp",
        Insn::Call { .. } => "call",
        Insn::JmpTo { .. } => "jmpto",
        Insn::CallTo { .. } => "callto",
        Insn::Ret => "ret",
        Insn::Leave => "leave",
        Insn::Widen { .. } => "widen",
        Insn::Spread { .. } => "spread",
        Insn::Shift { op, .. } => shift_name(op),
        Insn::Unary { op, .. } => unary_name(op),
        Insn::Cmov { .. } => "cmov",
        Insn::Set { .. } => "set",
        Insn::Bt { .. } => "bt",
        Insn::Cmpxchg { .. } => "cmpxchg",
        Insn::Xadd { .. } => "xadd",
        Insn::Syscall => "syscall",
        Insn::Wrpkru => "wrpkru",
        Insn::Rdpkru => "rdpkru",
        Insn::Xrstor { .. } => "xrstor",
        Insn::Fence { .. } => "fence",
        Insn::Nop => "nop",
    }
}
