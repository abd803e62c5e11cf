//! The encodings of each kind of instruction that has more than one.

ghost use Rattle.std.specs.Prelude.{◌≡◌, ◌<◌, ◌≤◌, ◌*◌, ◌++◌, ◌∷◌, [], take};
ghost use Rattle.erim_defs.specs.Encoding.Canonical.{is_wide, asks_rex, alu_number, alu_imm_bytes};
ghost use Rattle.erim_defs.specs.Encoding.Canonical.{alu_bytes, test_bytes, mov_imm_bytes};
ghost use Rattle.erim_defs.specs.Encoding.Canonical.{mov_bytes, push_bytes, extension_bytes};
ghost use Rattle.erim_defs.specs.Encoding.Canonical.{imul_bytes, shift_number, shift_bytes};
ghost use Rattle.erim_defs.specs.Encoding.Canonical.{unary_bytes};
ghost use Rattle.x86_encode.specs.Buffer.{KeepsRest};

use crate::buffer::{fits_byte, put, put_four, put_of_width, put_one, put_shortest};
use crate::opcodes::{
    Opcode, asks_rex, is_wide, put_byte_rm, put_opcode_alone, put_opcode_modrm,
    put_opcode_register, put_reg_rm, put_rm, put_word_rm,
};
use crate::operand::register_number;
use erim_defs::{AluOp, By, Place, ShiftOp, Src, UnaryOp, Width};

/// The number of an operation of arithmetic and logic in its opcodes.
#[tactic(auto, unfolding(erim_defs::specs::Encoding::Canonical::alu_number))]
pub fn alu_number(op: AluOp) -> u8
    ensures is { result ≡ alu_number op }
    ensures low { result < 8 }
{
    match op {
        AluOp::Add => 0,
        AluOp::Or => 1,
        AluOp::Adc => 2,
        AluOp::Sbb => 3,
        AluOp::And => 4,
        AluOp::Sub => 5,
        AluOp::Xor => 6,
        AluOp::Cmp => 7,
    }
}

/// Arithmetic and logic with an immediate.
#[tactic(auto, unfolding(erim_defs::specs::Encoding::Canonical::alu_imm_bytes))]
fn put_alu_immediate(into: &mut [u8; 15], n: u8, w: Width, dst: &Place, z: i32, lock: bool) -> u8
    ensures fits { result ≤ 15 }
    ensures put { take result into.new ≡ alu_imm_bytes n w dst.now z lock }
    ensures kept { KeepsRest result into.old into.new }
{
    if w == Width::W1 {
        let at = put_rm(into, lock, Width::W1, 0x80, n, dst);
        return put_one(into, at, z);
    }
    let code = Opcode {
        lock,
        wide: is_wide(w),
        asked: false,
        escape: false,
        op: if fits_byte(z) { 0x83 } else { 0x81 },
    };
    let at = put_opcode_modrm(into, code, n, dst);
    put_shortest(into, at, z)
}

/// Arithmetic and logic of two operands.
#[tactic(auto, unfolding(erim_defs::specs::Encoding::Canonical::alu_bytes))]
pub fn put_alu(into: &mut [u8; 15], n: u8, w: Width, dst: &Place, src: &Src, lock: bool) -> u8
    requires { n < 8 }
    ensures fits { result ≤ 15 }
    ensures put { take result into.new ≡ alu_bytes n w dst.now src.now lock }
    ensures kept { KeepsRest result into.old into.new }
{
    match src {
        Src::From(Place::At(m)) => put_reg_rm(
            into,
            lock,
            w,
            false,
            8 * n + 2,
            *dst,
            &Place::At(*m),
        ),
        Src::From(Place::Reg(r)) => put_reg_rm(into, lock, w, false, 8 * n, Place::Reg(*r), dst),
        Src::From(Place::High(r)) => put_reg_rm(into, lock, w, false, 8 * n, Place::High(*r), dst),
        Src::Imm(z) => put_alu_immediate(into, n, w, dst, *z, lock),
    }
}

/// TEST.
#[tactic(auto, unfolding(erim_defs::specs::Encoding::Canonical::test_bytes))]
pub fn put_test(into: &mut [u8; 15], w: Width, a: &Place, src: &Src) -> u8
    ensures fits { result ≤ 15 }
    ensures put { take result into.new ≡ test_bytes w a.now src.now }
    ensures kept { KeepsRest result into.old into.new }
{
    match src {
        Src::From(r) => put_reg_rm(into, false, w, false, 0x84, *r, a),
        Src::Imm(z) => {
            let at = put_rm(into, false, w, 0xF6, 0, a);
            put_of_width(into, at, w, *z)
        }
    }
}

/// MOV of an immediate.
#[tactic(auto, unfolding(erim_defs::specs::Encoding::Canonical::mov_imm_bytes))]
fn put_mov_immediate(into: &mut [u8; 15], w: Width, dst: &Place, z: i32) -> u8
    ensures fits { result ≤ 15 }
    ensures put { take result into.new ≡ mov_imm_bytes w dst.now z }
    ensures kept { KeepsRest result into.old into.new }
{
    match (dst, w) {
        (Place::At(m), _) => {
            let at = put_rm(into, false, w, 0xC6, 0, &Place::At(*m));
            put_of_width(into, at, w, z)
        }
        (_, Width::W1) => {
            let at = put_opcode_register(
                into,
                false,
                asks_rex(Width::W1, dst),
                0xB0,
                register_number(*dst),
            );
            put_one(into, at, z)
        }
        (_, Width::W4) => {
            let at = put_opcode_register(into, false, false, 0xB8, register_number(*dst));
            put_four(into, at, z)
        }
        (_, Width::W8) => {
            let at = put_rm(into, false, Width::W8, 0xC6, 0, dst);
            put_four(into, at, z)
        }
    }
}

/// MOV.
#[tactic(auto, unfolding(erim_defs::specs::Encoding::Canonical::mov_bytes))]
pub fn put_mov(into: &mut [u8; 15], w: Width, dst: &Place, src: &Src) -> u8
    ensures fits { result ≤ 15 }
    ensures put { take result into.new ≡ mov_bytes w dst.now src.now }
    ensures kept { KeepsRest result into.old into.new }
{
    match src {
        Src::From(Place::At(m)) => put_reg_rm(into, false, w, false, 0x8A, *dst, &Place::At(*m)),
        Src::From(Place::Reg(r)) => put_reg_rm(into, false, w, false, 0x88, Place::Reg(*r), dst),
        Src::From(Place::High(r)) => put_reg_rm(into, false, w, false, 0x88, Place::High(*r), dst),
        Src::Imm(z) => put_mov_immediate(into, w, dst, *z),
    }
}

/// PUSH.
#[tactic(auto, unfolding(erim_defs::specs::Encoding::Canonical::push_bytes))]
pub fn put_push(into: &mut [u8; 15], src: &Src) -> u8
    ensures fits { result ≤ 15 }
    ensures put { take result into.new ≡ push_bytes src.now }
    ensures kept { KeepsRest result into.old into.new }
{
    match src {
        Src::From(Place::At(m)) => put_word_rm(into, Width::W4, false, 0xFF, 6, &Place::At(*m)),
        Src::From(Place::Reg(r)) => put_opcode_register(into, false, false, 0x50, *r),
        Src::From(Place::High(r)) => put_opcode_register(
            into,
            false,
            false,
            0x50,
            register_number(Place::High(*r)),
        ),
        Src::Imm(z) => {
            let op = if fits_byte(*z) { 0x6A } else { 0x68 };
            let at = put_opcode_alone(into, false, false, op);
            put_shortest(into, at, *z)
        }
    }
}

/// MOVZX or MOVSX of 1 byte by an opcode, or of 2 by the next.
#[tactic(auto, unfolding(erim_defs::specs::Encoding::Canonical::extension_bytes))]
pub fn put_extending(into: &mut [u8; 15], op: u8, w: Width, r: u8, from: u8, src: &Place) -> u8
    requires { op < 255 }
    ensures fits { result ≤ 15 }
    ensures put { take result into.new ≡ extension_bytes op w r from src.now }
    ensures kept { KeepsRest result into.old into.new }
{
    if from == 1 {
        put_byte_rm(into, w, op, r, src)
    } else {
        put_word_rm(into, w, true, op + 1, r, src)
    }
}

/// IMUL.
#[tactic(auto, unfolding(erim_defs::specs::Encoding::Canonical::imul_bytes))]
pub fn put_imul(into: &mut [u8; 15], w: Width, r: u8, a: &Place, b: Option<i32>) -> u8
    ensures fits { result ≤ 15 }
    ensures put { take result into.new ≡ imul_bytes w r a.now b }
    ensures kept { KeepsRest result into.old into.new }
{
    match b {
        None => put_word_rm(into, w, true, 0xAF, r, a),
        Some(z) => {
            let op = if fits_byte(z) { 0x6B } else { 0x69 };
            let at = put_word_rm(into, w, false, op, r, a);
            put_shortest(into, at, z)
        }
    }
}

/// The reg of a shift.
#[tactic(auto, unfolding(erim_defs::specs::Encoding::Canonical::shift_number))]
pub fn shift_number(op: ShiftOp) -> u8
    ensures { result ≡ shift_number op }
{
    match op {
        ShiftOp::Shl => 4,
        ShiftOp::Shr => 5,
        ShiftOp::Sar => 7,
    }
}

/// A shift.
#[tactic(auto, unfolding(erim_defs::specs::Encoding::Canonical::shift_bytes))]
pub fn put_shift(into: &mut [u8; 15], n: u8, w: Width, dst: &Place, by: By) -> u8
    ensures fits { result ≤ 15 }
    ensures put { take result into.new ≡ shift_bytes n w dst.now by }
    ensures kept { KeepsRest result into.old into.new }
{
    match by {
        By::Count(k) => {
            let at = put_rm(into, false, w, 0xC0, n, dst);
            put(into, at, k)
        }
        By::Cl => put_rm(into, false, w, 0xD2, n, dst),
    }
}

/// Arithmetic and logic of one operand.
#[tactic(auto, unfolding(erim_defs::specs::Encoding::Canonical::unary_bytes))]
pub fn put_unary(into: &mut [u8; 15], op: UnaryOp, w: Width, dst: &Place, lock: bool) -> u8
    ensures fits { result ≤ 15 }
    ensures put { take result into.new ≡ unary_bytes op w dst.now lock }
    ensures kept { KeepsRest result into.old into.new }
{
    match op {
        UnaryOp::Not => put_rm(into, lock, w, 0xF6, 2, dst),
        UnaryOp::Neg => put_rm(into, lock, w, 0xF6, 3, dst),
        UnaryOp::Inc => put_rm(into, lock, w, 0xFE, 0, dst),
        UnaryOp::Dec => put_rm(into, lock, w, 0xFE, 1, dst),
    }
}
