//! Encoding: the bytes of an instruction.

ghost use Rattle.std.specs.Prelude.{◌≡◌, ◌≤◌, ◌++◌, ◌∷◌, ◌+◌, [], take, length, true, false};
ghost use Rattle.erim_defs.specs.Encoding.Canonical.{four_bytes, eight_bytes, opcode_with_register};
ghost use Rattle.erim_defs.specs.Encoding.Canonical.{opcode_alone, word_rm_bytes, control_bytes};
ghost use Rattle.erim_defs.specs.Encoding.Canonical.{canonical_encoding};
ghost use Rattle.erim_defs.specs.Encoding.WellFormed.{IsWellFormed};
ghost use Rattle.x86_encode.specs.ReadBack.{IsReadBack};
ghost use Rattle.x86_encode.specs.Buffer.{KeepsRest};

use crate::buffer::{put, put_eight, put_four};
use crate::kinds::{
    alu_number, put_alu, put_extending, put_imul, put_mov, put_push, put_shift, put_test,
    put_unary, shift_number,
};
use crate::opcodes::{
    is_wide, put_byte_rm, put_opcode_alone, put_opcode_register, put_reg_rm, put_word_rm,
};
use erim_defs::{Insn, Place, Width};

/// A direct jump or call, by its opcode and relative offset.
fn put_jump(into: &mut [u8; 15], escape: bool, op: u8, rel: i32) -> u8
    ensures fits { result ≤ 15 }
    ensures put { take result into.new ≡ opcode_alone false escape op ++ four_bytes rel }
    ensures kept { KeepsRest result into.old into.new }
{
    let at = put_opcode_alone(into, false, escape, op);
    put_four(into, at, rel)
}

/// MOV of 8 bytes.
fn put_wide(into: &mut [u8; 15], r: u8, imm: u64) -> u8
    ensures fits { result ≤ 15 }
    ensures put { take result into.new ≡ opcode_with_register true false 0xB8 r ++ eight_bytes imm }
    ensures kept { KeepsRest result into.old into.new }
{
    let at = put_opcode_register(into, true, false, 0xB8, r);
    put_eight(into, at, imm)
}

/// BT.
fn put_bt(into: &mut [u8; 15], w: Width, a: &Place, k: u8) -> u8
    ensures fits { result ≤ 15 }
    ensures put { take result into.new ≡ word_rm_bytes w true 0xBA 4 a.now ++ (k ∷ []) }
    ensures kept { KeepsRest result into.old into.new }
{
    let at = put_word_rm(into, w, true, 0xBA, 4, a);
    put(into, at, k)
}

/// The canonical encoding of a jump, of the stack or of a system instruction; nothing of any other.
#[tactic(auto, unfolding(erim_defs::specs::Encoding::Canonical::control_bytes))]
fn put_control(insn: &Insn, into: &mut [u8; 15]) -> u8
    ensures fits { result ≤ 15 }
    ensures put { take result into.new ≡ control_bytes insn.now }
    ensures kept { KeepsRest result into.old into.new }
{
    match *insn {
        Insn::Push { src } => put_push(into, &src),
        Insn::Pop { r } => put_opcode_register(into, false, false, 0x58, r),
        Insn::Jcc { c, rel } => put_jump(into, true, 0x80 + c % 16, rel),
        Insn::Jmp { rel } => put_jump(into, false, 0xE9, rel),
        Insn::Call { rel } => put_jump(into, false, 0xE8, rel),
        Insn::JmpTo { to } => put_word_rm(into, Width::W4, false, 0xFF, 4, &to),
        Insn::CallTo { to } => put_word_rm(into, Width::W4, false, 0xFF, 2, &to),
        Insn::Ret => put_opcode_alone(into, false, false, 0xC3),
        Insn::Leave => put_opcode_alone(into, false, false, 0xC9),
        Insn::Syscall => put_opcode_alone(into, false, true, 0x05),
        Insn::Wrpkru => put_word_rm(into, Width::W4, true, 0x01, 5, &Place::Reg(7)),
        Insn::Rdpkru => put_word_rm(into, Width::W4, true, 0x01, 5, &Place::Reg(6)),
        Insn::Xrstor { m } => put_word_rm(into, Width::W4, true, 0xAE, 5, &Place::At(m)),
        Insn::Fence { kind } => put_word_rm(into, Width::W4, true, 0xAE, kind, &Place::Reg(0)),
        Insn::Nop => put_opcode_alone(into, false, false, 0x90),
        _ => 0,
    }
}

/// The canonical encoding of any instruction.
#[tactic(auto, unfolding(erim_defs::specs::Encoding::Canonical::canonical_encoding))]
pub fn put_canonical(insn: &Insn, into: &mut [u8; 15]) -> u8
    ensures fits { result ≤ 15 }
    ensures put { take result into.new ≡ canonical_encoding insn.now }
    ensures kept { KeepsRest result into.old into.new }
{
    match *insn {
        Insn::Alu {
            op,
            w,
            dst,
            src,
            lock,
        } => put_alu(into, alu_number(op), w, &dst, &src, lock),
        Insn::Test { w, a, src } => put_test(into, w, &a, &src),
        Insn::Xchg { w, a, r, lock } => put_reg_rm(into, lock, w, false, 0x86, r, &a),
        Insn::Mov { w, dst, src } => put_mov(into, w, &dst, &src),
        Insn::MovWide { r, imm } => put_wide(into, r, imm),
        Insn::Lea { w, r, m } => put_word_rm(into, w, false, 0x8D, r, &Place::At(m)),
        Insn::MovSxd { r, src } => put_word_rm(into, Width::W8, false, 0x63, r, &src),
        Insn::MovZx { w, r, from, src } => put_extending(into, 0xB6, w, r, from, &src),
        Insn::MovSx { w, r, from, src } => put_extending(into, 0xBE, w, r, from, &src),
        Insn::Imul { w, r, a, b } => put_imul(into, w, r, &a, b),
        Insn::Widen { w } => put_opcode_alone(into, is_wide(w), false, 0x98),
        Insn::Spread { w } => put_opcode_alone(into, is_wide(w), false, 0x99),
        Insn::Shift { op, w, dst, by } => put_shift(into, shift_number(op), w, &dst, by),
        Insn::Unary { op, w, dst, lock } => put_unary(into, op, w, &dst, lock),
        Insn::Cmov { c, w, r, src } => put_word_rm(into, w, true, 0x40 + c % 16, r, &src),
        Insn::Set { c, dst } => put_byte_rm(into, Width::W4, 0x90 + c % 16, 0, &dst),
        Insn::Bt { w, a, bit } => put_bt(into, w, &a, bit),
        Insn::Cmpxchg { w, dst, r, lock } => put_reg_rm(into, lock, w, true, 0xB0, r, &dst),
        Insn::Xadd { w, dst, r, lock } => put_reg_rm(into, lock, w, true, 0xC0, r, &dst),
        _ => put_control(insn, into),
    }
}

/// Writes the canonical encoding of a well formed instruction to the front, and answers how many
/// bytes it has; the others stay. Read again, it gives the instruction, whatever follows. Takes no
/// memory.
pub fn encode(insn: &Insn, into: &mut [u8; 15]) -> u8
    requires { IsWellFormed insn.now }
    ensures canonical_encoding { take result into.new ≡ canonical_encoding insn.now }
    ensures long { result ≡ length (canonical_encoding insn.now) }
    ensures read { IsReadBack (canonical_encoding insn.now) insn.now }
    ensures kept { KeepsRest result into.old into.new }
{
    put_canonical(insn, into)
}
