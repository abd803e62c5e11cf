//! Moves.

ghost use Rattle.std.specs.Prelude.{◌≡◌, ◌≤◌, ◌+◌, ◌-◌, ◌*◌, ◌/◌, ◌^◌, None, if◌then◌else◌};
ghost use Rattle.erim_defs.specs.Machine.Plan.{Give};
ghost use Rattle.erim_defs.specs.Machine.Meaning.{plan_mov, plan_xchg, plan_lea, plan_movsx};
ghost use Rattle.erim_defs.specs.Machine.Meaning.{plan_movzx, plan_cmov, plan_set, plan_widen};
ghost use Rattle.erim_defs.specs.Machine.Meaning.{extended_bytes, plan_spread};
ghost use Rattle.erim_defs.specs.Machine.Alu.{is_negative};
ghost use Rattle.erim_defs.specs.Machine.Registers.{byte_count, int_width, low_bytes};
ghost use Rattle.erim_defs.specs.Machine.Registers.{onward, sign_extended, with_register};
ghost use Rattle.page_store.specs.Answers.{IsWidth};
ghost use Rattle.x86_step.specs.Fits.{Fits};
ghost use Rattle.x86_step.specs.Executes.{Executes};

use crate::operands::{address, read, read_bytes, read_source, store, write};
use crate::registers::{
    byte_count, low, low_bytes, onward, operand, register, set_low, set_operand, set_register,
    sign_extended,
};
use erim_defs::register::{RAX, RDX};
use erim_defs::{Access, Mem, Outcome, Place, Src, Thread, Width};
use page_store::Memory;
use x86_alu::condition;

/// MOV.
#[tactic(auto, unfolding(erim_defs::specs::Machine::Meaning::plan_mov))]
pub(crate) fn exec_mov<M: Memory>(
    w: Width,
    dst: &Place,
    src: &Src,
    len: u8,
    thread: &mut Thread,
    memory: &mut M,
) -> Result<(), Access>
    requires spare { 10 ≤ M.spare memory.old }
    ensures executes { Executes M.Memory (plan_mov w dst.now src.now len thread.old)
        thread.old thread.new memory.old memory.new result }
    ensures spare { M.spare memory.old ≤ M.spare memory.new + 10 }
{
    let value = read_source(w, src, len, thread, memory)?;
    let outcome = Outcome {
        value,
        flags: thread.flags,
    };
    write(w, dst, len, outcome, thread, memory)
}

/// XCHG: the register is written first, the operand then.
#[tactic(auto, unfolding(erim_defs::specs::Machine::Meaning::plan_xchg))]
pub(crate) fn exec_xchg<M: Memory>(
    w: Width,
    place: &Place,
    r: &Place,
    len: u8,
    thread: &mut Thread,
    memory: &mut M,
) -> Result<(), Access>
    requires spare { 10 ≤ M.spare memory.old }
    ensures executes { Executes M.Memory (plan_xchg w place.now r.now len thread.old)
        thread.old thread.new memory.old memory.new result }
    ensures spare { M.spare memory.old ≤ M.spare memory.new + 10 }
{
    let x = read(w, place, len, thread, memory)?;
    let value = operand(w, r, thread);
    store(w, place, len, value, thread, memory)?;
    onward(thread, len);
    set_operand(w, r, thread, x);
    set_operand(w, place, thread, value);
    Ok(())
}

/// MOV of 8 bytes in the instruction to a register.
pub(crate) fn exec_mov_wide(r: u8, imm: u64, len: u8, thread: &mut Thread)
    ensures { thread.new ≡ with_register (onward len thread.old) r imm }
{
    onward(thread, len);
    set_register(thread, r, imm);
}

/// LEA.
#[tactic(auto, unfolding(erim_defs::specs::Machine::Meaning::plan_lea))]
pub(crate) fn exec_lea(w: Width, r: u8, m: &Mem, len: u8, thread: &mut Thread)
    ensures { plan_lea w r m.now len thread.old ≡ Give thread.new None }
{
    let value = low_bytes(byte_count(w), address(m, len, thread));
    onward(thread, len);
    set_low(w, thread, r, value);
}

/// How many bytes MOVSX and MOVZX extend: 1 or 2.
pub(crate) fn extended_bytes(from: u8) -> u8
    ensures count { result ≡ extended_bytes from }
    ensures width { IsWidth result }
{
    if from == 1 { 1 } else { 2 }
}

/// MOVSX and MOVSXD: `n` bytes, signed, to the width.
#[tactic(auto, unfolding(erim_defs::specs::Machine::Meaning::plan_movsx))]
pub(crate) fn exec_movsx<M: Memory>(
    w: Width,
    r: u8,
    n: u8,
    src: &Place,
    len: u8,
    thread: &mut Thread,
    memory: &mut M,
) -> Result<(), Access>
    requires width { IsWidth n }
    requires spare { 10 ≤ M.spare memory.old }
    ensures executes { Executes M.Memory (plan_movsx w r n src.now len thread.old)
        thread.old thread.new memory.old memory.new result }
    ensures spare { M.spare memory.old ≤ M.spare memory.new + 10 }
{
    let x = read_bytes(n, src, len, thread, memory)?;
    onward(thread, len);
    set_low(w, thread, r, low_bytes(byte_count(w), sign_extended(n, x)));
    Ok(())
}

/// MOVZX of `n` bytes.
#[tactic(auto, unfolding(erim_defs::specs::Machine::Meaning::plan_movzx))]
pub(crate) fn exec_movzx<M: Memory>(
    w: Width,
    r: u8,
    n: u8,
    src: &Place,
    len: u8,
    thread: &mut Thread,
    memory: &mut M,
) -> Result<(), Access>
    requires width { IsWidth n }
    requires spare { 10 ≤ M.spare memory.old }
    ensures executes { Executes M.Memory (plan_movzx w r n src.now len thread.old)
        thread.old thread.new memory.old memory.new result }
    ensures spare { M.spare memory.old ≤ M.spare memory.new + 10 }
{
    let x = read_bytes(n, src, len, thread, memory)?;
    onward(thread, len);
    set_low(w, thread, r, low_bytes(byte_count(w), x));
    Ok(())
}

/// The first value where a condition holds, else the second.
fn chosen(holds: bool, x: u64, y: u64) -> u64
    ensures { result ≡ (if holds then x else y) }
{
    if holds { x } else { y }
}

/// MOV where a condition holds. The source is loaded also where it fails.
#[tactic(auto, unfolding(erim_defs::specs::Machine::Meaning::plan_cmov))]
pub(crate) fn exec_cmov<M: Memory>(
    c: u8,
    w: Width,
    r: u8,
    src: &Place,
    len: u8,
    thread: &mut Thread,
    memory: &mut M,
) -> Result<(), Access>
    requires spare { 10 ≤ M.spare memory.old }
    ensures executes { Executes M.Memory (plan_cmov c w r src.now len thread.old)
        thread.old thread.new memory.old memory.new result }
    ensures spare { M.spare memory.old ≤ M.spare memory.new + 10 }
{
    let x = read(w, src, len, thread, memory)?;
    let value = chosen(condition(c, thread.flags), x, low(w, r, thread));
    onward(thread, len);
    set_low(w, thread, r, value);
    Ok(())
}

/// SETcc.
#[tactic(auto, unfolding(erim_defs::specs::Machine::Meaning::plan_set))]
pub(crate) fn exec_set<M: Memory>(
    c: u8,
    dst: &Place,
    len: u8,
    thread: &mut Thread,
    memory: &mut M,
) -> Result<(), Access>
    requires spare { 10 ≤ M.spare memory.old }
    ensures executes { Executes M.Memory (plan_set c dst.now len thread.old)
        thread.old thread.new memory.old memory.new result }
    ensures spare { M.spare memory.old ≤ M.spare memory.new + 10 }
{
    let outcome = Outcome {
        value: chosen(condition(c, thread.flags), 1, 0),
        flags: thread.flags,
    };
    write(Width::W1, dst, len, outcome, thread, memory)
}

/// The lower half of a number, signed, to the width.
fn sign_extended_half(w: Width, x: u64) -> u64
    ensures value { let half = byte_count w / 2 in
        result ≡ low_bytes (byte_count w) (sign_extended half (low_bytes half x)) }
    ensures fits { Fits w result }
{
    match w {
        Width::W1 => 0,
        Width::W4 => low_bytes(4, sign_extended(2, low_bytes(2, x))),
        Width::W8 => sign_extended(4, low_bytes(4, x)),
    }
}

/// CWDE and CDQE.
#[tactic(auto, unfolding(erim_defs::specs::Machine::Meaning::plan_widen))]
pub(crate) fn exec_widen(w: Width, len: u8, thread: &mut Thread)
    ensures { plan_widen w len thread.old ≡ Give thread.new None }
{
    let value = sign_extended_half(w, register(thread, RAX));
    onward(thread, len);
    set_low(w, thread, RAX, value);
}

/// All ones where a number is negative, else 0.
fn sign_of(w: Width, x: u64) -> u64
    requires { Fits w x }
    ensures value { result
        ≡ (if is_negative (int_width w) x then 2 ^ (8 * byte_count w) - 1 else 0) }
    ensures fits { Fits w result }
{
    let (half, ones) = match w {
        Width::W1 => (1 << 7, 0xFF),
        Width::W4 => (1 << 31, 0xFFFF_FFFF),
        Width::W8 => (1 << 63, u64::MAX),
    };
    if x < half { 0 } else { ones }
}

/// CDQ and CQO.
#[tactic(auto, unfolding(erim_defs::specs::Machine::Meaning::plan_spread))]
pub(crate) fn exec_spread(w: Width, len: u8, thread: &mut Thread)
    ensures { plan_spread w len thread.old ≡ Give thread.new None }
{
    let value = sign_of(w, low(w, RAX, thread));
    onward(thread, len);
    set_low(w, thread, RDX, value);
}
