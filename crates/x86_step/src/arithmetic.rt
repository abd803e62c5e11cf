//! Arithmetic and logic.

ghost use Rattle.std.specs.Prelude.{◌≡◌, ◌≤◌, ◌+◌};
ghost use Rattle.erim_defs.specs.Machine.Meaning.{plan_alu, plan_test, plan_unary, plan_shift};
ghost use Rattle.erim_defs.specs.Machine.Meaning.{plan_imul, plan_bt, write_outcome, count_of};
ghost use Rattle.erim_defs.specs.Machine.Meaning.{factor};
ghost use Rattle.x86_step.specs.Fits.{Fits};
ghost use Rattle.x86_step.specs.Executes.{Executes};

use crate::operands::{immediate, read, read_source, write};
use crate::registers::{low, onward_with, register, set_low};
use erim_defs::register::RCX;
use erim_defs::{Access, AluOp, By, Outcome, Place, ShiftOp, Src, Thread, UnaryOp, Width};
use page_store::Memory;
use x86_alu::{alu, bt, imul, shift, unary};

/// Writes what came of two operands; CMP writes nothing.
fn write_outcome<M: Memory>(
    op: AluOp,
    w: Width,
    dst: &Place,
    len: u8,
    outcome: Outcome,
    thread: &mut Thread,
    memory: &mut M,
) -> Result<(), Access>
    requires fits { Fits w outcome.value }
    requires spare { 1 ≤ M.spare memory.old }
    ensures executes { Executes M.Memory (write_outcome op w dst.now len thread.old outcome)
        thread.old thread.new memory.old memory.new result }
    ensures spare { M.spare memory.old ≤ M.spare memory.new + 1 }
{
    match op {
        AluOp::Cmp => {
            onward_with(thread, len, outcome.flags);
            Ok(())
        }
        _ => write(w, dst, len, outcome, thread, memory),
    }
}

/// Arithmetic and logic of two operands.
#[tactic(auto, unfolding(erim_defs::specs::Machine::Meaning::plan_alu))]
pub(crate) fn exec_alu<M: Memory>(
    op: AluOp,
    w: Width,
    dst: &Place,
    src: &Src,
    len: u8,
    thread: &mut Thread,
    memory: &mut M,
) -> Result<(), Access>
    requires spare { 10 ≤ M.spare memory.old }
    ensures executes { Executes M.Memory (plan_alu op w dst.now src.now len thread.old)
        thread.old thread.new memory.old memory.new result }
    ensures spare { M.spare memory.old ≤ M.spare memory.new + 10 }
{
    let a = read(w, dst, len, thread, memory)?;
    let b = read_source(w, src, len, thread, memory)?;
    let outcome = alu(op, w, a, b, thread.flags);
    write_outcome(op, w, dst, len, outcome, thread, memory)
}

/// TEST: the flags of AND.
#[tactic(auto, unfolding(erim_defs::specs::Machine::Meaning::plan_test))]
pub(crate) fn exec_test<M: Memory>(
    w: Width,
    first: &Place,
    src: &Src,
    len: u8,
    thread: &mut Thread,
    memory: &mut M,
) -> Result<(), Access>
    requires spare { 10 ≤ M.spare memory.old }
    ensures executes { Executes M.Memory (plan_test w first.now src.now len thread.old)
        thread.old thread.new memory.old memory.new result }
    ensures spare { M.spare memory.old ≤ M.spare memory.new + 10 }
{
    let a = read(w, first, len, thread, memory)?;
    let b = read_source(w, src, len, thread, memory)?;
    let outcome = alu(AluOp::And, w, a, b, thread.flags);
    onward_with(thread, len, outcome.flags);
    Ok(())
}

/// Arithmetic and logic of one operand.
#[tactic(auto, unfolding(erim_defs::specs::Machine::Meaning::plan_unary))]
pub(crate) fn exec_unary<M: Memory>(
    op: UnaryOp,
    w: Width,
    dst: &Place,
    len: u8,
    thread: &mut Thread,
    memory: &mut M,
) -> Result<(), Access>
    requires spare { 10 ≤ M.spare memory.old }
    ensures executes { Executes M.Memory (plan_unary op w dst.now len thread.old)
        thread.old thread.new memory.old memory.new result }
    ensures spare { M.spare memory.old ≤ M.spare memory.new + 10 }
{
    let a = read(w, dst, len, thread, memory)?;
    let outcome = unary(op, w, a, thread.flags);
    write(w, dst, len, outcome, thread, memory)
}

/// How far to shift.
fn count_of(by: By, thread: &Thread) -> u8
    ensures { result ≡ count_of by thread.now }
{
    match by {
        By::Count(n) => n,
        By::Cl => (register(thread, RCX) % 256) as u8,
    }
}

/// A shift.
#[tactic(auto, unfolding(erim_defs::specs::Machine::Meaning::plan_shift))]
pub(crate) fn exec_shift<M: Memory>(
    op: ShiftOp,
    w: Width,
    dst: &Place,
    by: By,
    len: u8,
    thread: &mut Thread,
    memory: &mut M,
) -> Result<(), Access>
    requires spare { 10 ≤ M.spare memory.old }
    ensures executes { Executes M.Memory (plan_shift op w dst.now by len thread.old)
        thread.old thread.new memory.old memory.new result }
    ensures spare { M.spare memory.old ≤ M.spare memory.new + 10 }
{
    let a = read(w, dst, len, thread, memory)?;
    let outcome = shift(op, w, a, count_of(by, thread), thread.flags);
    write(w, dst, len, outcome, thread, memory)
}

/// The second factor: an immediate, else the register itself.
fn factor(w: Width, b: Option<i32>, r: u8, thread: &Thread) -> u64
    ensures value { result ≡ factor w b r thread.now }
    ensures fits { Fits w result }
{
    match b {
        None => low(w, r, thread),
        Some(i) => immediate(w, i),
    }
}

/// IMUL to a register.
#[tactic(auto, unfolding(erim_defs::specs::Machine::Meaning::plan_imul))]
pub(crate) fn exec_imul<M: Memory>(
    w: Width,
    r: u8,
    place: &Place,
    b: Option<i32>,
    len: u8,
    thread: &mut Thread,
    memory: &mut M,
) -> Result<(), Access>
    requires spare { 10 ≤ M.spare memory.old }
    ensures executes { Executes M.Memory (plan_imul w r place.now b len thread.old)
        thread.old thread.new memory.old memory.new result }
    ensures spare { M.spare memory.old ≤ M.spare memory.new + 10 }
{
    let a = read(w, place, len, thread, memory)?;
    let outcome = imul(w, a, factor(w, b, r, thread), thread.flags);
    onward_with(thread, len, outcome.flags);
    set_low(w, thread, r, outcome.value);
    Ok(())
}

/// BT: one bit.
#[tactic(auto, unfolding(erim_defs::specs::Machine::Meaning::plan_bt))]
pub(crate) fn exec_bt<M: Memory>(
    w: Width,
    place: &Place,
    bit: u8,
    len: u8,
    thread: &mut Thread,
    memory: &mut M,
) -> Result<(), Access>
    requires spare { 10 ≤ M.spare memory.old }
    ensures executes { Executes M.Memory (plan_bt w place.now bit len thread.old)
        thread.old thread.new memory.old memory.new result }
    ensures spare { M.spare memory.old ≤ M.spare memory.new + 10 }
{
    let a = read(w, place, len, thread, memory)?;
    let flags = bt(w, a, bit, thread.flags);
    onward_with(thread, len, flags);
    Ok(())
}
