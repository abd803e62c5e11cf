//! Exchanges that are locked.

ghost use Rattle.std.specs.Prelude.{◌≡◌, ◌≤◌, ◌+◌};
ghost use Rattle.erim_defs.specs.Machine.Meaning.{plan_xadd, plan_cmpxchg, write_back};
ghost use Rattle.x86_step.specs.Executes.{Executes, Puts};

use crate::operands::{read, store, write};
use crate::registers::{low, onward_with, operand, set_low, set_operand};
use erim_defs::register::RAX;
use erim_defs::{Access, AluOp, Outcome, Place, Thread, Width};
use page_store::Memory;
use x86_alu::alu;

/// XADD: the sum to the destination, the old destination to the register.
#[tactic(auto, unfolding(erim_defs::specs::Machine::Meaning::plan_xadd))]
pub(crate) fn exec_xadd<M: Memory>(
    w: Width,
    dst: &Place,
    r: &Place,
    len: u8,
    thread: &mut Thread,
    memory: &mut M,
) -> Result<(), Access>
    requires spare { 10 ≤ M.spare memory.old }
    ensures executes { Executes M.Memory (plan_xadd w dst.now r.now len thread.old)
        thread.old thread.new memory.old memory.new result }
    ensures spare { M.spare memory.old ≤ M.spare memory.new + 10 }
{
    let a = read(w, dst, len, thread, memory)?;
    let outcome = alu(AluOp::Add, w, a, operand(w, r, thread), thread.flags);
    store(w, dst, len, outcome.value, thread, memory)?;
    onward_with(thread, len, outcome.flags);
    set_operand(w, r, thread, a);
    set_operand(w, dst, thread, outcome.value);
    Ok(())
}

/// Stores what a destination in memory held; a register isn't written.
fn store_back<M: Memory>(
    w: Width,
    dst: &Place,
    len: u8,
    value: u64,
    thread: &Thread,
    memory: &mut M,
) -> Result<(), Access>
    requires spare { 1 ≤ M.spare memory.old }
    ensures puts { Puts M.Memory (λ next. write_back w dst.now len thread.now next value)
        (λ next. next) thread.now memory.old memory.new result }
    ensures spare { M.spare memory.old ≤ M.spare memory.new + 1 }
{
    match dst {
        Place::At(_) => store(w, dst, len, value, thread, memory),
        Place::Reg(_) | Place::High(_) => Ok(()),
    }
}

/// CMPXCHG: where RAX has the destination the register goes there, else it goes to RAX.
#[tactic(auto, unfolding(erim_defs::specs::Machine::Meaning::plan_cmpxchg))]
pub(crate) fn exec_cmpxchg<M: Memory>(
    w: Width,
    dst: &Place,
    r: &Place,
    len: u8,
    thread: &mut Thread,
    memory: &mut M,
) -> Result<(), Access>
    requires spare { 10 ≤ M.spare memory.old }
    ensures executes { Executes M.Memory (plan_cmpxchg w dst.now r.now len thread.old)
        thread.old thread.new memory.old memory.new result }
    ensures spare { M.spare memory.old ≤ M.spare memory.new + 10 }
{
    let a = read(w, dst, len, thread, memory)?;
    let x = low(w, RAX, thread);
    let flags = alu(AluOp::Cmp, w, x, a, thread.flags).flags;
    if x == a {
        let value = operand(w, r, thread);
        return write(w, dst, len, Outcome { value, flags }, thread, memory);
    }
    store_back(w, dst, len, a, thread, memory)?;
    onward_with(thread, len, flags);
    set_low(w, thread, RAX, a);
    Ok(())
}
