//! The stack, jumps and calls.

ghost use Rattle.std.specs.Prelude.{◌≡◌, ◌≤◌, ◌+◌, None};
ghost use Rattle.erim_defs.specs.Machine.Plan.{Give};
ghost use Rattle.erim_defs.specs.Machine.Meaning.{plan_push, plan_pop, plan_leave, plan_jcc};
ghost use Rattle.erim_defs.specs.Machine.Meaning.{plan_call, plan_jmp_to, plan_call_to, plan_ret};
ghost use Rattle.erim_defs.specs.Machine.Operands.{push, raised_rsp, lowered_rsp};
ghost use Rattle.erim_defs.specs.Machine.Registers.{register, with_register};
ghost use Rattle.x86_step.specs.Executes.{Executes, Puts, write_at};

use crate::operands::{load_named, read, read_source, store_bytes};
use crate::registers::{jump, jump_target, next_rip, onward, register, set_register};
use erim_defs::register::{RBP, RSP};
use erim_defs::{Access, Place, Src, Thread, Width};
use page_store::Memory;
use x86_alu::condition;

/// Raises RSP to after the number in the 8 bytes that a register names.
fn raise(thread: &mut Thread, r: u8)
    ensures { thread.new ≡ with_register thread.old RSP (raised_rsp (register thread.old r)) }
{
    let rsp = register(thread, r).wrapping_add(8);
    set_register(thread, RSP, rsp);
}

/// RSP after a number that is pushed.
fn lowered_rsp(thread: &Thread) -> u64
    ensures { result ≡ lowered_rsp (register thread.now RSP) }
{
    register(thread, RSP).wrapping_sub(8)
}

/// Lowers RSP for a number that is pushed.
fn lower(thread: &mut Thread)
    ensures { thread.new ≡ with_register thread.old RSP (lowered_rsp (register thread.old RSP)) }
{
    let rsp = lowered_rsp(thread);
    set_register(thread, RSP, rsp);
}

/// Stores a value that is pushed.
fn store_pushed<M: Memory>(value: u64, thread: &Thread, memory: &mut M) -> Result<(), Access>
    requires { 1 ≤ M.spare memory.old }
    ensures puts { Puts M.Memory
        (λ next. Give next (write_at (lowered_rsp (register thread.now RSP)) 8 value))
        (λ next. next) thread.now memory.old memory.new result }
    ensures spare { M.spare memory.old ≤ M.spare memory.new + 1 }
{
    store_bytes(8, lowered_rsp(thread), value, thread, memory)
}

/// Pushes a value, and goes on at `rip`.
fn push<M: Memory>(rip: u64, value: u64, thread: &mut Thread, memory: &mut M) -> Result<(), Access>
    requires spare { 1 ≤ M.spare memory.old }
    ensures executes { let t = thread.old in
        Executes M.Memory (push (record t { rip = rip }) value) t thread.new memory.old memory.new
        result }
    ensures spare { M.spare memory.old ≤ M.spare memory.new + 1 }
{
    store_pushed(value, thread, memory)?;
    thread.rip = rip;
    lower(thread);
    Ok(())
}

/// PUSH: the value is taken before RSP is lowered.
#[tactic(auto, unfolding(erim_defs::specs::Machine::Meaning::plan_push))]
pub(crate) fn exec_push<M: Memory>(
    src: &Src,
    len: u8,
    thread: &mut Thread,
    memory: &mut M,
) -> Result<(), Access>
    requires spare { 10 ≤ M.spare memory.old }
    ensures executes { Executes M.Memory (plan_push src.now len thread.old)
        thread.old thread.new memory.old memory.new result }
    ensures spare { M.spare memory.old ≤ M.spare memory.new + 10 }
{
    let value = read_source(Width::W8, src, len, thread, memory)?;
    push(next_rip(thread, len), value, thread, memory)
}

/// POP: RSP is raised before the register is written.
#[tactic(auto, unfolding(erim_defs::specs::Machine::Meaning::plan_pop))]
pub(crate) fn exec_pop<M: Memory>(
    r: u8,
    len: u8,
    thread: &mut Thread,
    memory: &mut M,
) -> Result<(), Access>
    requires spare { 10 ≤ M.spare memory.old }
    ensures executes { Executes M.Memory (plan_pop r len thread.old)
        thread.old thread.new memory.old memory.new result }
    ensures spare { M.spare memory.old ≤ M.spare memory.new + 10 }
{
    let value = load_named(RSP, thread, memory)?;
    onward(thread, len);
    raise(thread, RSP);
    set_register(thread, r, value);
    Ok(())
}

/// LEAVE: RSP becomes RBP, and RBP is popped.
#[tactic(auto, unfolding(erim_defs::specs::Machine::Meaning::plan_leave))]
pub(crate) fn exec_leave<M: Memory>(
    len: u8,
    thread: &mut Thread,
    memory: &mut M,
) -> Result<(), Access>
    requires spare { 10 ≤ M.spare memory.old }
    ensures executes { Executes M.Memory (plan_leave len thread.old)
        thread.old thread.new memory.old memory.new result }
    ensures spare { M.spare memory.old ≤ M.spare memory.new + 10 }
{
    let value = load_named(RBP, thread, memory)?;
    onward(thread, len);
    raise(thread, RBP);
    set_register(thread, RBP, value);
    Ok(())
}

/// A jump where a condition holds.
#[tactic(auto, unfolding(erim_defs::specs::Machine::Meaning::plan_jcc))]
pub(crate) fn exec_jcc(c: u8, rel: i32, len: u8, thread: &mut Thread)
    ensures { plan_jcc c rel len thread.old ≡ Give thread.new None }
{
    if condition(c, thread.flags) {
        jump(thread, len, rel);
    } else {
        onward(thread, len);
    }
}

/// A call.
#[tactic(auto, unfolding(erim_defs::specs::Machine::Meaning::plan_call))]
pub(crate) fn exec_call<M: Memory>(
    rel: i32,
    len: u8,
    thread: &mut Thread,
    memory: &mut M,
) -> Result<(), Access>
    requires spare { 10 ≤ M.spare memory.old }
    ensures executes { Executes M.Memory (plan_call rel len thread.old)
        thread.old thread.new memory.old memory.new result }
    ensures spare { M.spare memory.old ≤ M.spare memory.new + 10 }
{
    let next = next_rip(thread, len);
    push(jump_target(thread, len, rel), next, thread, memory)
}

/// A jump to the address that stands at a place.
#[tactic(auto, unfolding(erim_defs::specs::Machine::Meaning::plan_jmp_to))]
pub(crate) fn exec_jmp_to<M: Memory>(
    to: &Place,
    len: u8,
    thread: &mut Thread,
    memory: &mut M,
) -> Result<(), Access>
    requires spare { 10 ≤ M.spare memory.old }
    ensures executes { Executes M.Memory (plan_jmp_to to.now len thread.old)
        thread.old thread.new memory.old memory.new result }
    ensures spare { M.spare memory.old ≤ M.spare memory.new + 10 }
{
    thread.rip = read(Width::W8, to, len, thread, memory)?;
    Ok(())
}

/// A call of the address that stands at a place.
#[tactic(auto, unfolding(erim_defs::specs::Machine::Meaning::plan_call_to))]
pub(crate) fn exec_call_to<M: Memory>(
    to: &Place,
    len: u8,
    thread: &mut Thread,
    memory: &mut M,
) -> Result<(), Access>
    requires spare { 10 ≤ M.spare memory.old }
    ensures executes { Executes M.Memory (plan_call_to to.now len thread.old)
        thread.old thread.new memory.old memory.new result }
    ensures spare { M.spare memory.old ≤ M.spare memory.new + 10 }
{
    let target = read(Width::W8, to, len, thread, memory)?;
    push(target, next_rip(thread, len), thread, memory)
}

/// RET.
#[tactic(auto, unfolding(erim_defs::specs::Machine::Meaning::plan_ret))]
pub(crate) fn exec_ret<M: Memory>(thread: &mut Thread, memory: &mut M) -> Result<(), Access>
    requires spare { 10 ≤ M.spare memory.old }
    ensures executes { Executes M.Memory (plan_ret thread.old)
        thread.old thread.new memory.old memory.new result }
    ensures spare { M.spare memory.old ≤ M.spare memory.new + 10 }
{
    thread.rip = load_named(RSP, thread, memory)?;
    raise(thread, RSP);
    Ok(())
}
