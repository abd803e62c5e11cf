//! Executes instructions.

ghost use Rattle.std.specs.Prelude.{◌≡◌, ◌≢◌, ◌≤◌, ◌+◌};
ghost use Rattle.erim_defs.specs.declared.insn.Insn.TheVariants.{Syscall};
ghost use Rattle.erim_defs.specs.declared.insn.Insn.{Insn};
ghost use Rattle.erim_defs.specs.declared.machine.Thread.{Thread};
ghost use Rattle.erim_defs.specs.Inspection.Trust.{TrustValue};
ghost use Rattle.erim_defs.specs.Machine.Plan.{Stopped, effect};
ghost use Rattle.erim_defs.specs.Machine.Meaning.{plan};
ghost use Rattle.page_store.specs.Notes.{Notes};
ghost use Rattle.x86_step.specs.Execution.{bytes_after, exec_of, thread_after};
ghost use Rattle.x86_step.specs.Executes.{Executes};
ghost use Rattle.x86_step.specs.Looked.{looked_addresses};
ghost use Rattle.x86_step.specs.Reach.{IsInReach};

use crate::answer::Exec;
use crate::arithmetic::{exec_alu, exec_bt, exec_imul, exec_shift, exec_test, exec_unary};
use crate::exchanges::{exec_cmpxchg, exec_xadd};
use crate::flow::{
    exec_call, exec_call_to, exec_jcc, exec_jmp_to, exec_leave, exec_pop, exec_push, exec_ret,
};
use crate::moves::{
    exec_cmov, exec_lea, exec_mov, exec_mov_wide, exec_movsx, exec_movzx, exec_set, exec_spread,
    exec_widen, exec_xchg, extended_bytes,
};
use crate::origin::{is_inside, is_outside, sequence_of, set_origin, writes_pkru};
use crate::registers::{jump, onward, set_register};
use crate::rights::{exec_rdpkru, exec_wrpkru, if_allowed};
use crate::xrstor::exec_xrstor;
use erim_defs::{Access, Insn, Thread, Trust, Width};
use page_store::Memory;

/// Executes an instruction that is no system call, but for the origin.
#[tactic(auto, unfolding(erim_defs::specs::Machine::Meaning::plan),)]
fn execute<M: Memory>(
    insn: &Insn,
    len: u8,
    thread: &mut Thread,
    memory: &mut M,
) -> Result<(), Access>
    requires here { insn.now ≢ Syscall }
    requires spare { 10 ≤ M.spare memory.old }
    ensures executes { Executes M.Memory (plan insn.now len thread.old)
        thread.old thread.new memory.old memory.new result }
    ensures spare { M.spare memory.old ≤ M.spare memory.new + 10 }
{
    match insn {
        Insn::Alu {
            op,
            w,
            dst,
            src,
            ..
        } => exec_alu(*op, *w, dst, src, len, thread, memory),
        Insn::Test { w, a, src } => exec_test(*w, a, src, len, thread, memory),
        Insn::Xchg { w, a, r, .. } => exec_xchg(*w, a, r, len, thread, memory),
        Insn::Mov { w, dst, src } => exec_mov(*w, dst, src, len, thread, memory),
        Insn::MovWide { r, imm } => Ok(exec_mov_wide(*r, *imm, len, thread)),
        Insn::Lea { w, r, m } => Ok(exec_lea(*w, *r, m, len, thread)),
        Insn::Push { src } => exec_push(src, len, thread, memory),
        Insn::Pop { r } => exec_pop(*r, len, thread, memory),
        Insn::MovSxd { r, src } => exec_movsx(Width::W8, *r, 4, src, len, thread, memory),
        Insn::MovZx { w, r, from, src } => {
            exec_movzx(*w, *r, extended_bytes(*from), src, len, thread, memory)
        }
        Insn::MovSx { w, r, from, src } => {
            exec_movsx(*w, *r, extended_bytes(*from), src, len, thread, memory)
        }
        Insn::Imul { w, r, a, b } => exec_imul(*w, *r, a, *b, len, thread, memory),
        Insn::Jcc { c, rel } => Ok(exec_jcc(*c, *rel, len, thread)),
        Insn::Jmp { rel } => Ok(jump(thread, len, *rel)),
        Insn::Call { rel } => exec_call(*rel, len, thread, memory),
        Insn::JmpTo { to } => exec_jmp_to(to, len, thread, memory),
        Insn::CallTo { to } => exec_call_to(to, len, thread, memory),
        Insn::Ret => exec_ret(thread, memory),
        Insn::Leave => exec_leave(len, thread, memory),
        Insn::Widen { w } => Ok(exec_widen(*w, len, thread)),
        Insn::Spread { w } => Ok(exec_spread(*w, len, thread)),
        Insn::Shift { op, w, dst, by } => exec_shift(*op, *w, dst, *by, len, thread, memory),
        Insn::Unary { op, w, dst, .. } => exec_unary(*op, *w, dst, len, thread, memory),
        Insn::Cmov { c, w, r, src } => exec_cmov(*c, *w, *r, src, len, thread, memory),
        Insn::Set { c, dst } => exec_set(*c, dst, len, thread, memory),
        Insn::Bt { w, a, bit } => exec_bt(*w, a, *bit, len, thread, memory),
        Insn::Cmpxchg { w, dst, r, .. } => exec_cmpxchg(*w, dst, r, len, thread, memory),
        Insn::Xadd { w, dst, r, .. } => exec_xadd(*w, dst, r, len, thread, memory),
        Insn::Wrpkru => if_allowed(exec_wrpkru(len, thread), thread),
        Insn::Rdpkru => if_allowed(exec_rdpkru(len, thread), thread),
        Insn::Syscall => if_allowed(false, thread),
        Insn::Xrstor { m } => exec_xrstor(m, len, thread, memory),
        Insn::Fence { .. } | Insn::Nop => Ok(onward(thread, len)),
    }
}

/// What is answered where an access stopped.
fn stop_answer(access: Access) -> Exec
    ensures { (trust : TrustValue) (insn : Insn) (t : Thread)
        → result ≡ exec_of (Stopped access) trust insn t }
{
    match access {
        Access::Fault { cause, addr } => Exec::Fault { cause, addr },
        Access::Missing { page } => Exec::Missing { page },
    }
}

/// Executes an instruction of `len` bytes, `skip` of them before its opcode. Where it isn't done
/// nothing has changed.
pub fn exec<M: Memory>(
    insn: &Insn,
    len: u8,
    skip: u8,
    trust: &Trust,
    thread: &mut Thread,
    memory: &mut M,
) -> Exec
    requires placed { IsInReach thread.old.rip len skip }
    requires spare { 10 ≤ M.spare memory.old }
    ensures answer { let e = effect (plan insn.now len thread.old) (M.seen memory.old)
        (M.bytes memory.old) thread.old.pkru thread.old.rip in
        result ≡ exec_of e trust.now insn.now thread.old }
    ensures thread { let e = effect (plan insn.now len thread.old) (M.seen memory.old)
        (M.bytes memory.old) thread.old.pkru thread.old.rip in
        thread.new ≡ thread_after e trust.now
        (record { insn = insn.now; len = len; skip = skip }) thread.old }
    ensures bytes { let e = effect (plan insn.now len thread.old) (M.seen memory.old)
        (M.bytes memory.old) thread.old.pkru thread.old.rip in
        M.bytes memory.new ≡ bytes_after e (M.bytes memory.old) }
    ensures seen { M.seen memory.new ≡ M.seen memory.old }
    ensures frames { M.frames memory.new ≡ M.frames memory.old }
    ensures first { M.first memory.new ≡ M.first memory.old }
    ensures spare { M.spare memory.old ≤ M.spare memory.new + 10 }
    ensures notes { Notes (M.seen memory.old) (M.notes memory.old) (M.notes memory.new)
        (looked_addresses (plan insn.now len thread.old) (M.seen memory.old) (M.bytes memory.old)
        thread.old.pkru) }
{
    if let Insn::Syscall = insn {
        return Exec::Syscall;
    }
    let executed = sequence_of(insn, thread.rip, len, skip);
    let free = writes_pkru(insn, thread);
    let inside = is_inside(trust, thread);
    match execute(insn, len, thread, memory) {
        Err(access) => stop_answer(access),
        Ok(()) => {
            let escaped = !free && inside && is_outside(trust, thread);
            set_origin(trust, executed, thread);
            Exec::Done { escaped }
        }
    }
}
