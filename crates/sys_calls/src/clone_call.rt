//! The call clone.

ghost use Rattle.std.specs.Prelude.{◌≡◌, ◌<◌, ◌∷◌, ◌++◌, [], None, IfErr, IfOk, OnErr};
ghost use Rattle.erim_defs.specs.Machine.State.{State, with_origin};
ghost use Rattle.erim_defs.specs.Machine.ThreadCalls.{clone_result, new_thread};
ghost use Rattle.sys_calls.specs.Answers.{clone_answer};

use crate::threads::Threads;
use erim_defs::linux::{CLONE_FLAGS, EAGAIN, EINVAL};
use erim_defs::register::{RAX, RSP};
use erim_defs::{Thread, Trust};
use x86_step::{set_origin, set_register};

/// A copy of the caller with 0 in RAX, and another stack where one is given.
fn new_thread(caller: &Thread, stack: u64) -> Thread
    ensures { result ≡ new_thread caller.now stack }
{
    let mut new = *caller;
    set_register(&mut new, RAX, 0);
    if stack != 0 {
        set_register(&mut new, RSP, stack);
    }
    new
}

/// clone(2): makes a thread, and answers its number, counted from 1. `caller` is the thread after
/// SYSCALL. `Err` is the error number.
#[tactic(auto, unfolding(erim_defs::specs::Machine::ThreadCalls::clone_result))]
pub fn clone_thread(
    threads: &mut Threads,
    trust: &Trust,
    caller: &Thread,
    flags: u64,
    stack: u64,
) -> Result<u64, u16>
    ensures answer { (s : State) → s.threads ≡ threads.old
        → clone_result s caller.now flags stack ≡ clone_answer s caller.now stack result }
    ensures threads { IfOk result (λ _. threads.new
        ≡ threads.old ++ with_origin trust.now None (new_thread caller.now stack) ∷ []) }
    ensures kept { OnErr result (threads.new ≡ threads.old) }
    ensures error { IfErr result (λ error. 0 < error) }
{
    if flags % (1 << 32) != CLONE_FLAGS {
        return Err(EINVAL);
    }
    if threads.is_full() {
        return Err(EAGAIN);
    }
    let mut new = new_thread(caller, stack);
    set_origin(trust, None, &mut new);
    threads.push(new);
    Ok(threads.list().len() as u64)
}
