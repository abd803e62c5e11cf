//! The calls on threads, and write.

ghost use Rattle.std.specs.Prelude.{◌≡◌, ◌<◌, ◌%◌, Some, length};
ghost use Rattle.std.specs.List.{list_any};
ghost use Rattle.erim_defs.specs.declared.machine.End.TheVariants.{Exit};
ghost use Rattle.erim_defs.specs.declared.machine.Thread.{Thread};
ghost use Rattle.erim_defs.specs.Machine.Calls.{write_result};
ghost use Rattle.erim_defs.specs.Machine.CallResult.{Quit, ThreadEnd};
ghost use Rattle.erim_defs.specs.Machine.Registers.{register};
ghost use Rattle.erim_defs.specs.Machine.Step.{after_call};
ghost use Rattle.erim_defs.specs.Machine.ThreadCalls.{clone_result, gettid_result};
ghost use Rattle.erim_defs.specs.Machine.ThreadCalls.{sched_yield_result};
ghost use Rattle.erim_process.specs.Machine.{Becomes, KeepsLimits};

use crate::answers::rax_of;
use crate::machine::Machine;
use erim_defs::register::{RDI, RDX, RSI};
use erim_defs::{End, Thread, Trust};
use page_store::{Memory, Pages};
use sys_calls::{clone_thread, write_out};
use x86_step::register;

/// Is one of them live?
fn any_live(threads: &[Thread]) -> bool
    ensures { result ≡ list_any (λ (t : Thread). t.live) threads.now }
{
    threads.iter().any(|thread| thread.live)
}

impl<P: Pages> Machine<P> {
    /// The call write: its file, its buffer and its length are in RDI, RSI and RDX.
    pub(crate) fn write(&mut self, trust: &Trust, t: u8, old: &Thread, new: &Thread)
        requires there { t < length self.old.threads }
        ensures state { Becomes P.Memory trust.now self.old self.new
            (λ s. after_call (write_result s new.now (register new.now 7) (register new.now 6)
            (register new.now 2)) (record { number = t; thread = old.now }) new.now s) }
        ensures kept { KeepsLimits P.Memory self.old self.new }
    {
        let (fd, buf, n) = (register(new, RDI), register(new, RSI), register(new, RDX));
        let outcome = write_out(&mut self.pages, &mut self.output, new.pkru, fd, buf, n);
        self.answer(trust, t, old, new, rax_of(outcome));
    }

    /// The call clone: its flags and its stack are in RDI and RSI.
    pub(crate) fn clone_thread(&mut self, trust: &Trust, t: u8, old: &Thread, new: &Thread)
        requires there { t < length self.old.threads }
        ensures state { Becomes P.Memory trust.now self.old self.new
            (λ s. after_call (clone_result s new.now (register new.now 7) (register new.now 6))
            (record { number = t; thread = old.now }) new.now s) }
        ensures kept { KeepsLimits P.Memory self.old self.new }
    {
        let (flags, stack) = (register(new, RDI), register(new, RSI));
        let outcome = clone_thread(&mut self.threads, trust, new, flags, stack);
        self.answer(trust, t, old, new, rax_of(outcome));
    }

    /// The call gettid.
    #[tactic(auto, unfolding(erim_defs::specs::Machine::ThreadCalls::gettid_result))]
    pub(crate) fn gettid(&mut self, trust: &Trust, t: u8, old: &Thread, new: &Thread)
        requires there { t < length self.old.threads }
        ensures state { Becomes P.Memory trust.now self.old self.new
            (λ s. after_call (gettid_result s t new.now) (record { number = t; thread = old.now })
            new.now s) }
        ensures kept { KeepsLimits P.Memory self.old self.new }
    {
        self.answer(trust, t, old, new, u64::from(t) + 1);
    }

    /// The call sched_yield.
    #[tactic(auto, unfolding(erim_defs::specs::Machine::ThreadCalls::sched_yield_result))]
    pub(crate) fn sched_yield(&mut self, trust: &Trust, t: u8, old: &Thread, new: &Thread)
        requires there { t < length self.old.threads }
        ensures state { Becomes P.Memory trust.now self.old self.new
            (λ s. after_call (sched_yield_result s new.now)
            (record { number = t; thread = old.now }) new.now s) }
        ensures kept { KeepsLimits P.Memory self.old self.new }
    {
        self.answer(trust, t, old, new, 0);
    }

    /// The process ends with the low byte of RDI as its status.
    fn leave(&mut self, thread: &Thread)
        ensures { self.new ≡ record self.old { end = Some (Exit (register thread.now 7 % 256)) } }
    {
        self.end = Some(End::Exit {
            code: (register(thread, RDI) % 256) as u8,
        });
    }

    /// The call exit: the thread isn't live any more, and the process ends with the last.
    pub(crate) fn exit(&mut self, trust: &Trust, t: u8, old: &Thread, new: &Thread)
        requires there { t < length self.old.threads }
        ensures state { Becomes P.Memory trust.now self.old self.new
            (after_call (ThreadEnd (register new.now 7 % 256))
            (record { number = t; thread = old.now }) new.now) }
        ensures kept { KeepsLimits P.Memory self.old self.new }
    {
        let ended = Thread {
            live: false,
            ..*new
        };
        self.advance(trust, t, old, &ended, None, false);
        if !any_live(self.threads.list()) {
            self.leave(new);
        }
    }

    /// The call exit_group.
    pub(crate) fn exit_group(&mut self, trust: &Trust, t: u8, old: &Thread, new: &Thread)
        requires there { t < length self.old.threads }
        ensures state { Becomes P.Memory trust.now self.old self.new
            (after_call (Quit (register new.now 7 % 256)) (record { number = t; thread = old.now })
            new.now) }
        ensures kept { KeepsLimits P.Memory self.old self.new }
    {
        self.advance(trust, t, old, new, None, false);
        self.leave(new);
    }
}
