//! The system calls.

ghost use Rattle.std.specs.Prelude.{◌≡◌, ◌<◌, length};
ghost use Rattle.erim_defs.specs.Machine.Calls.{call_result};
ghost use Rattle.erim_defs.specs.Machine.Step.{flags_word, after_call, after_syscall};
ghost use Rattle.erim_process.specs.Machine.{Becomes, KeepsLimits};

use crate::answers::refusal;
use crate::machine::Machine;
use erim_defs::linux::{
    ENOSYS, SYS_CLONE, SYS_EXIT, SYS_EXIT_GROUP, SYS_GETTID, SYS_MMAP, SYS_MPROTECT, SYS_MUNMAP,
    SYS_PKEY_ALLOC, SYS_PKEY_FREE, SYS_PKEY_MPROTECT, SYS_SCHED_YIELD, SYS_TALLOC, SYS_TFREE,
    SYS_WRITE,
};
use erim_defs::register::{R11, RAX, RCX};
use erim_defs::{Flags, Thread, Trust};
use page_store::{Memory, Pages};
use x86_step::{onward, register, set_register};

/// RFLAGS with the flags that are kept.
fn flags_word(flags: Flags) -> u64
    ensures { result ≡ flags_word flags }
{
    let mut word = 0x202;
    if flags.cf {
        word += 1;
    }
    if flags.pf {
        word += 4;
    }
    if flags.zf {
        word += 64;
    }
    if flags.sf {
        word += 128;
    }
    if flags.of {
        word += 2048;
    }
    word
}

/// The thread after SYSCALL, before its call.
pub(crate) fn after_syscall(thread: &Thread, len: u8) -> Thread
    ensures { result ≡ after_syscall len thread.now }
{
    let mut new = *thread;
    onward(&mut new, len);
    let rip = new.rip;
    set_register(&mut new, RCX, rip);
    set_register(&mut new, R11, flags_word(thread.flags));
    new
}

impl<P: Pages> Machine<P> {
    /// The system call of a thread. `new` is the thread after SYSCALL.
    #[tactic(auto, unfolding(erim_defs::specs::Machine::Calls::call_result))]
    pub(crate) fn call(&mut self, trust: &Trust, t: u8, old: &Thread, new: &Thread)
        requires there { t < length self.old.threads }
        ensures state { Becomes P.Memory trust.now self.old self.new
            (λ s. after_call (call_result s t new.now) (record { number = t; thread = old.now })
            new.now s) }
        ensures kept { KeepsLimits P.Memory self.old self.new }
    {
        match register(new, RAX) {
            SYS_WRITE => self.write(trust, t, old, new),
            SYS_MMAP => self.mmap(trust, t, old, new),
            SYS_MPROTECT => self.mprotect(trust, t, old, new),
            SYS_MUNMAP => self.munmap(trust, t, old, new),
            SYS_SCHED_YIELD => self.sched_yield(trust, t, old, new),
            SYS_CLONE => self.clone_thread(trust, t, old, new),
            SYS_EXIT => self.exit(trust, t, old, new),
            SYS_GETTID => self.gettid(trust, t, old, new),
            SYS_EXIT_GROUP => self.exit_group(trust, t, old, new),
            SYS_PKEY_MPROTECT => self.pkey_mprotect(trust, t, old, new),
            SYS_PKEY_ALLOC => self.alloc_key(trust, t, old, new),
            SYS_PKEY_FREE => self.free_key(trust, t, old, new),
            SYS_TALLOC => self.talloc(trust, t, old, new),
            SYS_TFREE => self.tfree(trust, t, old, new),
            _ => self.answer(trust, t, old, new, refusal(ENOSYS)),
        }
    }
}
