//! The calls on pages.

ghost use Rattle.std.specs.Prelude.{◌≡◌, ◌<◌, length};
ghost use Rattle.erim_defs.specs.Machine.MapCalls.{mmap_result, mprotect_result, munmap_result};
ghost use Rattle.erim_defs.specs.Machine.MapCalls.{pkey_mprotect_result};
ghost use Rattle.erim_defs.specs.Machine.Registers.{register};
ghost use Rattle.erim_defs.specs.Machine.Step.{after_call};
ghost use Rattle.erim_process.specs.Machine.{Becomes, KeepsLimits};

use crate::answers::rax_of;
use crate::machine::Machine;
use erim_defs::register::{R10, RDI, RDX, RSI};
use erim_defs::{Thread, Trust};
use page_store::{Memory, Pages};
use x86_step::register;

impl<P: Pages> Machine<P> {
    /// The call mmap: its address, length, protection bits and flags are in RDI, RSI, RDX and R10.
    pub(crate) fn mmap(&mut self, trust: &Trust, t: u8, old: &Thread, new: &Thread)
        requires there { t < length self.old.threads }
        ensures state { Becomes P.Memory trust.now self.old self.new
            (λ s. after_call (mmap_result s new.now (register new.now 7) (register new.now 6)
            (register new.now 2) (register new.now 10))
            (record { number = t; thread = old.now }) new.now s) }
        ensures kept { KeepsLimits P.Memory self.old self.new }
    {
        let (addr, len) = (register(new, RDI), register(new, RSI));
        let (prot, flags) = (register(new, RDX), register(new, R10));
        let outcome = map_calls::mmap(
            &mut self.pages,
            trust,
            self.threads.list(),
            new.pkru,
            addr,
            len,
            prot,
            flags,
        );
        self.answer(trust, t, old, new, rax_of(outcome));
    }

    /// The call munmap: its address and length are in RDI and RSI.
    pub(crate) fn munmap(&mut self, trust: &Trust, t: u8, old: &Thread, new: &Thread)
        requires there { t < length self.old.threads }
        ensures state { Becomes P.Memory trust.now self.old self.new
            (λ s. after_call (munmap_result s new.now (register new.now 7) (register new.now 6))
            (record { number = t; thread = old.now }) new.now s) }
        ensures kept { KeepsLimits P.Memory self.old self.new }
    {
        let (addr, len) = (register(new, RDI), register(new, RSI));
        let threads = self.threads.list();
        let outcome = map_calls::munmap(&mut self.pages, trust, threads, new.pkru, addr, len);
        self.answer(trust, t, old, new, rax_of(outcome));
    }

    /// The call mprotect: its address, length and protection bits are in RDI, RSI and RDX.
    pub(crate) fn mprotect(&mut self, trust: &Trust, t: u8, old: &Thread, new: &Thread)
        requires there { t < length self.old.threads }
        ensures state { Becomes P.Memory trust.now self.old self.new
            (λ s. after_call (mprotect_result s new.now (register new.now 7) (register new.now 6)
            (register new.now 2)) (record { number = t; thread = old.now }) new.now s) }
        ensures kept { KeepsLimits P.Memory self.old self.new }
    {
        let (addr, len, prot) = (register(new, RDI), register(new, RSI), register(new, RDX));
        let threads = self.threads.list();
        let outcome = map_calls::mprotect(
            &mut self.pages,
            trust,
            threads,
            new.pkru,
            addr,
            len,
            prot,
        );
        self.answer(trust, t, old, new, rax_of(outcome));
    }

    /// The call pkey_mprotect: as mprotect, and its key is in R10.
    pub(crate) fn pkey_mprotect(&mut self, trust: &Trust, t: u8, old: &Thread, new: &Thread)
        requires there { t < length self.old.threads }
        ensures state { Becomes P.Memory trust.now self.old self.new
            (λ s. after_call (pkey_mprotect_result s new.now (register new.now 7)
            (register new.now 6) (register new.now 2) (register new.now 10))
            (record { number = t; thread = old.now }) new.now s) }
        ensures kept { KeepsLimits P.Memory self.old self.new }
    {
        let (addr, len) = (register(new, RDI), register(new, RSI));
        let (prot, key) = (register(new, RDX), register(new, R10));
        let outcome = map_calls::pkey_mprotect(
            &mut self.pages,
            trust,
            self.threads.list(),
            &self.keys,
            new.pkru,
            addr,
            len,
            prot,
            key,
        );
        self.answer(trust, t, old, new, rax_of(outcome));
    }
}
