//! The calls on protection keys.

ghost use Rattle.std.specs.Prelude.{◌≡◌, ◌<◌, length};
ghost use Rattle.erim_defs.specs.Machine.MapCalls.{pkey_alloc_result, pkey_free_result};
ghost use Rattle.erim_defs.specs.Machine.Registers.{register};
ghost use Rattle.erim_defs.specs.Machine.Step.{after_call};
ghost use Rattle.erim_process.specs.Machine.{Becomes, KeepsLimits};

use crate::answers::rax_of;
use crate::machine::Machine;
use erim_defs::register::{RDI, RSI};
use erim_defs::{Thread, Trust};
use map_calls::{pkey_alloc, pkey_free};
use page_store::{Memory, Pages};
use x86_step::register;

impl<P: Pages> Machine<P> {
    /// The call pkey_alloc: its flags and its rights are in RDI and RSI.
    pub(crate) fn alloc_key(&mut self, trust: &Trust, t: u8, old: &Thread, new: &Thread)
        requires there { t < length self.old.threads }
        ensures state { Becomes P.Memory trust.now self.old self.new
            (λ s. after_call (pkey_alloc_result s new.now (register new.now 7)
            (register new.now 6)) (record { number = t; thread = old.now }) new.now s) }
        ensures kept { KeepsLimits P.Memory self.old self.new }
    {
        let mut pkru = new.pkru;
        let (flags, rights) = (register(new, RDI), register(new, RSI));
        let outcome = pkey_alloc(&mut self.keys, &mut pkru, flags, rights);
        self.answer(trust, t, old, &Thread { pkru, ..*new }, rax_of(outcome));
    }

    /// The call pkey_free: its key is in RDI.
    pub(crate) fn free_key(&mut self, trust: &Trust, t: u8, old: &Thread, new: &Thread)
        requires there { t < length self.old.threads }
        ensures state { Becomes P.Memory trust.now self.old self.new
            (λ s. after_call (pkey_free_result s new.now (register new.now 7))
            (record { number = t; thread = old.now }) new.now s) }
        ensures kept { KeepsLimits P.Memory self.old self.new }
    {
        let outcome = pkey_free(&mut self.keys, trust, register(new, RDI));
        self.answer(trust, t, old, new, rax_of(outcome));
    }
}
