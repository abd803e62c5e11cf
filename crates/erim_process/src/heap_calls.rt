//! The calls on the trusted heap.

ghost use Rattle.std.specs.Prelude.{◌≡◌, ◌<◌, length};
ghost use Rattle.erim_defs.specs.Machine.HeapCalls.{talloc_result, tfree_result};
ghost use Rattle.erim_defs.specs.Machine.Registers.{register};
ghost use Rattle.erim_defs.specs.Machine.Step.{after_call};
ghost use Rattle.erim_process.specs.Machine.{Becomes, KeepsLimits};

use crate::answers::rax_of;
use crate::machine::Machine;
use erim_defs::page::TRUSTED_KEY;
use erim_defs::register::RDI;
use erim_defs::{Thread, Trust};
use page_store::{Memory, Pages};
use x86_step::register;

impl<P: Pages> Machine<P> {
    /// The call talloc: its length is in RDI.
    pub(crate) fn talloc(&mut self, trust: &Trust, t: u8, old: &Thread, new: &Thread)
        requires there { t < length self.old.threads }
        ensures state { Becomes P.Memory trust.now self.old self.new
            (λ s. after_call (talloc_result s new.now (register new.now 7))
            (record { number = t; thread = old.now }) new.now s) }
        ensures kept { KeepsLimits P.Memory self.old self.new }
    {
        let len = register(new, RDI);
        let outcome = self.heap.talloc(trust.opens(new.pkru, TRUSTED_KEY), len);
        self.answer(trust, t, old, new, rax_of(outcome));
    }

    /// The call tfree: its address is in RDI.
    pub(crate) fn tfree(&mut self, trust: &Trust, t: u8, old: &Thread, new: &Thread)
        requires there { t < length self.old.threads }
        ensures state { Becomes P.Memory trust.now self.old self.new
            (λ s. after_call (tfree_result s new.now (register new.now 7))
            (record { number = t; thread = old.now }) new.now s) }
        ensures kept { KeepsLimits P.Memory self.old self.new }
    {
        let addr = register(new, RDI);
        let outcome = self.heap.tfree(trust.opens(new.pkru, TRUSTED_KEY), addr);
        self.answer(trust, t, old, new, rax_of(outcome));
    }
}
