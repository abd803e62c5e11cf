//! What a system call answers its caller.

ghost use Rattle.std.specs.Prelude.{◌≡◌, ◌<◌, ◌-◌, ◌^◌, length, false, None, IfErr};
ghost use Rattle.erim_defs.specs.Machine.Registers.{with_register};
ghost use Rattle.erim_defs.specs.Machine.Step.{after_move};
ghost use Rattle.erim_process.specs.Machine.{Becomes, KeepsLimits, rax_of};

use crate::machine::Machine;
use erim_defs::register::RAX;
use erim_defs::{Thread, Trust};
use page_store::{Memory, Pages};
use x86_step::set_register;

/// What a refused call answers: its error number, negated.
pub(crate) fn refusal(error: u16) -> u64
    requires { 0 < error }
    ensures { result ≡ 2 ^ 64 - error }
{
    u64::MAX - u64::from(error) + 1
}

/// What RAX gets: the answer, or the error number negated.
pub(crate) fn rax_of(outcome: Result<u64, u16>) -> u64
    requires { IfErr outcome (λ error. 0 < error) }
    ensures { result ≡ rax_of outcome }
{
    match outcome {
        Ok(value) => value,
        Err(error) => refusal(error),
    }
}

impl<P: Pages> Machine<P> {
    /// Gives the caller the answer of its call.
    pub(crate) fn answer(&mut self, trust: &Trust, t: u8, old: &Thread, new: &Thread, value: u64)
        requires there { t < length self.old.threads }
        ensures state { Becomes P.Memory trust.now self.old self.new (after_move (record {
          runner = record { number = t; thread = old.now };
          after = with_register new.now 0 value;
          executed = None;
          free = false;
        })) }
        ensures kept { KeepsLimits P.Memory self.old self.new }
    {
        let mut after = *new;
        set_register(&mut after, RAX, value);
        self.advance(trust, t, old, &after, None, false);
    }
}
