//! How a thread goes on: its origin, and the escape.

ghost use Rattle.std.specs.Prelude.{◌≡◌, ◌<◌, length};
ghost use Rattle.erim_defs.specs.Machine.State.{Setup};
ghost use Rattle.erim_defs.specs.Machine.Step.{after_move};
ghost use Rattle.erim_process.specs.Machine.{Becomes, KeepsLimits, machine_state, with_thread};

use crate::machine::Machine;
use erim_defs::{Escape, Found, Thread, Trust};
use page_store::{Memory, Pages};
use x86_step::{is_escape, set_origin};

impl<P: Pages> Machine<P> {
    /// The thread `t` is `new` from now on. The first escape is kept.
    pub(crate) fn settle(&mut self, t: u8, new: &Thread, escaped: bool)
        requires there { t < length self.old.threads }
        ensures state { (setup : Setup) → machine_state P.Memory setup self.new
            ≡ with_thread t new.now escaped (machine_state P.Memory setup self.old) }
        ensures kept { KeepsLimits P.Memory self.old self.new }
    {
        if escaped && self.escape.is_none() {
            self.escape = Some(Escape {
                step: self.steps,
                thread: t,
                rip: new.rip,
            });
        }
        self.threads.set(t, *new);
    }

    /// The thread `t` goes from `old` to `new`. `free` says that this is no escape.
    pub(crate) fn advance(
        &mut self,
        trust: &Trust,
        t: u8,
        old: &Thread,
        new: &Thread,
        executed: Option<Found>,
        free: bool,
    )
        requires there { t < length self.old.threads }
        ensures state { Becomes P.Memory trust.now self.old self.new (after_move (record {
          runner = record { number = t; thread = old.now };
          after = new.now;
          executed = executed;
          free = free;
        })) }
        ensures kept { KeepsLimits P.Memory self.old self.new }
    {
        let mut after = *new;
        set_origin(trust, executed, &mut after);
        self.settle(t, &after, is_escape(trust, free, old, new));
    }
}
