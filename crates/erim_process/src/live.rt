//! Whether a process can go on, and by which threads.

ghost use Rattle.std.specs.Prelude.{◌≡◌, ◌+◌, ◌<◌, ◌≤◌, ◌++◌, ◌∷◌, true, false, Some, []};
ghost use Rattle.std.specs.Prelude.{IfSome, IsSome};
ghost use Rattle.erim_defs.specs.Machine.Replay.{IsOver};
ghost use Rattle.erim_defs.specs.Machine.ReplayFaults.{is_over};
ghost use Rattle.erim_defs.specs.Machine.State.{any_live};
ghost use Rattle.erim_defs.specs.Machine.Step.{step};
ghost use Rattle.erim_defs.specs.Machine.TimeSlices.{is_live_at, live_from};
ghost use Rattle.erim_process.specs.ProcessValue.{state_of};

use crate::process::Process;

impl Process {
    /// Has it ended, or is its budget spent? Where not, it has a live thread.
    pub fn is_over(&self) -> bool
        ensures value { result ≡ is_over (state_of self.now) }
        ensures over { result ≡ true → IsOver (state_of self.now) }
        ensures left { result ≡ false → (state_of self.now).steps < self.now.setup.budget }
        ensures live { result ≡ false → any_live (state_of self.now).threads ≡ true }
    {
        self.end().is_some() || self.steps() == self.setup().budget
    }

    /// Is the thread of this number there, and live?
    pub fn is_live(&self, thread: u8) -> bool
        ensures { result ≡ is_live_at (state_of self.now).threads thread }
    {
        thread < self.thread_count() && self.thread(thread).live
    }

    /// The live thread with the least number from this one on.
    pub fn live_from(&self, first: u8) -> Option<u8>
        ensures least { result ≡ live_from (state_of self.now).threads first }
        ensures low { IfSome result (λ thread. thread < 16) }
        ensures live { IfSome result (λ thread.
            is_live_at (state_of self.now).threads thread ≡ true) }
        ensures some { first ≡ 0 → any_live (state_of self.now).threads ≡ true → IsSome result }
    {
        for thread in first..self.thread_count() {
            if self.is_live(thread) {
                return Some(thread);
            }
        }
        None
    }

    /// Makes one step of a live thread, where the process isn't over, as `step_now` does.
    pub fn step_live(&mut self, worker: u16, thread: u8)
        requires worker { worker ≤ 8 }
        requires runs { is_over (state_of self.old) ≡ false }
        requires live { is_live_at (state_of self.old).threads thread ≡ true }
        ensures journal { self.new ≡ record {
          setup = self.old.setup;
          journal = self.old.journal
              ++ record { worker = worker; thread = thread; count = 1 } ∷ [];
        } }
        ensures state { step thread (state_of self.old) ≡ Some (state_of self.new) }
        ensures counted { (state_of self.new).steps ≡ (state_of self.old).steps + 1 }
    {
        let _steps = self.steps();
        let _setup = self.setup();
        self.step_now(worker, thread);
    }
}
