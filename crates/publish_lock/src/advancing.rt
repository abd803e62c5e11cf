//! What a turn does to the process.

ghost use Rattle.std.specs.Prelude.{◌≡◌, ◌≢◌, ◌<◌, ◌≤◌, ◌+◌, ◌++◌, ◌∷◌, ℕ, true, false, []};
ghost use Rattle.erim_defs.specs.Machine.Isolation.{IsKept};
ghost use Rattle.erim_defs.specs.Machine.Replay.{IsOver};
ghost use Rattle.erim_defs.specs.Machine.ReplayFaults.{is_over};
ghost use Rattle.erim_defs.specs.Machine.State.{any_live};
ghost use Rattle.erim_defs.specs.Machine.TimeSlices.{is_live_at};
ghost use Rattle.erim_defs.specs.Output.Report.{steps_of_worker};
ghost use Rattle.erim_process.specs.ProcessValue.{IsRun, state_of};
ghost use Rattle.publish_lock.specs.Rules.{are_of_workers, entry_of, is_summed, steps_of_turn};
ghost use Rattle.publish_lock.specs.Rules.{thread_or_first};

use erim_process::{Process, Stepped};

/// What a turn did.
#[derive(Clone, Copy, Debug, PartialEq, Eq)]
pub enum Turn {
    /// It made so many steps of one thread.
    Made { steps: u32 },
    /// The process has ended, or its budget is spent.
    Over,
}

/// The thread, where it is live, else the live one with the least number.
fn thread_or_first(process: &Process, thread: u8) -> u8
    ensures value { result ≡ thread_or_first (state_of process.now).threads thread }
    ensures live { any_live (state_of process.now).threads ≡ true
        → is_live_at (state_of process.now).threads result ≡ true }
{
    if process.is_live(thread) {
        return thread;
    }
    process.live_from(0).unwrap_or(0)
}

/// Makes one step of the thread, where it is live, else of the live one with the least number, as
/// the given worker. Answers `Over` where the process has ended or is spent.
pub fn advance(process: &mut Process, worker: u16, thread: u8) -> Turn
    requires { worker ≤ 8 }

    // `Over` exactly where the process is over, and then nothing changed.
    ensures over { is_over (state_of process.old) ≡ true
        → (result ≡ Turn.Over) × (process.new ≡ process.old) }

    // Else one step of that thread, in an entry of the worker.
    ensures made { is_over (state_of process.old) ≡ false
        → (result ≡ Turn.Made 1)
        × (process.new ≡ record {
          setup = process.old.setup;
          journal = process.old.journal
              ++ entry_of worker (thread_or_first (state_of process.old).threads thread) ∷ [];
        }) }

    // So the steps that it answers are those that the journal gained under this worker.
    ensures steps { steps_of_worker process.new.journal worker
        ≡ steps_of_worker process.old.journal worker + steps_of_turn result }
    ensures other { (w : ℕ) → w ≢ worker
        → steps_of_worker process.new.journal w ≡ steps_of_worker process.old.journal w }
    ensures workers { (most : ℕ) → 0 < worker → worker ≤ most
        → are_of_workers most process.old.journal ≡ true
        → are_of_workers most process.new.journal ≡ true }
    ensures summed { is_summed process.old.journal (state_of process.old) ≡ true
        → is_summed process.new.journal (state_of process.new) ≡ true }
    ensures setup { process.new.setup ≡ process.old.setup }
{
    if process.is_over() {
        return Turn::Over;
    }
    let thread = thread_or_first(process, thread);
    process.step_live(worker, thread);
    Turn::Made { steps: 1 }
}
