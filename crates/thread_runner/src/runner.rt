//! Runs of a process whose threads are stepped in turn.

ghost use Rattle.std.specs.Prelude.{◌≡◌, ◌<◌, ◌⊎◌, true, false, Some, None, IfOk, IfErr, IfSome};
ghost use Rattle.std.specs.Prelude.{IfNone, IsSome};
ghost use Rattle.erim_defs.specs.Machine.Isolation.{IsKept};
ghost use Rattle.erim_defs.specs.Machine.Replay.{IsComplete, IsOver};
ghost use Rattle.erim_defs.specs.Machine.Start.{first_state};
ghost use Rattle.erim_process.specs.ProcessInvariant.{setup_of};
ghost use Rattle.erim_process.specs.ProcessValue.{IsRun, state_of};
ghost use Rattle.erim_defs.specs.Machine.StartFaults.{start_fault};
ghost use Rattle.erim_defs.specs.Machine.Replay.{AreAlone};
ghost use Rattle.erim_defs.specs.Machine.ReplayFaults.{is_over};
ghost use Rattle.thread_runner.specs.Running.{LeadsBySlices};
ghost use Rattle.erim_defs.specs.Machine.TimeSlices.{after_slices, course_from, is_live_at};
ghost use Rattle.erim_defs.specs.Machine.TimeSlices.{slice_after};

use crate::time_slice::{first_slice, slice_after};
use erim_defs::TimeSlice;
use erim_process::{Process, Setup, StartFault};
use std::alloc::Global;

/// The worker of a process that is run by itself.
const WORKER: u16 = 0;

/// The time slice of the next step, where the process can make one.
fn next_slice(process: &Process, quantum: u32, slice: TimeSlice) -> Option<TimeSlice>
    requires some { 0 < quantum }
    requires low { slice.thread < 16 }
    ensures runs { IfSome result (λ _. is_over (state_of process.now) ≡ false) }
    ensures live { IfSome result (λ next.
        is_live_at (state_of process.now).threads next.thread ≡ true) }
    ensures left { IfSome result (λ _.
        (state_of process.now).steps < process.now.setup.budget) }
    ensures slice { IfSome result (λ next.
        slice_after quantum (state_of process.now).threads slice ≡ Some next) }
    ensures low { IfSome result (λ next. next.thread < 16) }
    ensures over { IfNone result (IsOver (state_of process.now)) }
{
    if process.is_over() {
        return None;
    }
    slice_after(slice, process, quantum)
}

/// Reads off a process what holds of each: its journal leads to its state, which keeps the
/// isolation invariant.
pub(crate) fn note_kept(process: &Process)
    ensures run { IsRun process.now }
    ensures kept { IsKept (state_of process.now) }
{
    let _setup = process.setup();
    let _journal = process.journal();
}

/// Steps the live threads in turn until the process has ended or its budget is spent.
fn run_slices(process: &mut Process, quantum: u32)
    requires { 0 < quantum }
    ensures over { IsOver (state_of process.new) }
    ensures setup { process.new.setup ≡ process.old.setup }
    ensures slices { LeadsBySlices quantum process.old process.new }
{
    let mut slice = first_slice(quantum);
    while let Some(next) = next_slice(process, quantum, slice) {
        process.step_live(WORKER, next.thread);
        slice = next;
    }
}

/// Steps the live threads in turn, one step each, until the process has ended or its budget is
/// spent.
///
/// Every step is worker 0's.
pub fn finish(process: &mut Process)
    ensures over { IsOver (state_of process.new) }
    ensures setup { process.new.setup ≡ process.old.setup }
    ensures slices { LeadsBySlices 1 process.old process.new }

    // Each step of its journal is defined, and its state keeps the isolation invariant.
    ensures run { IsRun process.new }
    ensures kept { IsKept (state_of process.new) }
{
    run_slices(process, 1);
    note_kept(process);
}

/// Starts a process and steps its live threads in turn, a given number of steps of a thread in a
/// row, until the process has ended or its budget is spent.
///
/// Every step is worker 0's.
pub fn run_serial(alloc: Global, setup: Setup, quantum: u32) -> Result<Process, StartFault>
    requires { 0 < quantum }
    ensures started { IfOk result (λ process. start_fault (setup_of setup) ≡ None) }
    ensures setup { IfOk result (λ process. process.setup ≡ setup_of setup) }
    ensures over { IfOk result (λ process. IsOver (state_of process)) }

    // Its journal is a complete replay, and its state keeps the isolation invariant.
    ensures complete { IfOk result (λ process. IsComplete process.setup process.journal) }
    ensures kept { IfOk result (λ process. IsKept (state_of process)) }
    ensures alone { IfOk result (λ process. AreAlone process.journal) }
    ensures slices { IfOk result (λ process. let start = first_state (setup_of setup) in
        IsSome (after_slices quantum (Some (course_from quantum start)) process.journal)) }
    ensures refused { IfErr result (λ fault. (fault ≡ StartFault.Memory)
        ⊎ (start_fault (setup_of setup) ≡ Some fault)) }
{
    let mut process = Process::start(alloc, setup)?;
    run_slices(&mut process, quantum);
    note_kept(&process);
    Ok(process)
}
