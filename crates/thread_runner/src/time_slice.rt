//! Round robin: which thread makes the next step.

ghost use Rattle.std.specs.Prelude.{◌≡◌, ◌<◌, IfSome};
ghost use Rattle.erim_process.specs.ProcessValue.{state_of};
ghost use Rattle.erim_defs.specs.Machine.TimeSlices.{live_after};
ghost use Rattle.erim_defs.specs.Machine.TimeSlices.{first_slice, slice_after};

use erim_defs::TimeSlice;
use erim_process::Process;

/// Thread 0 before its first step.
pub(crate) fn first_slice(quantum: u32) -> TimeSlice
    ensures { result ≡ first_slice quantum }
{
    TimeSlice {
        thread: 0,
        left: quantum,
    }
}

/// The time slice of the next step: that of the same thread where it is live and has steps left,
/// else that of the next live thread. None where no thread is live.
pub(crate) fn slice_after(slice: TimeSlice, process: &Process, quantum: u32) -> Option<TimeSlice>
    requires some { 0 < quantum }
    requires low { slice.thread < 16 }
    ensures slice { result ≡ slice_after quantum (state_of process.now).threads slice }
    ensures low { IfSome result (λ next. next.thread < 16) }
{
    if slice.left > 0 && process.is_live(slice.thread) {
        return Some(TimeSlice {
            thread: slice.thread,
            left: slice.left - 1,
        });
    }
    match live_after(process, slice.thread) {
        Some(thread) => Some(TimeSlice {
            thread,
            left: quantum - 1,
        }),
        None => None,
    }
}

/// The next live thread after this one, round from the last to the first.
fn live_after(process: &Process, thread: u8) -> Option<u8>
    requires { thread < 16 }
    ensures next { result ≡ live_after (state_of process.now).threads thread }
    ensures low { IfSome result (λ next. next < 16) }
{
    match process.live_from(thread + 1) {
        Some(next) => Some(next),
        None => process.live_from(0),
    }
}
