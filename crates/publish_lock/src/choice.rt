//! Which thread a worker steps next.

ghost use Rattle.std.specs.Prelude.{◌<◌};

use erim_process::Process;

/// The live thread with the least number from this one on of those that are the worker's: the
/// numbers that leave `worker - 1` when divided by the number of workers.
fn own_thread(process: &Process, first: u8, worker: u16, workers: u8) -> Option<u8>
    requires some { 0 < worker }
    requires workers { 0 < workers }
{
    for thread in first..process.thread_count() {
        if u16::from(thread % workers) == worker - 1 && process.is_live(thread) {
            return Some(thread);
        }
    }
    None
}

/// The next of the worker's threads after this one, round from the last to the first; thread 0
/// where none of them is live.
pub fn next_thread(process: &Process, thread: u8, worker: u16, workers: u8) -> u8
    requires some { 0 < worker }
    requires workers { 0 < workers }
{
    own_thread(process, thread.saturating_add(1), worker, workers)
        .or(own_thread(process, 0, worker, workers))
        .unwrap_or(0)
}
