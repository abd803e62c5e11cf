//! How many steps each worker made.

ghost use Rattle.std.specs.Prelude.{◌≡◌, ◌<◌, ◌^◌, true, [], sum};
ghost use Rattle.erim_defs.specs.Output.Report.{steps_of_worker};
ghost use Rattle.erim_process.specs.ProcessValue.{state_of};
ghost use Rattle.publish_lock.specs.Rules.{counts_of, is_summed};

use erim_process::Process;

/// Reads off a process that the steps of a worker fit 32 bits.
pub fn note_few(process: &Process, worker: u16)
    requires { is_summed process.now.journal (state_of process.now) ≡ true }
    ensures { steps_of_worker process.now.journal worker < 2 ^ 32 }
{
    let _steps = process.steps();
}

/// Reads off a process that was just started that it has made no step.
pub fn note_started(process: &Process)
    requires { process.now.journal ≡ [] }
    ensures { is_summed process.now.journal (state_of process.now) ≡ true }
{}

/// How many steps a worker made.
fn steps_of_worker(process: &Process, worker: u16) -> u32
    requires { is_summed process.now.journal (state_of process.now) ≡ true }
    ensures { result ≡ steps_of_worker process.now.journal worker }
{
    note_few(process, worker);
    process
        .journal()
        .iter()
        .filter(|entry| entry.worker == worker)
        .map(|entry| entry.count)
        .sum()
}

/// Reads off a process that the steps of all workers are its steps.
fn note_summed(process: &Process)
    requires { is_summed process.now.journal (state_of process.now) ≡ true }
    ensures { sum (counts_of process.now.journal) ≡ (state_of process.now).steps }
{
    let _entries = process.journal();
}

fn steps_of_workers(process: &Process) -> [u32; 9]
    requires { is_summed process.now.journal (state_of process.now) ≡ true }
    ensures { result ≡ counts_of process.now.journal }
{
    [
        steps_of_worker(process, 0),
        steps_of_worker(process, 1),
        steps_of_worker(process, 2),
        steps_of_worker(process, 3),
        steps_of_worker(process, 4),
        steps_of_worker(process, 5),
        steps_of_worker(process, 6),
        steps_of_worker(process, 7),
        steps_of_worker(process, 8),
    ]
}

/// How many steps each worker made, from 0 to 8.
pub fn count_steps(process: &Process) -> [u32; 9]
    requires { is_summed process.now.journal (state_of process.now) ≡ true }
    ensures counts { result ≡ counts_of process.now.journal }
    ensures summed { sum result ≡ (state_of process.now).steps }
{
    note_summed(process);
    steps_of_workers(process)
}
