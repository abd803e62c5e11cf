//! Runs of a process by several workers, each in a thread of its own where one can be made.

ghost use Rattle.std.specs.Prelude.{◌≡◌, ◌≤◌, ◌⊎◌, true, [], None, Some, length, sum, All, IfOk};
ghost use Rattle.std.specs.Prelude.{IfErr, ℕ};
ghost use Rattle.erim_defs.specs.Machine.Isolation.{IsKept};
ghost use Rattle.erim_defs.specs.Machine.Replay.{IsComplete, IsOver};
ghost use Rattle.erim_defs.specs.Machine.StartFaults.{start_fault};
ghost use Rattle.erim_process.specs.ProcessInvariant.{setup_of};
ghost use Rattle.erim_process.specs.ProcessValue.{state_of};
ghost use Rattle.publish_lock.specs.Rules.{are_of_workers, counts_of};
ghost use Rattle.thread_runner.specs.Running.{AreWithin};

use crate::runner::finish;
use erim_defs::NoMemory;
use erim_process::{Process, Setup, StartFault};
use publish_lock::{Closed, Crew, Gate, Seat, Shared, Turn};
use std::alloc::Global;
use std::marker::Brand;
use std::sync::Wait;
use std::sync::ledger::{Blank, Ledger};
use std::thread::{Threads, map_vec};

/// A gate that does nothing.
pub struct NoGate;

impl Gate for NoGate {
    fn before_commit(&self, _worker: u16) {}
}

/// Takes turns until the process is over, and gives the seat back.
fn take_turns<
    L1: Ledger,
    L2: Ledger,
    L3: Ledger,
    L4: Ledger,
    L5: Ledger,
    L6: Ledger,
    L7: Ledger,
    L8: Ledger,
    O: Crew,
    R: Wait,
    T: Gate,
>(
    rt: &R,
    shared: &Shared<L1, L2, L3, L4, L5, L6, L7, L8, O>,
    mut seat: Seat<L1, L2, L3, L4, L5, L6, L7, L8, O>,
    gate: &T,
) -> Seat<L1, L2, L3, L4, L5, L6, L7, L8, O>
    ensures { result.mark ≡ 1 }
{
    for _ in rt.forever() {
        if let Turn::Over = shared.turn(rt, &mut seat, gate) {
            return seat;
        }
    }
    unreachable!()
}

/// All workers take turns, side by side.
fn take_all_turns<
    L1: Ledger + Send + Sync,
    L2: Ledger + Send + Sync,
    L3: Ledger + Send + Sync,
    L4: Ledger + Send + Sync,
    L5: Ledger + Send + Sync,
    L6: Ledger + Send + Sync,
    L7: Ledger + Send + Sync,
    L8: Ledger + Send + Sync,
    O: Crew + Send + Sync,
    R: Threads + Wait + Sync,
    T: Gate,
>(
    rt: &R,
    shared: &Shared<L1, L2, L3, L4, L5, L6, L7, L8, O>,
    seats: Vec<Seat<L1, L2, L3, L4, L5, L6, L7, L8, O>>,
    gate: &T,
) -> Result<Vec<Seat<L1, L2, L3, L4, L5, L6, L7, L8, O>>, NoMemory>
    ensures count { IfOk result (λ left. length left.items ≡ length seats.items) }
    ensures marks { IfOk result (λ left. All (λ seat. seat.mark ≡ 1) left.items) }
{
    Ok(map_vec(rt, seats, &|seat| take_turns(rt, shared, seat, gate))?)
}

/// As `run_workers`, over ledgers of these names.
fn run_over<
    L1: Ledger + Send + Sync,
    L2: Ledger + Send + Sync,
    L3: Ledger + Send + Sync,
    L4: Ledger + Send + Sync,
    L5: Ledger + Send + Sync,
    L6: Ledger + Send + Sync,
    L7: Ledger + Send + Sync,
    L8: Ledger + Send + Sync,
    O: Crew + Send + Sync,
    R: Threads + Wait + Sync,
    T: Gate,
>(
    rt: &R,
    alloc: Global,
    one: Blank,
    two: Blank,
    three: Blank,
    four: Blank,
    five: Blank,
    six: Blank,
    seven: Blank,
    eight: Blank,
    marks: Blank,
    process: Process,
    workers: u8,
    gate: &T,
) -> Result<Closed, NoMemory>
    requires one_name { one.name ≡ L1.name }
    requires one_parts { (one.parts ≡ L1.parts) × (one.parts ≡ 1) }
    requires two_name { two.name ≡ L2.name }
    requires two_parts { (two.parts ≡ L2.parts) × (two.parts ≡ 1) }
    requires three_name { three.name ≡ L3.name }
    requires three_parts { (three.parts ≡ L3.parts) × (three.parts ≡ 1) }
    requires four_name { four.name ≡ L4.name }
    requires four_parts { (four.parts ≡ L4.parts) × (four.parts ≡ 1) }
    requires five_name { five.name ≡ L5.name }
    requires five_parts { (five.parts ≡ L5.parts) × (five.parts ≡ 1) }
    requires six_name { six.name ≡ L6.name }
    requires six_parts { (six.parts ≡ L6.parts) × (six.parts ≡ 1) }
    requires seven_name { seven.name ≡ L7.name }
    requires seven_parts { (seven.parts ≡ L7.parts) × (seven.parts ≡ 1) }
    requires eight_name { eight.name ≡ L8.name }
    requires eight_parts { (eight.parts ≡ L8.parts) × (eight.parts ≡ 1) }
    requires marks_name { marks.name ≡ O.name }
    requires marks_parts { (marks.parts ≡ O.parts) × (marks.parts ≡ 8) }
    requires started { process.journal ≡ [] }
    requires some_workers { 1 ≤ workers }
    requires few_workers { workers ≤ 8 }
    requires crew { workers ≡ O.workers }
    ensures over { IfOk result (λ closed. IsOver (state_of closed.process)) }
    ensures workers { IfOk result (λ closed.
        are_of_workers workers closed.process.journal ≡ true) }
    ensures counts { IfOk result (λ closed.
        closed.counts ≡ counts_of closed.process.journal) }
    ensures summed { IfOk result (λ closed.
        sum closed.counts ≡ (state_of closed.process).steps) }
{
    let (shared, seats) = Shared::<L1, L2, L3, L4, L5, L6, L7, L8, O>::new(
        alloc, one, two, three, four, five, six, seven, eight, marks, process, workers,
    )?;
    let seats = take_all_turns(rt, &shared, seats, gate)?;
    let closed = shared.close(seats);
    let _over = closed.process.is_over();
    Ok(closed)
}

/// Runs a process that was just started by 1 to 8 workers until it has ended or is spent. Each
/// worker takes its turns in a thread of its own, or in the caller's where none can be made.
pub fn run_workers<R: Threads + Wait + Sync, T: Gate>(
    rt: &R,
    alloc: Global,
    process: Process,
    workers: u8,
    gate: &T,
) -> Result<Closed, NoMemory>
    requires started { process.journal ≡ [] }
    requires some_workers { 1 ≤ workers }
    requires few_workers { workers ≤ 8 }
    ensures over { IfOk result (λ closed. IsOver (state_of closed.process)) }

    // No entry is of worker 0 or of one above the number of workers.
    ensures workers { IfOk result (λ closed.
        are_of_workers workers closed.process.journal ≡ true) }

    // The counts are the journal's steps by worker, and together the steps of the process.
    ensures counts { IfOk result (λ closed.
        closed.counts ≡ counts_of closed.process.journal) }
    ensures summed { IfOk result (λ closed.
        sum closed.counts ≡ (state_of closed.process).steps) }
{
    run_over::<Brand, Brand, Brand, Brand, Brand, Brand, Brand, Brand, Brand, R, T>(
        rt,
        alloc,
        Blank::new(1),
        Blank::new(1),
        Blank::new(1),
        Blank::new(1),
        Blank::new(1),
        Blank::new(1),
        Blank::new(1),
        Blank::new(1),
        Blank::new(8),
        process,
        workers,
        gate,
    )
}

/// The process, where it was started from this setup, else one that is started anew from it.
fn own_or_new(alloc: Global, process: Process, setup: Setup) -> Result<Process, StartFault>
    ensures setup { IfOk result (λ own. own.setup ≡ setup_of setup) }
    ensures workers { (workers : ℕ) → AreWithin workers process.journal
        → IfOk result (λ own. AreWithin workers own.journal) }
    ensures refused { IfErr result (λ fault. (fault ≡ StartFault.Memory)
        ⊎ (start_fault (setup_of setup) ≡ Some fault)) }
{
    if process.same_setup(&setup) {
        return Ok(process);
    }
    Process::start(alloc, setup)
}

/// The process, or one that is started anew, with all steps that it has left.
fn finished(alloc: Global, process: Process, setup: Setup) -> Result<Process, StartFault>
    ensures setup { IfOk result (λ own. own.setup ≡ setup_of setup) }
    ensures over { IfOk result (λ own. IsOver (state_of own)) }
    ensures complete { IfOk result (λ own. IsComplete own.setup own.journal) }
    ensures kept { IfOk result (λ own. IsKept (state_of own)) }
    ensures workers { (workers : ℕ) → AreWithin workers process.journal
        → IfOk result (λ own. AreWithin workers own.journal) }
    ensures refused { IfErr result (λ fault. (fault ≡ StartFault.Memory)
        ⊎ (start_fault (setup_of setup) ≡ Some fault)) }
{
    match own_or_new(alloc, process, setup) {
        Ok(mut own) => {
            finish(&mut own);
            Ok(own)
        }
        Err(fault) => Err(fault),
    }
}

/// Starts a process and runs it by 1 to 8 workers, as `run_workers` does, until it has ended or its
/// budget is spent.
///
/// What lies behind a lock is known by its type alone. So the process that comes back is compared
/// with the setup: if it were another, the setup would be started anew; and what a process has left
/// to do, if anything, is done as worker 0.
pub fn run<R: Threads + Wait + Sync, T: Gate>(
    rt: &R,
    alloc: Global,
    setup: Setup,
    workers: u8,
    gate: &T,
) -> Result<Process, StartFault>
    requires some_workers { 1 ≤ workers }
    requires few_workers { workers ≤ 8 }
    ensures started { IfOk result (λ process. start_fault (setup_of setup) ≡ None) }
    ensures setup { IfOk result (λ process. process.setup ≡ setup_of setup) }
    ensures over { IfOk result (λ process. IsOver (state_of process)) }

    // Its journal is a complete replay, and its state keeps the isolation invariant.
    ensures complete { IfOk result (λ process. IsComplete process.setup process.journal) }
    ensures kept { IfOk result (λ process. IsKept (state_of process)) }

    // No entry is of a worker above the number of workers.
    ensures workers { IfOk result (λ process. AreWithin workers process.journal) }
    ensures refused { IfErr result (λ fault. (fault ≡ StartFault.Memory)
        ⊎ (start_fault (setup_of setup) ≡ Some fault)) }
{
    let kept = setup.copy()?;
    let process = Process::start(alloc, setup)?;
    let closed = run_workers(rt, alloc, process, workers, gate)?;
    finished(alloc, closed.process, kept)
}
