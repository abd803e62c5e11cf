//! Replays: a process makes the steps of a journal's entries again.

ghost use Rattle.std.specs.Prelude.{◌≡◌, ◌≤◌, ◌++◌, ◌⊎◌, None, Some, IfOk, MatchResult, OnOk};
ghost use Rattle.std.specs.Prelude.{length, true};
ghost use Rattle.erim_defs.specs.Machine.Isolation.{IsKept};
ghost use Rattle.erim_defs.specs.Machine.Replay.{IsComplete, IsOver, replay, replay_from};
ghost use Rattle.erim_defs.specs.Machine.Replay.{steps_of};
ghost use Rattle.erim_defs.specs.Output.Journal.{AreEntries, IsJournal, is_journal_entry};
ghost use Rattle.erim_process.specs.ProcessInvariant.{setup_of};
ghost use Rattle.erim_process.specs.ProcessValue.{state_of};
ghost use Rattle.erim_defs.specs.declared.replay_fault.ReplayFault.TheVariants.{Start};
ghost use Rattle.erim_defs.specs.Machine.ReplayFaults.{FirstLaw, UnbrokenLaw, entries_fault};
ghost use Rattle.erim_defs.specs.Machine.ReplayFaults.{one_by_one, replay_fault, single_steps};
ghost use Rattle.erim_defs.specs.Machine.ReplayFaults.{steps_fault};
ghost use Rattle.erim_defs.specs.declared.limits.TheConstants.{MOST_STEPS};

use crate::runner::note_kept;
use erim_defs::{Entry, ReplayFault, Stepped};
use erim_process::{Process, Setup, StartFault};
use journal_bytes::Journal;
use std::alloc::Global;

/// Makes the steps of the entry at this index.
fn make_steps(process: &mut Process, index: u32, entry: &Entry) -> Result<(), ReplayFault>
    requires { is_journal_entry entry.now ≡ true }
    ensures exact { MatchResult result
        (λ _. steps_fault index entry.now.thread entry.now.count (state_of process.old) ≡ None)
        (λ fault. steps_fault index entry.now.thread entry.now.count (state_of process.old)
        ≡ Some fault) }
    ensures run { OnOk result (steps_of entry.now.thread entry.now.count (state_of process.old)
        ≡ Some (state_of process.new)) }
    ensures journal { OnOk result
        (process.new.journal ≡ process.old.journal ++ single_steps entry.now) }
    ensures setup { process.new.setup ≡ process.old.setup }
{
    'steps: for _ in 0..entry.count {
        match process.step_now(entry.worker, entry.thread as u8) {
            Stepped::Made => {}
            Stepped::Ended => return Err(ReplayFault::PastEnd { index }),
            Stepped::Spent => return Err(ReplayFault::PastBudget { index }),
            Stepped::NotLive => return Err(ReplayFault::NotLive { index }),
        }
    }
    Ok(())
}

/// Makes the entries' steps, and looks whether the process could go on.
fn make_entries(process: &mut Process, entries: &[Entry]) -> Result<(), ReplayFault>
    requires form { AreEntries entries.now }
    requires few { length entries.now ≤ MOST_STEPS }
    ensures exact { MatchResult result
        (λ _. entries_fault 0 entries.now (state_of process.old) ≡ None)
        (λ fault. entries_fault 0 entries.now (state_of process.old) ≡ Some fault) }
    ensures run { OnOk result (replay_from (Some (state_of process.old)) entries.now
        ≡ Some (state_of process.new)) }
    ensures over { OnOk result (IsOver (state_of process.new)) }
    ensures journal { OnOk result
        (process.new.journal ≡ process.old.journal ++ one_by_one entries.now) }
    ensures setup { process.new.setup ≡ process.old.setup }
{
    for (index, entry) in entries.iter().enumerate() {
        make_steps(process, index as u32, entry)?;
    }
    if process.is_over() {
        Ok(())
    } else {
        Err(ReplayFault::Unfinished)
    }
}

/// As `replay`, of a journal's entries.
fn replay_entries(alloc: Global, setup: Setup, entries: &[Entry]) -> Result<Process, ReplayFault>
    requires form { AreEntries entries.now }
    requires few { length entries.now ≤ MOST_STEPS }
    ensures exact { MatchResult result (λ _. replay_fault (setup_of setup) entries.now ≡ None)
        (λ fault. (fault ≡ ReplayFault.Start StartFault.Memory)
        ⊎ (replay_fault (setup_of setup) entries.now ≡ Some fault)) }
    ensures setup { IfOk result (λ process. process.setup ≡ setup_of setup) }
    ensures run { IfOk result (λ process.
        replay (setup_of setup) entries.now ≡ Some (state_of process)) }
    ensures over { IfOk result (λ process. IsOver (state_of process)) }
    ensures complete { IfOk result (λ _. IsComplete (setup_of setup) entries.now) }
    ensures kept { IfOk result (λ process. IsKept (state_of process)) }
    ensures journal { IfOk result (λ process. process.journal ≡ one_by_one entries.now) }
{
    let mut process = Process::start(alloc, setup)?;
    make_entries(&mut process, entries)?;
    note_kept(&process);
    Ok(process)
}

/// Starts a process and makes the steps of a journal again, each under its entry's worker and
/// thread. The budget and the frames are those of the setup.
///
/// Fails with `Start` of what keeps the process from starting, out of memory among it; with
/// `PastEnd`, `PastBudget` or `NotLive` at the first step that can't be made; and with `Unfinished`
/// where all were made and the process could go on.
pub fn replay(alloc: Global, setup: Setup, journal: &Journal) -> Result<Process, ReplayFault>
    requires { IsJournal journal.now }
    ensures exact { MatchResult result
        (λ _. replay_fault (setup_of setup) journal.now.entries ≡ None)
        (λ fault. (fault ≡ ReplayFault.Start StartFault.Memory)
        ⊎ (replay_fault (setup_of setup) journal.now.entries ≡ Some fault)) }
    ensures setup { IfOk result (λ process. process.setup ≡ setup_of setup) }
    ensures run { IfOk result (λ process.
        replay (setup_of setup) journal.now.entries ≡ Some (state_of process)) }
    ensures over { IfOk result (λ process. IsOver (state_of process)) }

    // The journal is a complete replay, and the state that it leads to keeps the isolation
    // invariant.
    ensures complete { IfOk result (λ _. IsComplete (setup_of setup) journal.now.entries) }
    ensures kept { IfOk result (λ process. IsKept (state_of process)) }
    ensures journal { IfOk result (λ process.
        process.journal ≡ one_by_one journal.now.entries) }
{
    replay_entries(alloc, setup, journal.entries.as_slice())
}

/// A replay isn't broken exactly where the process starts and the entries lead it to its end.
pub fn unbroken()
    ensures { UnbrokenLaw }
{}

/// The entries before the one that a fault names are legal, and with that one they aren't.
pub fn first_unmade()
    ensures { FirstLaw }
{}
