//! The report of a run.

ghost use Rattle.std.specs.Prelude.{◌≡◌, ◌≤◌, ◌++◌, length, OnOk, IfOk};
ghost use Rattle.std.specs.String.{string_bytes};
ghost use Rattle.erim_defs.specs.Output.Report.{thread_text, thread_lines, worker_line};
ghost use Rattle.erim_defs.specs.Output.Report.{worker_lines, steps_of_thread, steps_of_worker};
ghost use Rattle.erim_defs.specs.Output.Report.{lines_after_output, report};
ghost use Rattle.erim_process.specs.ProcessValue.{state_of};
ghost use Rattle.erim_defs.specs.declared.limits.TheConstants.{MOST_STEPS};

use crate::ends::{end_text, escape_text};
use crate::texts::pkru_text;
use erim_defs::{Entry, NoMemory};
use erim_process::Process;
use std::alloc::{AllocError, Global};

/// How many workers there may be, the one that steps alone among them.
const WORKERS: u16 = 9;

/// How many steps of a thread the entries stand for.
fn steps_of_thread(entries: &[Entry], thread: u16) -> u64
    requires { length entries.now ≤ MOST_STEPS }
    ensures { result ≡ steps_of_thread entries.now thread }
{
    entries
        .iter()
        .filter(|entry| entry.thread == thread)
        .map(|entry| u64::from(entry.count))
        .sum()
}

/// How many steps of a worker the entries stand for.
fn steps_of_worker(entries: &[Entry], worker: u16) -> u64
    requires { length entries.now ≤ MOST_STEPS }
    ensures { result ≡ steps_of_worker entries.now worker }
{
    entries
        .iter()
        .filter(|entry| entry.worker == worker)
        .map(|entry| u64::from(entry.count))
        .sum()
}

/// Appends the line of a thread.
fn push_thread(
    alloc: Global,
    text: &mut String,
    entries: &[Entry],
    thread: u8,
    pkru: u32,
) -> Result<(), AllocError>
    requires { length entries.now ≤ MOST_STEPS }
    ensures { OnOk result (string_bytes text.new
        ≡ string_bytes text.old ++ thread_text entries.now thread pkru) }
{
    let steps = steps_of_thread(entries, u16::from(thread));
    let pkru = pkru_text(alloc, pkru)?;
    writeln!(text, "thread {thread} steps {steps} pkru {pkru}")
}

/// Appends the lines of all threads.
fn push_threads(
    alloc: Global,
    text: &mut String,
    process: &Process,
    entries: &[Entry],
) -> Result<(), AllocError>
    requires { length entries.now ≤ MOST_STEPS }
    ensures { OnOk result (string_bytes text.new
        ≡ string_bytes text.old
        ++ thread_lines entries.now (state_of process.now).threads
        (length (state_of process.now).threads)) }
{
    for thread in 0..process.thread_count() {
        let pkru = process.thread(thread).pkru;
        push_thread(alloc, text, entries, thread, pkru)?;
    }
    Ok(())
}

/// Appends the line of a worker that made steps.
fn push_worker(text: &mut String, worker: u16, steps: u64) -> Result<(), AllocError>
    ensures { OnOk result (string_bytes text.new
        ≡ string_bytes text.old ++ worker_line worker steps) }
{
    if steps == 0 {
        return Ok(());
    }
    writeln!(text, "worker {worker} steps {steps}")
}

/// Appends the lines of all workers.
fn push_workers(text: &mut String, entries: &[Entry]) -> Result<(), AllocError>
    requires { length entries.now ≤ MOST_STEPS }
    ensures { OnOk result (string_bytes text.new
        ≡ string_bytes text.old ++ worker_lines entries.now 9) }
{
    for worker in 0..WORKERS {
        push_worker(text, worker, steps_of_worker(entries, worker))?;
    }
    Ok(())
}

/// What stands after the output.
fn lines_after_output(
    alloc: Global,
    process: &Process,
    entries: &[Entry],
) -> Result<String, AllocError>
    requires { length entries.now ≤ MOST_STEPS }
    ensures { IfOk result (λ text. string_bytes text
        ≡ lines_after_output entries.now (state_of process.now)) }
{
    let steps = process.steps();
    let end = end_text(alloc, process.end())?;
    let escape = escape_text(alloc, process.escape())?;
    let mut text = format!(in alloc; "steps {steps}\nend {end}\nescape {escape}\n")?;
    push_threads(alloc, &mut text, process, entries)?;
    push_workers(&mut text, entries)?;
    Ok(text)
}

/// The report of a process that these entries led to: its output, its steps, its end, its first
/// escape, and how many steps each thread and each worker made.
#[tactic(auto, unfolding(erim_defs::specs::Output::Report::report))]
pub fn report(alloc: Global, process: &Process, entries: &[Entry]) -> Result<Vec<u8>, NoMemory>
    requires { length entries.now ≤ MOST_STEPS }
    ensures { IfOk result (λ text. text.items ≡ report entries.now (state_of process.now)) }
{
    let output = process.output();
    let count = output.len();
    let mut text = format!(in alloc; "output {count}\n")?.into_bytes();
    text.extend_from_slice(output)?;
    text.extend_from_slice(b"\n")?;
    text.extend_from_slice(lines_after_output(alloc, process, entries)?.as_bytes())?;
    Ok(text)
}
