//! `run`: runs an image, saves the journal of the run, and prints its report.

ghost use Rattle.std.specs.Prelude.{◌≤◌, IfOk};
ghost use Rattle.erim_defs.specs.declared.limits.TheConstants.{LEAST_FRAMES, MOST_FRAMES};
ghost use Rattle.erim_defs.specs.declared.limits.TheConstants.{MOST_STEPS, MOST_WORKERS};
ghost use Rattle.erim_defs.specs.Machine.Replay.{IsOver};
ghost use Rattle.erim_defs.specs.Output.Report.{report};
ghost use Rattle.erim_defs.specs.Output.Words.{Run};
ghost use Rattle.command_words.specs.Commands.{AreRunNumbers};
ghost use Rattle.erim_process.specs.ProcessValue.{state_of};
ghost use Rattle.thread_runner.specs.Running.{AreWithin};
ghost use Rattle.erim_commands.specs.CallParts.{IsReplyFor, reply_of};
ghost use Rattle.erim_commands.specs.Commands.{plan_of, run_setup, started_run};
ghost use Rattle.erim_commands.specs.Delivery.{Carries, world};
ghost use Rattle.erim_commands.specs.Replies.{IsAnswer, IsRunReply};

use crate::delivery::conclude;
use crate::loads::load_image;
use crate::reply::Reply;
use crate::runs::{run_reply, start_refusal_reply};
use elf_image::Image;
use erim_defs::NoMemory;
use erim_io::{Sink, Store};
use erim_process::{Process, Setup, StartFault};
use publish_lock::Gate;
use report_text::report;
use std::alloc::Global;
use std::sync::Wait;
use std::thread::Threads;
use thread_runner::run as run_process;

/// The report of a process that so many workers have run, and its journal, which is to be saved
/// under the name.
fn report_reply<'a>(
    alloc: Global,
    process: &Process,
    journal: &'a str,
    workers: u8,
) -> Result<Reply<'a>, NoMemory>
    requires over { IsOver (state_of process.now) }
    requires within { AreWithin workers process.now.journal }
    ensures { IfOk result (λ reply.
        IsRunReply report journal.now workers process.now.setup (reply_of reply)) }
{
    let text = report(alloc, process, process.journal())?;
    run_reply(alloc, process, journal, workers, text)
}

/// Runs the image by so many workers, or says why it can't start.
fn started_reply<'a, R: Threads + Wait + Sync, T: Gate>(
    rt: &R,
    alloc: Global,
    image: Image,
    journal: &'a str,
    workers: u8,
    steps: u32,
    frames: u32,
    gate: &T,
) -> Result<Reply<'a>, NoMemory>
    requires { AreRunNumbers workers steps frames }
    ensures { let setup = run_setup image steps frames in
        IsReplyFor (started_run report journal.entry.now workers setup) result }
{
    let setup = Setup {
        image,
        budget: steps,
        frames,
    };
    match run_process(rt, alloc, setup, workers, gate) {
        Ok(process) => report_reply(alloc, &process, journal, workers),
        Err(StartFault::Memory) => Err(NoMemory),
        Err(fault) => start_refusal_reply(alloc, &fault),
    }
}

/// Loads an image and runs it by so many workers.
pub fn run<R: Threads + Wait + Sync, S: Store, K: Sink, T: Gate>(
    rt: &R,
    alloc: Global,
    image: &str,
    journal: &str,
    workers: u8,
    steps: u32,
    frames: u32,
    store: &mut S,
    out: &mut K,
    gate: &T,
) -> u8
    requires { AreRunNumbers workers steps frames }
    ensures { let old = world S.Store K.Sink store.old out.old in
        let new = world S.Store K.Sink store.new out.new in
        let command = Run image.now journal.now workers steps frames in
        Carries IsAnswer (plan_of command) old new result }
{
    match load_image(alloc, image, store, out) {
        Ok(image) => {
            let reply = started_reply(rt, alloc, image, journal, workers, steps, frames, gate);
            conclude(store, out, reply)
        }
        Err(status) => status,
    }
}
