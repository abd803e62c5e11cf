//! `replay`: runs an image by a journal, and prints the report.

ghost use Rattle.std.specs.Prelude.{◌≡◌, Some, IfOk};
ghost use Rattle.erim_defs.specs.Machine.Replay.{IsOver, replay};
ghost use Rattle.erim_defs.specs.Output.Journal.{IsJournal};
ghost use Rattle.erim_defs.specs.Output.Words.{Replay};
ghost use Rattle.erim_process.specs.ProcessValue.{state_of};
ghost use Rattle.erim_commands.specs.declared.reply.Status.TheVariants.{JournalRefused};
ghost use Rattle.erim_commands.specs.CallParts.{IsReplyFor, reply_of};
ghost use Rattle.erim_commands.specs.Commands.{plan_of, replay_setup, started_replay};
ghost use Rattle.erim_commands.specs.Delivery.{Carries, world};
ghost use Rattle.erim_commands.specs.Replies.{IsAnswer, IsReplayReply, break_text, line_reply};

use crate::delivery::conclude;
use crate::loads::{line_reply, load_image, load_journal};
use crate::reply::{Reply, Status};
use crate::runs::{end_status, start_refusal_reply};
use crate::text::break_line;
use elf_image::Image;
use erim_defs::NoMemory;
use erim_io::{Sink, Store};
use erim_process::{Process, Setup, StartFault};
use journal_bytes::Journal;
use report_text::report;
use std::alloc::Global;
use thread_runner::{ReplayFault, replay as replay_journal};

/// The report of a process that was led to by a journal.
fn report_reply<'a>(
    alloc: Global,
    process: &Process,
    journal: &Journal,
) -> Result<Reply<'a>, NoMemory>
    requires runs { replay process.now.setup journal.now.entries ≡ Some (state_of process.now) }
    requires over { IsOver (state_of process.now) }
    requires form { IsJournal journal.now }
    ensures { IfOk result (λ reply.
        IsReplayReply process.now.setup journal.now.entries (reply_of reply)) }
{
    // The setup's invariant says that each of its runs is isolated.
    let _setup = process.setup();
    Ok(Reply {
        status: end_status(process.end()),
        text: report(alloc, process, journal.entries.as_slice())?,
        save: None,
    })
}

/// The reply of a command whose journal breaks at a step.
fn break_reply<'a>(alloc: Global, fault: &ReplayFault) -> Result<Reply<'a>, NoMemory>
    ensures { IfOk result (λ reply.
        reply_of reply ≡ line_reply JournalRefused (break_text fault.now)) }
{
    match break_line(alloc, fault) {
        Ok(line) => Ok(line_reply(Status::JournalRefused, line)),
        Err(NoMemory) => Err(NoMemory),
    }
}

/// Runs the image by the journal, or says why that can't be done.
fn started_reply<'a>(alloc: Global, image: Image, journal: &Journal) -> Result<Reply<'a>, NoMemory>
    requires { IsJournal journal.now }
    ensures { IsReplyFor
        (started_replay (replay_setup image journal.now) journal.now.entries) result }
{
    let setup = Setup {
        image,
        budget: journal.budget,
        frames: journal.frames,
    };
    match replay_journal(alloc, setup, journal) {
        Ok(process) => report_reply(alloc, &process, journal),
        Err(ReplayFault::Start(StartFault::Memory)) => Err(NoMemory),
        Err(ReplayFault::Start(fault)) => start_refusal_reply(alloc, &fault),
        Err(fault) => break_reply(alloc, &fault),
    }
}

/// Loads an image and a journal, and runs the one by the other.
pub fn replay<S: Store, K: Sink>(
    alloc: Global,
    image: &str,
    journal: &str,
    store: &mut S,
    out: &mut K,
) -> u8
    ensures { let old = world S.Store K.Sink store.old out.old in
        let new = world S.Store K.Sink store.new out.new in
        Carries IsAnswer (plan_of (Replay image.now journal.now)) old new result }
{
    let image = match load_image(alloc, image, store, out) {
        Ok(image) => image,
        Err(status) => return status,
    };
    match load_journal(alloc, journal, store, out) {
        Ok(journal) => conclude(store, out, started_reply(alloc, image, &journal)),
        Err(status) => status,
    }
}
