//! What the commands that run processes share: parts of their replies.

ghost use Rattle.std.specs.Prelude.{◌≡◌, ℕ, List, IfOk};
ghost use Rattle.erim_defs.specs.declared.machine.Entry.{Entry};
ghost use Rattle.erim_defs.specs.Machine.Replay.{IsOver};
ghost use Rattle.erim_defs.specs.Machine.State.{State};
ghost use Rattle.erim_process.specs.ProcessValue.{state_of};
ghost use Rattle.thread_runner.specs.Running.{AreWithin};
ghost use Rattle.erim_commands.specs.declared.reply.Status.TheVariants.{ImageRefused};
ghost use Rattle.erim_commands.specs.CallParts.{reply_of};
ghost use Rattle.erim_commands.specs.Replies.{IsRunReply, end_status, start_text, line_reply};

use crate::loads::line_reply;
use crate::reply::{Reply, Save, Status};
use crate::text::start_line;
use erim_defs::{End, NoMemory};
use erim_process::{Process, StartFault};
use journal_bytes::write_journal;
use std::alloc::Global;

/// The status of a process that has ended, or whose budget is spent.
pub fn end_status(end: Option<End>) -> Status
    ensures { result ≡ end_status end }
{
    match end {
        None => Status::Spent,
        Some(End::Exit { .. }) => Status::Done,
        Some(End::Fault { .. } | End::Refused { .. }) => Status::AtFault,
    }
}

/// The reply of a command whose image can't start for this cause.
pub fn start_refusal_reply<'a>(alloc: Global, fault: &StartFault) -> Result<Reply<'a>, NoMemory>
    ensures { IfOk result (λ reply.
        reply_of reply ≡ line_reply ImageRefused (start_text fault.now)) }
{
    match start_line(alloc, fault) {
        Ok(line) => Ok(line_reply(Status::ImageRefused, line)),
        Err(NoMemory) => Err(NoMemory),
    }
}

/// The reply of a process that so many workers have run: its text, and its journal, which is to be
/// saved under the name.
pub fn run_reply<'a>(
    alloc: Global,
    process: &Process,
    journal: &'a str,
    workers: u8,
    text: Vec<u8>,
) -> Result<Reply<'a>, NoMemory>
    requires over { IsOver (state_of process.now) }
    requires within { AreWithin workers process.now.journal }
    ensures { IfOk result (λ reply. (text_of : List Entry → State → List ℕ)
        → text.items ≡ text_of process.now.journal (state_of process.now)
        → IsRunReply text_of journal.now workers process.now.setup (reply_of reply)) }
{
    let setup = process.setup();
    let bytes = write_journal(alloc, process.journal(), setup.budget, setup.frames)?;
    Ok(Reply {
        status: end_status(process.end()),
        text,
        save: Some(Save {
            name: journal,
            bytes,
        }),
    })
}
