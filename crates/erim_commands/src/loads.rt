//! Loads the files of commands and reads them. Where that fails, its line is put.

ghost use Rattle.std.specs.Prelude.{◌≡◌, ◌≢◌, ℕ, List, IfOk};
ghost use Rattle.std.specs.String.{string_bytes};
ghost use Rattle.erim_defs.specs.Encoding.Parts.{AreBytes};
ghost use Rattle.erim_defs.specs.Output.Journal.{IsJournal};
ghost use Rattle.erim_defs.specs.Output.Texts.{error_line, fault_text, journal_fault_text};
ghost use Rattle.erim_commands.specs.declared.reply.Status.TheVariants.{ImageRefused};
ghost use Rattle.erim_commands.specs.declared.reply.Status.TheVariants.{JournalRefused};
ghost use Rattle.erim_commands.specs.CallParts.{Loads, Passes, reply_of};
ghost use Rattle.erim_commands.specs.Commands.{image_format, journal_format, with_file};
ghost use Rattle.erim_commands.specs.Delivery.{world};
ghost use Rattle.erim_commands.specs.Replies.{line_reply};

use crate::delivery::{conclude, put};
use crate::reply::{FAILED, OUT_OF_MEMORY, Reply, Status, code_of};
use crate::text::{fault_line, journal_fault_line};
use elf_image::{Image, ImageFault, read_image};
use erim_defs::limits::{MOST_IMAGE_BYTES, MOST_JOURNAL_BYTES};
use erim_defs::{JournalFault, NoMemory};
use erim_io::{LoadFault, Sink, Store};
use journal_bytes::{Journal, read_journal};
use std::alloc::Global;

/// Reads off a slice what holds of each: its elements are below 256.
fn note_bytes(bytes: &[u8])
    ensures { AreBytes bytes.now }
{}

/// Loads a file of at most `limit` bytes. Where it is larger, the line is put, with the status.
fn load<S: Store, K: Sink>(
    alloc: Global,
    name: &str,
    limit: u64,
    status: Status,
    line: &[u8],
    store: &mut S,
    out: &mut K,
) -> Result<Vec<u8>, u8>
    ensures { let old = world S.Store K.Sink store.old out.old in
        let new = world S.Store K.Sink store.new out.new in
        (text : List ℕ) → line.now ≡ error_line text
        → Loads name.now limit (line_reply status text) old new result }
{
    let mut bytes = Vec::new(alloc);
    match store.load(name, limit, &mut bytes) {
        Ok(()) => {
            note_bytes(bytes.as_slice());
            Ok(bytes)
        }
        Err(LoadFault::Failed) => Err(put(out, FAILED, b"erim: load failed\n")),
        Err(LoadFault::TooLarge { length: _ }) => Err(put(out, code_of(status), line)),
        Err(LoadFault::Memory) => Err(OUT_OF_MEMORY),
    }
}

/// The reply of a command that does nothing, for the reason that the line says.
pub fn line_reply<'a>(status: Status, line: String) -> Reply<'a>
    ensures { (text : List ℕ) → string_bytes line ≡ error_line text
        → reply_of result ≡ line_reply status text }
{
    Reply {
        status,
        text: line.into_bytes(),
        save: None,
    }
}

/// The reply of a command whose image has this fault, unless memory ran out.
fn image_fault_reply<'a>(alloc: Global, fault: &ImageFault) -> Result<Reply<'a>, NoMemory>
    ensures { IfOk result (λ reply. (fault.now ≢ ImageFault.Memory)
        × (reply_of reply ≡ line_reply ImageRefused (fault_text fault.now))) }
{
    match fault {
        ImageFault::Memory => Err(NoMemory),
        _ => match fault_line(alloc, fault) {
            Ok(line) => Ok(line_reply(Status::ImageRefused, line)),
            Err(NoMemory) => Err(NoMemory),
        },
    }
}

/// Loads an image of at most 8 MiB and reads it. Where that fails, the call is at its end, and the
/// program's answer is the error.
pub fn load_image<S: Store, K: Sink>(
    alloc: Global,
    name: &str,
    store: &mut S,
    out: &mut K,
) -> Result<Image, u8>
    ensures { let old = world S.Store K.Sink store.old out.old in
        let new = world S.Store K.Sink store.new out.new in
        Passes (with_file image_format name.now) old new result }
{
    let refusal = Status::ImageRefused;
    let line = b"erim: image too large\n";
    let bytes = match load(alloc, name, MOST_IMAGE_BYTES, refusal, line, store, out) {
        Ok(bytes) => bytes,
        Err(status) => return Err(status),
    };
    match read_image(alloc, bytes.as_slice()) {
        Ok(image) => Ok(image),
        Err(fault) => Err(conclude(store, out, image_fault_reply(alloc, &fault))),
    }
}

/// The reply of a command whose journal has this fault, unless memory ran out.
fn journal_fault_reply<'a>(alloc: Global, fault: &JournalFault) -> Result<Reply<'a>, NoMemory>
    ensures { IfOk result (λ reply. (fault.now ≢ JournalFault.Memory)
        × (reply_of reply ≡ line_reply JournalRefused (journal_fault_text fault.now))) }
{
    match fault {
        JournalFault::Memory => Err(NoMemory),
        _ => match journal_fault_line(alloc, fault) {
            Ok(line) => Ok(line_reply(Status::JournalRefused, line)),
            Err(NoMemory) => Err(NoMemory),
        },
    }
}

/// Loads a journal and reads it. Where that fails, the call is at its end, and the program's answer
/// is the error.
pub fn load_journal<S: Store, K: Sink>(
    alloc: Global,
    name: &str,
    store: &mut S,
    out: &mut K,
) -> Result<Journal, u8>
    ensures form { IfOk result IsJournal }
    ensures passes { let old = world S.Store K.Sink store.old out.old in
        let new = world S.Store K.Sink store.new out.new in
        Passes (with_file journal_format name.now) old new result }
{
    let refusal = Status::JournalRefused;
    let line = b"erim: journal too large\n";
    let bytes = match load(alloc, name, MOST_JOURNAL_BYTES, refusal, line, store, out) {
        Ok(bytes) => bytes,
        Err(status) => return Err(status),
    };
    match read_journal(alloc, bytes.as_slice()) {
        Ok(journal) => Ok(journal),
        Err(fault) => Err(conclude(store, out, journal_fault_reply(alloc, &fault))),
    }
}
