//! Does the commands of a row, and says what isn't as the row says.

use crate::call::{Answer, Call, Text};
use crate::row::Row;
use erim_commands::erim;
use erim_io::{FileStore, LoadFault, MemSink, MemStore, Store};
use std::alloc::Global;
use std::rt::Files;
use std::sync::Wait;
use std::thread::Threads;
use test_rows::{RowFault, RowFile};
use thread_runner::NoGate;

/// How long a file may be.
const FILE_LIMIT: u64 = 16_777_216;

/// The bytes of a file of this folder.
fn stored_bytes<R: Files>(alloc: Global, rt: &R, name: &str) -> Result<Vec<u8>, RowFault> {
    let mut files = FileStore::new(alloc, rt);
    let mut bytes = Vec::new(alloc);
    match files.load(name, FILE_LIMIT, &mut bytes) {
        Ok(()) => Ok(bytes),
        Err(LoadFault::Memory) => Err(RowFault::Memory),
        Err(_) => Err(RowFault::Shape("a file that can't be loaded")),
    }
}

/// The bytes that a row's store holds under a name, if they can be loaded.
pub fn loaded(
    alloc: Global,
    store: &mut MemStore,
    name: &str,
) -> Result<Option<Vec<u8>>, RowFault> {
    let mut bytes = Vec::new(alloc);
    match store.load(name, u64::MAX, &mut bytes) {
        Ok(()) => Ok(Some(bytes)),
        Err(LoadFault::Memory) => Err(RowFault::Memory),
        Err(_) => Ok(None),
    }
}

/// The image of a row: a file of this folder, or else as its lines give it.
fn image_bytes<R: Files>(
    alloc: Global,
    rt: &R,
    stored: &Option<String>,
    file: RowFile,
) -> Result<Vec<u8>, RowFault> {
    match stored {
        Some(name) => stored_bytes(alloc, rt, name.as_str()),
        None => file.bytes(alloc),
    }
}

/// A store that holds an image, under the name `image`, and a journal, if there is one, under the
/// name `journal`.
fn store_of(
    alloc: Global,
    image: Vec<u8>,
    journal: Option<Vec<u8>>,
    failing: Vec<u32>,
) -> Result<MemStore, RowFault> {
    let mut files = Vec::new(alloc);
    files.push((String::from_str(alloc, "image")?, image))?;
    if let Some(journal) = journal {
        files.push((String::from_str(alloc, "journal")?, journal))?;
    }
    Ok(MemStore::new(alloc, files, failing))
}

/// The text of bytes, in which those that aren't printed, and `\`, stand as `\` with two digits.
pub fn printable(alloc: Global, bytes: &[u8]) -> Result<String, RowFault> {
    let mut text = String::new(alloc);
    for byte in bytes {
        match *byte {
            b'\n' => text.push('\n')?,
            b'\\' | 0..=31 | 127..=255 => write!(text, "\\{:02x}", *byte)?,
            plain => text.push(char::from(plain))?,
        }
    }
    Ok(text)
}

/// Calls the program.
fn answer<R: Threads + Wait + Sync>(
    alloc: Global,
    rt: &R,
    words: &[String],
    store: &mut MemStore,
    out: &mut MemSink,
) -> Result<Answer, RowFault> {
    let status = erim(rt, alloc, words, store, out, &NoGate);
    let text = printable(alloc, out.written())?;
    Ok(Answer { status, text })
}

/// Says what was expected.
fn tell_expected(told: &mut String, call: &Call) -> Result<(), RowFault> {
    if let Some(status) = call.status {
        writeln!(told, "expected status {status}")?;
    }
    if let Some(end) = &call.end {
        writeln!(told, "expected the line: end {}", end.as_str())?;
    }
    match &call.text {
        Text::Unsaid => {}
        Text::Whole(lines) => write!(told, "expected text:\n{}", lines.as_str())?,
        Text::Begins(lines) => write!(told, "expected to begin:\n{}", lines.as_str())?,
        Text::Same => told.push_str("expected what came before\n")?,
    }
    Ok(())
}

/// Says what was expected and what came.
fn tell_difference(told: &mut String, call: &Call, came: &Answer) -> Result<(), RowFault> {
    writeln!(told, "{}: differs", call.line.as_str())?;
    tell_expected(told, call)?;
    let Answer { status, text } = came;
    write!(told, "came status {status}, text:\n{}", text.as_str())?;
    Ok(())
}

/// Says what the store doesn't hold as the row says.
fn tell_held(
    alloc: Global,
    call: &Call,
    store: &mut MemStore,
    told: &mut String,
) -> Result<(), RowFault> {
    for (number, held) in call.held.iter().enumerate() {
        if !held.is_met(alloc, store)? {
            let line = call.line.as_str();
            writeln!(told, "{line}: fact {number} of the store, from 0, isn't so")?;
        }
    }
    Ok(())
}

/// Does a command, and answers what came.
fn do_call<R: Threads + Wait + Sync>(
    alloc: Global,
    rt: &R,
    call: &Call,
    store: &mut MemStore,
    out: &mut MemSink,
    before: &Answer,
    told: &mut String,
) -> Result<Answer, RowFault> {
    let came = answer(alloc, rt, call.words.as_slice(), store, out)?;
    if !call.is_met(&came, before) {
        tell_difference(told, call, &came)?;
    }
    tell_held(alloc, call, store, told)?;
    Ok(came)
}

/// Does the commands of a row, one after the other on the same files, each with an output of its
/// own, and says what differs.
pub fn do_row<R: Files + Threads + Wait + Sync>(
    alloc: Global,
    rt: &R,
    row: Row,
    told: &mut String,
) -> Result<(), RowFault> {
    let Row {
        file,
        stored,
        journal,
        failing,
        failing_puts,
        room,
        calls,
        ..
    } = row;
    let image = image_bytes(alloc, rt, &stored, file)?;
    let mut store = store_of(alloc, image, journal, failing)?;
    let mut before = Answer {
        status: 0,
        text: String::new(alloc),
    };
    for call in &calls {
        let failing = Vec::from_slice(alloc, &failing_puts)?;
        let mut out = MemSink::new(alloc, failing, room)?;
        before = do_call(alloc, rt, call, &mut store, &mut out, &before, told)?;
    }
    Ok(())
}
