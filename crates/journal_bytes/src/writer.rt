//! Makes the bytes of a journal.

ghost use Rattle.std.specs.Prelude.{◌≡◌, ◌++◌, ◌≤◌, length, OnOk, IfOk};
ghost use Rattle.erim_defs.specs.Output.Journal.{IsJournal, JournalValue, entry_bytes};
ghost use Rattle.erim_defs.specs.Output.Journal.{journal_text};

use erim_defs::field::{u16_bytes, u32_bytes};
use erim_defs::{Entry, NoMemory};
use std::alloc::{AllocError, Global};

/// Appends the bytes of an entry.
fn push_entry(bytes: &mut Vec<u8>, entry: &Entry) -> Result<(), AllocError>
    ensures { OnOk result (bytes.new.items ≡ bytes.old.items ++ entry_bytes entry.now) }
{
    bytes.extend_from_slice(&u16_bytes(entry.worker))?;
    bytes.extend_from_slice(&u16_bytes(entry.thread))?;
    bytes.extend_from_slice(&u32_bytes(entry.count))
}

/// The bytes of a journal.
#[tactic(auto, unfolding(erim_defs::specs::Output::Journal::journal_text))]
pub fn write_journal(
    alloc: Global,
    entries: &[Entry],
    budget: u32,
    frames: u32,
) -> Result<Vec<u8>, NoMemory>
    requires { IsJournal (record { budget = budget; frames = frames; entries = entries.now }) }
    ensures { let journal : JournalValue =
        record { budget = budget; frames = frames; entries = entries.now } in
        IfOk result (λ bytes. bytes.items ≡ journal_text journal) }
{
    let mut bytes = Vec::from_slice(alloc, b"ERIMJNL1")?;
    bytes.extend_from_slice(&u32_bytes(budget))?;
    bytes.extend_from_slice(&u32_bytes(frames))?;
    bytes.extend_from_slice(&u32_bytes(entries.len() as u32))?;
    for entry in entries {
        push_entry(&mut bytes, entry)?;
    }
    Ok(bytes)
}
