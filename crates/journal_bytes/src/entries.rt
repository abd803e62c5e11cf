//! The entries of a journal, of eight bytes each after the header.

ghost use Rattle.std.specs.Prelude.{◌≡◌, ◌<◌, IfOk};
ghost use Rattle.erim_defs.specs.Output.Journal.{count_of, entries_from, entry_fault};
ghost use Rattle.erim_defs.specs.Output.Journal.{is_journal_entry};
ghost use Rattle.journal_bytes.specs.Entries.{HasEntries, entry_of};

use crate::field::{ENTRY_SIZE, HEADER_SIZE, count_of};
use erim_defs::field::{u16_at, u32_at};
use erim_defs::limits::{MOST_COUNT, MOST_THREADS, MOST_WORKERS};
use erim_defs::{Entry, JournalFault};
use std::alloc::{AllocError, Global};

/// The entry of a number.
#[tactic(auto, unfolding(crate::specs::Entries::entry_of))]
fn entry_of(bytes: &[u8], index: u32) -> Entry
    requires entries { HasEntries bytes.now }
    requires index { index < count_of bytes.now }
    ensures { result ≡ entry_of bytes.now index }
{
    let place = HEADER_SIZE + ENTRY_SIZE * index as usize;
    Entry {
        worker: u16_at(bytes, place),
        thread: u16_at(bytes, place + 2),
        count: u32_at(bytes, place + 4),
    }
}

/// May a journal have it?
fn is_journal_entry(entry: &Entry) -> bool
    ensures { result ≡ is_journal_entry entry.now }
{
    entry.worker <= u16::from(MOST_WORKERS)
        && entry.thread < u16::from(MOST_THREADS)
        && entry.count >= 1
        && entry.count <= MOST_COUNT
}

/// The first that no journal may have.
#[tactic(auto, using(crate::proofs::EntryLemmas::fault_begins, crate::proofs::EntryLemmas::fault_stops, crate::proofs::EntryLemmas::fault_goes_on, crate::proofs::EntryLemmas::fault_ends))]
pub(crate) fn entry_fault(bytes: &[u8]) -> Option<JournalFault>
    requires { HasEntries bytes.now }
    ensures { result ≡ entry_fault 0 (entries_from bytes.now 20 (count_of bytes.now)) }
{
    for index in 0..count_of(bytes) {
        if !is_journal_entry(&entry_of(bytes, index)) {
            return Some(JournalFault::BadEntry { index });
        }
    }
    None
}

/// All of them.
#[tactic(auto, using(crate::proofs::EntryLemmas::entries_begin, crate::proofs::EntryLemmas::entries_take, crate::proofs::EntryLemmas::entries_end))]
pub(crate) fn read_entries(alloc: Global, bytes: &[u8]) -> Result<Vec<Entry>, AllocError>
    requires { HasEntries bytes.now }
    ensures { IfOk result (λ entries.
        entries.items ≡ entries_from bytes.now 20 (count_of bytes.now)) }
{
    let count = count_of(bytes);
    let mut entries = Vec::with_capacity(alloc, count as usize)?;
    for index in 0..count {
        entries.push(entry_of(bytes, index))?;
    }
    Ok(entries)
}
