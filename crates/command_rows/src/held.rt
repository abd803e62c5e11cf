//! What the store of a row is to hold after a command.

use crate::doing::loaded;
use erim_defs::JournalFault;
use erim_io::{MemStore, Store};
use journal_bytes::read_journal;
use std::alloc::Global;
use test_rows::{RowFault, bytes_of, decimal, number, word};

/// One fact of the store.
#[derive(Drop)]
pub enum Held {
    /// The saved journal has a given number of entries; with none there is no journal.
    Entries(usize),
    /// Each entry of the saved journal is of a worker from 1 to a given number.
    Workers(u32),
    /// `out` has these bytes from a place on.
    Bytes { place: usize, bytes: Vec<u8> },
    /// There is no `out`.
    NoOut,
    /// How many loads and saves failed.
    Failures { loads: usize, saves: usize },
}

impl Held {
    /// What a line says, if it says something of the store.
    pub fn of(alloc: Global, name: &str, rest: &str) -> Result<Option<Held>, RowFault> {
        match name {
            "entries" => match decimal(rest) {
                Some(entries) => Ok(Some(Held::Entries(entries as usize))),
                None => Err(RowFault::Shape("no number of entries")),
            },
            "workers" => match decimal(rest) {
                Some(workers) => Ok(Some(Held::Workers(workers))),
                None => Err(RowFault::Shape("no number of workers")),
            },
            "holds" => Ok(Some(bytes_at(alloc, rest)?)),
            "unsaved" if rest.is_empty() => Ok(Some(Held::NoOut)),
            "failures" => failures(rest),
            _ => Ok(None),
        }
    }

    /// Does the store hold this?
    pub fn is_met(&self, alloc: Global, store: &mut MemStore) -> Result<bool, RowFault> {
        match self {
            Held::Entries(entries) => match loaded(alloc, store, "journal")? {
                Some(journal) => Ok(*entries > 0 && journal.len() == entries_length(*entries)),
                None => Ok(*entries == 0),
            },
            Held::Workers(workers) => match loaded(alloc, store, "journal")? {
                Some(journal) => are_of_workers(alloc, &journal, *workers),
                None => Ok(false),
            },
            Held::Bytes { place, bytes } => match loaded(alloc, store, "out")? {
                Some(out) => Ok(has_bytes(&out, *place, bytes)),
                None => Ok(false),
            },
            Held::NoOut => Ok(loaded(alloc, store, "out")?.is_none()),
            Held::Failures { loads, saves } => {
                Ok(store.failed_loads().len() == *loads && store.failed_saves().len() == *saves)
            }
        }
    }
}

/// How long a journal with a given number of entries is.
fn entries_length(entries: usize) -> usize {
    entries.saturating_mul(8).saturating_add(20)
}

/// Is each entry of a journal of a worker from 1 to this number?
fn are_of_workers(alloc: Global, journal: &[u8], workers: u32) -> Result<bool, RowFault> {
    match read_journal(alloc, journal) {
        Ok(journal) => Ok(
            journal.entries.iter().all(|entry| entry.worker > 0
                && u32::from(entry.worker) <= workers),
        ),
        Err(JournalFault::Memory) => Err(RowFault::Memory),
        Err(_) => Ok(false),
    }
}

/// Has a file these bytes from a place on?
fn has_bytes(file: &[u8], place: usize, bytes: &[u8]) -> bool {
    file.get(place..place.saturating_add(bytes.len())) == Some(bytes)
}

/// A place, and the bytes there.
fn bytes_at(alloc: Global, rest: &str) -> Result<Held, RowFault> {
    let Some((place, digits)) = number(rest) else {
        return Err(RowFault::Shape("no place"));
    };
    let bytes = bytes_of(alloc, digits)?;
    Ok(Held::Bytes {
        place: place as usize,
        bytes,
    })
}

/// The numbers of loads and of saves that failed.
fn failures(rest: &str) -> Result<Option<Held>, RowFault> {
    let (loads, saves) = word(rest);
    match (decimal(loads), decimal(saves)) {
        (Some(loads), Some(saves)) => Ok(Some(Held::Failures {
            loads: loads as usize,
            saves: saves as usize,
        })),
        _ => Err(RowFault::Shape("no numbers of failures")),
    }
}
