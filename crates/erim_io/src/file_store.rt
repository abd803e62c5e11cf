//! A store over the system's files.

ghost use Rattle.std.specs.Prelude.{◌≡◌, ◌≤◌, [], None, map, length, string_bytes, OnOk, OnErr};
ghost use Rattle.std.specs.Prelude.{IfErr, IfSome};
ghost use Rattle.std.specs.Io.KnownBytes.{Appends};
ghost use Rattle.erim_io.specs.Store.{IsTooLong};
ghost use Rattle.erim_io.specs.declared.store.SaveFault.TheVariants as saves;
ghost use Rattle.erim_io.specs.FileStore.{FileStoreValue, HasMore};

use crate::notes::{note_failed, room_to_note};
use crate::store::{LoadFault, SaveFault, Store};
use std::alloc::Global;
use std::fs::{self, OpenFile};
use std::io::{ErrorKind, Read, Write};
use std::marker::Model;
use std::rt::Files;

/// The system's files.
#[derive(Drop)]
pub struct FileStore<'a, R: Files> {
    rt: &'a R,
    alloc: Global,
    failed_loads: Vec<String>,
    failed_saves: Vec<String>,
}

impl<'a, R: Files> Model for FileStore<'a, R> {
    ghost Value = { FileStoreValue };

    ghost view = { λ s. record {
      failed_loads = map string_bytes s.failed_loads.items;
      failed_saves = map string_bytes s.failed_saves.items;
    } };
}

impl<'a, R: Files> FileStore<'a, R> {
    /// A store without faults so far.
    pub fn new(alloc: Global, rt: &'a R) -> FileStore<'a, R>
        ensures { result ≡ record { failed_loads = []; failed_saves = [] } }
    {
        FileStore {
            rt,
            alloc,
            failed_loads: Vec::new(alloc),
            failed_saves: Vec::new(alloc),
        }
    }

    /// The names of the loads that failed, in order.
    pub fn failed_loads(&self) -> &Vec<String>
        ensures { map string_bytes result.now.items ≡ self.now.failed_loads }
    {
        &self.failed_loads
    }

    /// The names of the saves that failed, in order.
    pub fn failed_saves(&self) -> &Vec<String>
        ensures { map string_bytes result.now.items ≡ self.now.failed_saves }
    {
        &self.failed_saves
    }
}

impl<'a, R: Files> Store for FileStore<'a, R> {
    ghost held = { λ _. None };

    ghost failed_loads = { λ s. s.failed_loads };

    ghost failed_saves = { λ s. s.failed_saves };

    fn load(&mut self, name: &str, limit: u64, into: &mut Vec<u8>) -> Result<(), LoadFault> {
        let note = room_to_note(self.alloc, &mut self.failed_loads, name)?;
        let outcome = read_file(self.rt, name, limit, into);
        if outcome.is_err() {
            into.clear();
        }
        let failed = matches!(outcome, Err(LoadFault::Failed));
        note_failed(&mut self.failed_loads, note, failed);
        outcome
    }

    fn save(&mut self, name: &str, bytes: &[u8]) -> Result<(), SaveFault> {
        // All the memory that the call takes is taken here, before it touches a file.
        let note = room_to_note(self.alloc, &mut self.failed_saves, name)?;
        let outcome = write_file(self.rt, name, bytes);
        note_failed(&mut self.failed_saves, note, outcome.is_err());
        outcome
    }
}

// Makes a file of the bytes, in place of the one that stands there.
fn write_file<R: Files>(rt: &R, name: &str, bytes: &[u8]) -> Result<(), SaveFault>
    ensures { IfErr result (λ fault. fault ≡ saves.Failed) }
{
    let mut file = fs::create(rt, name).map_err(|_| SaveFault::Failed)?;
    write_whole(&mut file, bytes)
}

/// Writes all of the bytes, or fails.
pub fn write_whole<F: Write>(file: &mut F, bytes: &[u8]) -> Result<(), SaveFault>
    ensures whole { OnOk result (Appends (F.contents file.old) (F.contents file.new) bytes.now) }
    ensures failed { IfErr result (λ fault. fault ≡ saves.Failed) }
{
    file.write_all(bytes).map_err(|_| SaveFault::Failed)
}

// Reads a file to its end. A file that is longer than the limit is not read.
fn read_file<R: Files>(rt: &R, name: &str, limit: u64, into: &mut Vec<u8>) -> Result<(), LoadFault>
    requires { into.old.items ≡ [] }
    ensures within { OnOk result (length into.new.items ≤ limit) }
    ensures too_large { IfErr result (IsTooLong None name.now limit) }
{
    let file = fs::open(rt, name).map_err(|_| LoadFault::Failed)?;
    let length = file.metadata().map_err(|_| LoadFault::Failed)?.len();
    if length > limit {
        return Err(LoadFault::TooLarge { length });
    }
    read_within(file, limit, into)
}

/// Reads to the end, or one byte past the limit where there are more.
pub fn read_within<F: Read + Drop>(file: F, limit: u64, into: &mut Vec<u8>) -> Result<(), LoadFault>
    requires { into.old.items ≡ [] }
    ensures whole { OnOk result (IfSome (F.remaining file) (λ bytes. into.new.items ≡ bytes)) }
    ensures more { IfErr result (HasMore (F.remaining file) limit) }
    ensures within { OnOk result (length into.new.items ≤ limit) }
    ensures too_large { IfErr result (IsTooLong None [] limit) }
{
    match file.take(limit.saturating_add(1)).read_to_end(into) {
        Ok(_) if into.as_slice().len() as u64 > limit => Err(grown(limit)),
        Ok(_) => Ok(()),
        Err(error) if error.kind() == ErrorKind::OutOfMemory => Err(LoadFault::Memory),
        Err(_) => Err(LoadFault::Failed),
    }
}

// The fault of a file that has one byte more than the limit.
fn grown(limit: u64) -> LoadFault
    ensures { IsTooLong None [] limit result }
{
    match limit.checked_add(1) {
        Some(length) => LoadFault::TooLarge { length },
        None => LoadFault::Memory, // no memory holds a given number of bytes
    }
}
