//! A store in memory, whose calls fail by their numbers.

ghost use Rattle.std.specs.Prelude.{◌≡◌, ◌≢◌, ◌<◌, ◌≤◌, List, [], Some, map, length, vec_len};
ghost use Rattle.std.specs.Prelude.{vec_capacity, string_bytes, option_copied, Ok, Err, OnOk};
ghost use Rattle.std.specs.Prelude.{OnErr, IfErr};
ghost use Rattle.erim_io.specs.Store.{Holds, IsTooLong, noted_load, noted_save, LeavesHeld};
ghost use Rattle.erim_io.specs.MemStore.{MemStoreValue, file_in, files_of, next_call, is_listed};
ghost use Rattle.erim_io.specs.MemStore.{answer_at, load_answer, save_answer, saved_files};

use crate::notes::{note_failed, room_to_note};
use crate::store::{LoadFault, SaveFault, Store};
use std::alloc::Global;
use std::marker::Model;

// Where the counter of calls stops: past each `u32`, so that no list of failing calls has it.
const CALL_LIMIT: u64 = 1 << 32;

/// Files in memory, for tests. The calls whose numbers it was given fail.
#[derive(Drop)]
pub struct MemStore {
    alloc: Global,
    files: Vec<(String, Vec<u8>)>,
    failing: Vec<u32>,
    calls: u64,
    failed_loads: Vec<String>,
    failed_saves: Vec<String>,
}

impl Model for MemStore {
    ghost Value = { MemStoreValue };

    ghost view = { λ s. record {
      files = files_of s.files.items;
      failing = s.failing.items;
      calls = s.calls;
      failed_loads = map string_bytes s.failed_loads.items;
      failed_saves = map string_bytes s.failed_saves.items;
    } };
}

impl MemStore {
    /// A store of these files, of which the calls with the given numbers, counted from 0, fail.
    pub fn new(alloc: Global, files: Vec<(String, Vec<u8>)>, failing: Vec<u32>) -> MemStore
        ensures { result ≡ record {
          files = files_of files.items;
          failing = failing.items;
          calls = 0;
          failed_loads = [];
          failed_saves = [];
        } }
    {
        MemStore {
            alloc,
            files,
            failing,
            calls: 0,
            failed_loads: Vec::new(alloc),
            failed_saves: Vec::new(alloc),
        }
    }

    /// The names of the loads that failed, in order.
    pub fn failed_loads(&self) -> &Vec<String>
        ensures { map string_bytes result.now.items ≡ self.now.failed_loads }
    {
        &self.failed_loads
    }

    /// The names of the saves that failed, in order.
    pub fn failed_saves(&self) -> &Vec<String>
        ensures { map string_bytes result.now.items ≡ self.now.failed_saves }
    {
        &self.failed_saves
    }
}

impl Store for MemStore {
    ghost held = { λ s. Some (file_in s.files) };

    ghost failed_loads = { λ s. s.failed_loads };

    ghost failed_saves = { λ s. s.failed_saves };

    fn load(&mut self, name: &str, limit: u64, into: &mut Vec<u8>) -> Result<(), LoadFault>
        requires empty { into.old.items ≡ [] }
        ensures ok { OnOk result
            (Holds (Some (file_in self.old.files)) name.now (Some into.new.items)) }
        ensures within { OnOk result (length into.new.items ≤ limit) }
        ensures too_large { IfErr result
            (IsTooLong (Some (file_in self.old.files)) name.now limit) }
        ensures refused { OnErr result (into.new.items ≡ []) }

        // The answer is fixed but for memory, and so is the state.
        ensures answer { result ≢ Err LoadFault.Memory
            → result ≡ load_answer self.old name.now limit }
        ensures state { self.new ≡ record self.old {
          calls = next_call self.old.calls;
          failed_loads = noted_load result name.now self.old.failed_loads;
        } }
    {
        let number = self.calls;
        self.calls = next_call(number);
        let note = room_to_note(self.alloc, &mut self.failed_loads, name)?;
        let outcome = if is_listed(&self.failing, number) {
            Err(LoadFault::Failed)
        } else {
            copy_file(&self.files, name, limit, into)
        };
        let failed = matches!(outcome, Err(LoadFault::Failed));
        note_failed(&mut self.failed_loads, note, failed);
        outcome
    }

    fn save(&mut self, name: &str, bytes: &[u8]) -> Result<(), SaveFault>
        ensures held { let old = Some (file_in self.old.files) in
            LeavesHeld result name.now bytes.now old (Some (file_in self.new.files)) }

        // The answer is fixed but for memory, and so is the state.
        ensures answer { result ≢ Err SaveFault.Memory → result ≡ save_answer self.old }
        ensures state { self.new ≡ record self.old {
          files = saved_files result name.now bytes.now self.old.files;
          calls = next_call self.old.calls;
          failed_saves = noted_save result name.now self.old.failed_saves;
        } }
    {
        let number = self.calls;
        self.calls = next_call(number);
        let note = room_to_note(self.alloc, &mut self.failed_saves, name)?;
        let outcome = if is_listed(&self.failing, number) {
            Err(SaveFault::Failed)
        } else {
            put_file(self.alloc, &mut self.files, name, bytes)
        };
        let failed = matches!(outcome, Err(SaveFault::Failed));
        note_failed(&mut self.failed_saves, note, failed);
        outcome
    }
}

// Puts a file before the others, so that it is the first of its name.
fn put_file(
    alloc: Global,
    files: &mut Vec<(String, Vec<u8>)>,
    name: &str,
    bytes: &[u8],
) -> Result<(), SaveFault>
    ensures answer { result ≢ Err SaveFault.Memory → result ≡ Ok tt }
    ensures files { files_of files.new.items
        ≡ saved_files result name.now bytes.now (files_of files.old.items) }
{
    let name = String::from_str(alloc, name)?;
    let bytes = Vec::from_slice(alloc, bytes)?;
    files.insert(0, (name, bytes))?;
    Ok(())
}

// The number of the next call.
pub(crate) fn next_call(number: u64) -> u64
    ensures { result ≡ next_call number }
{
    number.saturating_add(1).min(CALL_LIMIT)
}

// Is the number in the list?
pub(crate) fn is_listed(numbers: &[u32], number: u64) -> bool
    ensures { result ≡ is_listed numbers.now number }
{
    numbers.iter().any(|n| u64::from(*n) == number)
}

// The first file of a name.
fn find<'a>(files: &'a [(String, Vec<u8>)], name: &str) -> Option<&'a [u8]>
    ensures { option_copied result ≡ file_in (files_of files.now) name.now }
{
    for (held, bytes) in files {
        if held.as_str() == name {
            return Some(bytes.as_slice());
        }
    }
    None
}

// Copies the first file of a name, where it is within the limit.
fn copy_file(
    files: &[(String, Vec<u8>)],
    name: &str,
    limit: u64,
    into: &mut Vec<u8>,
) -> Result<(), LoadFault>
    requires empty { into.old.items ≡ [] }
    ensures answer { result ≢ Err LoadFault.Memory
        → result ≡ answer_at (file_in (files_of files.now) name.now) limit }
    ensures ok { OnOk result (file_in (files_of files.now) name.now ≡ Some into.new.items) }
    ensures refused { OnErr result (into.new.items ≡ []) }
{
    let bytes = find(files, name).ok_or(LoadFault::Failed)?;
    let length = bytes.len() as u64;
    if length > limit {
        return Err(LoadFault::TooLarge { length });
    }
    into.extend_from_slice(bytes)?;
    Ok(())
}
