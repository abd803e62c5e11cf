//! A sink in memory, whose calls fail by their numbers.

ghost use Rattle.std.specs.Prelude.{◌≡◌, ◌<◌, ◌≤◌, ◌^◌, ◌-◌, List, [], Some, length, take, vec_len};
ghost use Rattle.std.specs.Prelude.{vec_capacity, IfOk, OnOk, OnErr};
ghost use Rattle.std.specs.Io.KnownBytes.{Appends, Keeps};
ghost use Rattle.erim_io.specs.Sink.{HasRisen};
ghost use Rattle.erim_io.specs.MemSink.{MemSinkValue, put_answer, after_put};

use crate::mem_store::{is_listed, next_call};
use crate::sink::{Failed, Sink};
use erim_defs::NoMemory;
use std::alloc::Global;
use std::marker::Model;

/// Output in memory, for tests. It takes its room at once, and the calls whose numbers it was given
/// fail.
#[derive(Drop)]
pub struct MemSink {
    buffer: Vec<u8>,
    room: usize,
    failing: Vec<u32>,
    calls: u64,
    faults: u64,
}

impl Model for MemSink {
    ghost Value = { MemSinkValue };

    ghost view = { λ s. record {
      written = s.buffer.items;
      room = s.room;
      failing = s.failing.items;
      calls = s.calls;
      faults = s.faults;
    } };

    ghost invariant = { λ s. (s.room ≤ vec_capacity s.buffer) × (vec_len s.buffer ≤ s.room) };
}

impl MemSink {
    /// A sink for a given number of bytes, of which the calls with the given numbers, counted from
    /// 0, fail.
    pub fn new(alloc: Global, failing: Vec<u32>, room: u32) -> Result<MemSink, NoMemory>
        ensures { IfOk result (λ sink. sink ≡ record {
          written = [];
          room = room;
          failing = failing.items;
          calls = 0;
          faults = 0;
        }) }
    {
        let room = room as usize;
        Ok(MemSink {
            buffer: Vec::with_capacity(alloc, room)?,
            room,
            failing,
            calls: 0,
            faults: 0,
        })
    }

    /// What was written.
    pub fn written(&self) -> &[u8]
        ensures { result.now ≡ self.now.written }
    {
        &self.buffer
    }
}

impl Sink for MemSink {
    ghost written = { λ s. Some s.written };

    ghost faults = { λ s. s.faults };

    fn put(&mut self, bytes: &[u8]) -> Result<usize, Failed>
        ensures taken { IfOk result (λ n. n ≤ length bytes.now) }
        ensures some { IfOk result (λ n. 0 < length bytes.now → 0 < n) }
        ensures appended { let old = Some self.old.written in
            IfOk result (λ n. Appends old (Some self.new.written) (take n bytes.now)) }
        ensures unwritten { OnErr result (Keeps (Some self.old.written) (Some self.new.written)) }
        ensures failed { OnErr result (HasRisen self.old.faults self.new.faults) }
        ensures stays { OnOk result (self.new.faults ≡ self.old.faults) }
        ensures counted { self.old.faults ≤ self.new.faults }

        // The answer is fixed, and so is the state.
        ensures answer { result ≡ put_answer self.old bytes.now }
        ensures state { self.new ≡ after_put self.old bytes.now }
    {
        let number = self.calls;
        self.calls = next_call(number);
        let count = bytes.len().min(self.room - self.buffer.len());
        let is_full = count == 0 && !bytes.is_empty();
        if is_listed(&self.failing, number) || is_full {
            self.faults = self.faults.saturating_add(1);
            return Err(Failed);
        }
        match self.buffer.extend_from_slice(&bytes[..count]) {
            Ok(()) => Ok(count),
            Err(_) => unreachable!(),
        }
    }
}
