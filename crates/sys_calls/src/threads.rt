//! The threads of a process.

ghost use Rattle.std.specs.Prelude.{◌≡◌, ◌<◌, ◌≤◌, List, [], ◌∷◌, ◌++◌, length, IfOk, slice_set};
ghost use Rattle.std.specs.Prelude.{vec_capacity, vec_len, nat_le};
ghost use Rattle.erim_defs.specs.declared.limits.TheConstants.{MOST_THREADS};
ghost use Rattle.erim_defs.specs.declared.machine.Thread.{Thread};

use erim_defs::limits::MOST_THREADS;
use erim_defs::{NoMemory, Thread};
use std::alloc::Global;
use std::marker::Model;

/// The threads of a process by their numbers, from 1 to 16, ended ones among them. Contracts see
/// them as their list.
#[derive(Drop)]
pub struct Threads {
    made: Vec<Thread>,
}

impl Model for Threads {
    ghost Value = { List Thread };

    ghost view = { λ threads. threads.made.items };

    ghost invariant = { λ threads. (16 ≤ vec_capacity threads.made)
        × (1 ≤ vec_len threads.made) × (vec_len threads.made ≤ 16) };
}

impl Threads {
    /// The first thread alone. It takes the memory of all threads here.
    pub fn new(alloc: Global, first: Thread) -> Result<Threads, NoMemory>
        ensures { IfOk result (λ threads. threads ≡ first ∷ []) }
    {
        let mut made = Vec::with_capacity(alloc, MOST_THREADS as usize)?;
        made.push(first)?;
        Ok(Threads { made })
    }

    /// The threads that were made.
    pub fn list(&self) -> &[Thread]
        ensures list { result.now ≡ self.now }
        ensures some { 1 ≤ length result.now }
        ensures few { length result.now ≤ 16 }
    {
        self.made.as_slice()
    }

    /// Makes a thread another.
    pub fn set(&mut self, thread: u8, value: Thread)
        requires { thread < length self.old }
        ensures { self.new ≡ slice_set self.old thread value }
    {
        self.made[thread as usize] = value;
    }

    /// Is there no room for another thread?
    pub(crate) fn is_full(&self) -> bool
        ensures { result ≡ nat_le MOST_THREADS (length self.now) }
    {
        self.made.len() >= MOST_THREADS as usize
    }

    /// Makes another thread. There is room for it.
    pub(crate) fn push(&mut self, thread: Thread)
        requires { length self.old < MOST_THREADS }
        ensures { self.new ≡ self.old ++ thread ∷ [] }
    {
        let _ = self.made.push(thread);
    }
}
