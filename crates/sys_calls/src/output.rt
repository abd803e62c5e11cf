//! What a process wrote.

ghost use Rattle.std.specs.Prelude.{◌≡◌, ◌+◌, ◌<◌, ◌≤◌, List, [], ◌∷◌, ◌++◌, ℕ, length, IfOk};
ghost use Rattle.std.specs.Prelude.{vec_capacity, vec_len};
ghost use Rattle.erim_defs.specs.declared.limits.TheConstants.{MOST_OUTPUT};

use erim_defs::NoMemory;
use erim_defs::limits::MOST_OUTPUT;
use std::alloc::Global;
use std::marker::Model;

/// What a process wrote, at most 1,048,576 bytes. Contracts see it as its bytes.
#[derive(Drop)]
pub struct Output {
    written: Vec<u8>,
}

impl Model for Output {
    ghost Value = { List ℕ };

    ghost view = { λ output. output.written.items };

    ghost invariant = { λ output. (MOST_OUTPUT ≤ vec_capacity output.written)
        × (vec_len output.written ≤ MOST_OUTPUT) };
}

impl Output {
    /// No output yet. It takes all its memory here.
    pub fn new(alloc: Global) -> Result<Output, NoMemory>
        ensures { IfOk result (λ output. output ≡ []) }
    {
        Ok(Output {
            written: Vec::with_capacity(alloc, MOST_OUTPUT as usize)?,
        })
    }

    /// What was written.
    pub fn bytes(&self) -> &[u8]
        ensures bytes { result.now ≡ self.now }
        ensures few { length result.now ≤ MOST_OUTPUT }
    {
        self.written.as_slice()
    }

    /// How many more bytes there may be.
    pub(crate) fn room(&self) -> u64
        ensures { result + length self.now ≡ MOST_OUTPUT }
    {
        MOST_OUTPUT - self.written.len() as u64
    }

    /// Writes a byte.
    pub(crate) fn push(&mut self, byte: u8)
        requires { length self.old < MOST_OUTPUT }
        ensures { self.new ≡ self.old ++ byte ∷ [] }
    {
        let _ = self.written.push(byte);
    }
}
