//! Why bytes are no journal, and the law of saved journals.

ghost use Rattle.std.specs.Prelude.{◌≡◌};
ghost use Rattle.erim_defs.specs.Output.Journal.{OneJournal};
ghost use Rattle.erim_defs.specs.declared.journal.JournalFault.TheVariants.{Memory};

use std::alloc::{AllocError, AllocFailed};
use thiserror::Error;

/// The first fault of the bytes of a journal, in the order in which they are looked for.
#[derive(Debug, Drop, Error)]
pub enum JournalFault {
    /// The bytes end within the header or the entries; `at` is how many there are.
    #[error("the journal ends too early, at {at}")]
    Short { at: u64 },
    /// They don't begin with the mark `ERIMJNL1`.
    #[error("the mark is another")]
    Magic,
    /// The budget isn't 1 to 4,194,304.
    #[error("the budget is not 1 to 4,194,304")]
    Budget,
    /// The frames aren't 64 to 4,096.
    #[error("the frames are not 64 to 4,096")]
    Frames,
    /// There are more entries than steps of the budget.
    #[error("more entries than steps")]
    Count,
    /// Bytes stand after the last entry, from `at` on.
    #[error("bytes after the last entry, at {at}")]
    Trailing { at: u64 },
    /// The first entry with a worker above 8, a thread above 15, or a count that isn't 1 to 64.
    #[error("entry {index} is none")]
    BadEntry { index: u32 },
    /// Memory ran out.
    #[error("out of memory")]
    Memory,
}

impl From<AllocError> for JournalFault {
    ghost from_gives = { λ _ fault. fault ≡ Memory };

    fn from(_refused: AllocError) -> JournalFault {
        JournalFault::Memory
    }
}

impl<T: Drop> From<AllocFailed<T>> for JournalFault {
    ghost from_gives = { λ _ fault. fault ≡ Memory };

    fn from(_refused: AllocFailed<T>) -> JournalFault {
        JournalFault::Memory
    }
}

/// No two journals share their bytes: those of a journal determine its budget, its frames and its
/// entries.
pub fn one_journal()
    ensures { OneJournal }
{}
