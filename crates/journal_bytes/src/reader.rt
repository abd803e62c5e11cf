//! Reads a journal.

ghost use Rattle.std.specs.Prelude.{◌≡◌, ◌⊎◌, Some, None, IfOk, IfSome, MatchResult};
ghost use Rattle.erim_defs.specs.Output.Journal.{IsJournal, JournalValue, journal_fault};
ghost use Rattle.erim_defs.specs.Output.Journal.{journal_of, journal_text};

use crate::entries::read_entries;
use crate::faults::journal_fault;
use crate::field::{budget_of, frames_of};
use crate::journal::Journal;
use erim_defs::JournalFault;
use std::alloc::Global;

/// Reads a journal: the one whose bytes they are, or their first fault. Only its list of entries
/// takes memory.
#[tactic(auto, using(crate::proofs::ReadLemmas::has_header, crate::proofs::ReadLemmas::has_entries, crate::proofs::ReadLemmas::is_read))]
pub fn read_journal(alloc: Global, bytes: &[u8]) -> Result<Journal, JournalFault>
    // A fault is the first one, and needs no memory.
    ensures faulty { IfSome (journal_fault bytes.now) (λ fault. result ≡ Err fault) }

    // Which journal, and which fault.
    ensures exact { MatchResult result
        (λ journal. (journal_fault bytes.now ≡ None) × (journal ≡ journal_of bytes.now))
        (λ fault. (fault ≡ JournalFault.Memory) ⊎ (journal_fault bytes.now ≡ Some fault)) }

    // What is read is a journal, and these are its bytes.
    ensures found { IfOk result (λ journal.
        IsJournal journal × (bytes.now ≡ journal_text journal)) }

    // The bytes of a journal have no fault.
    ensures only { (journal : JournalValue) → IsJournal journal
        → bytes.now ≡ journal_text journal → journal_fault bytes.now ≡ None }
{
    if let Some(fault) = journal_fault(bytes) {
        return Err(fault);
    }
    let entries = read_entries(alloc, bytes)?;
    Ok(Journal {
        budget: budget_of(bytes),
        frames: frames_of(bytes),
        entries,
    })
}
