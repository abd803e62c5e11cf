//! The first fault of bytes, in the order of the definition.

ghost use Rattle.std.specs.Prelude.{◌≡◌, ◌≤◌, ◌&&◌, codes, length, nat_le, take};
ghost use Rattle.std.specs.Str.{bytes_eq};
ghost use Rattle.erim_defs.specs.Output.Journal.{journal_fault};

use crate::entries::entry_fault;
use crate::field::{ENTRY_SIZE, HEADER_SIZE, budget_of, count_of, frames_of};
use erim_defs::JournalFault;
use erim_defs::limits::{LEAST_FRAMES, MOST_FRAMES, MOST_STEPS};

const MARK: [u8; 8] = *b"ERIMJNL1";

fn has_mark(bytes: &[u8]) -> bool
    requires { 20 ≤ length bytes.now }
    ensures { result ≡ bytes_eq (take 8 bytes.now) (codes "ERIMJNL1") }
{
    &bytes[..MARK.len()] == MARK.as_slice()
}

fn is_within(least: u32, number: u32, most: u32) -> bool
    ensures { result ≡ (nat_le least number && nat_le number most) }
{
    least <= number && number <= most
}

/// The first fault of the bytes.
#[tactic(auto, unfolding(erim_defs::specs::Output::Journal::journal_fault))]
pub(crate) fn journal_fault(bytes: &[u8]) -> Option<JournalFault>
    ensures { result ≡ journal_fault bytes.now }
{
    let at = bytes.len() as u64;
    if bytes.len() < HEADER_SIZE {
        return Some(JournalFault::Short { at });
    }
    if !has_mark(bytes) {
        return Some(JournalFault::Magic);
    }
    let budget = budget_of(bytes);
    if !is_within(1, budget, MOST_STEPS) {
        return Some(JournalFault::Budget);
    }
    if !is_within(LEAST_FRAMES, frames_of(bytes), MOST_FRAMES) {
        return Some(JournalFault::Frames);
    }
    let count = count_of(bytes);
    if budget < count {
        return Some(JournalFault::Count);
    }
    let end = HEADER_SIZE + ENTRY_SIZE * count as usize;
    if bytes.len() < end {
        return Some(JournalFault::Short { at });
    }
    if end < bytes.len() {
        return Some(JournalFault::Trailing { at: end as u64 });
    }
    entry_fault(bytes)
}
