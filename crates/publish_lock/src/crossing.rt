//! That a seat may be given to another thread, and the process behind its lock be shared by threads.

use crate::ledgers::Crew;
use crate::seats::Seat;
use crate::sharing::Shared;
use erim_process::{may_be_sent, may_be_shared};
use std::sync::ledger::Ledger;

/// The first is there for seats, and both for what is shared.
pub fn seats_cross<
    L1: Ledger + Send + Sync,
    L2: Ledger + Send + Sync,
    L3: Ledger + Send + Sync,
    L4: Ledger + Send + Sync,
    L5: Ledger + Send + Sync,
    L6: Ledger + Send + Sync,
    L7: Ledger + Send + Sync,
    L8: Ledger + Send + Sync,
    O: Crew + Send + Sync,
>() {
    may_be_sent::<Seat<L1, L2, L3, L4, L5, L6, L7, L8, O>>();
    may_be_sent::<Shared<L1, L2, L3, L4, L5, L6, L7, L8, O>>();
    may_be_shared::<Shared<L1, L2, L3, L4, L5, L6, L7, L8, O>>();
}
