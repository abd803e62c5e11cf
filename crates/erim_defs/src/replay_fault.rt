//! What breaks a replay.

ghost use Rattle.std.specs.Prelude.{◌≡◌};
ghost use Rattle.erim_defs.specs.declared.replay_fault.ReplayFault.TheVariants.{Start};

use crate::start_fault::StartFault;

/// What breaks a replay. Entries are counted from 0.
#[derive(Clone, Copy)]
pub enum ReplayFault {
    /// The process can't start.
    Start(StartFault),
    /// A step of this entry comes after the process' end.
    PastEnd { index: u32 },
    /// One comes when the budget is spent.
    PastBudget { index: u32 },
    /// One is of a thread that isn't there, or has ended.
    NotLive { index: u32 },
    /// All steps were made, and the process could go on.
    Unfinished,
}

impl From<StartFault> for ReplayFault {
    ghost from_gives = { λ start fault. fault ≡ Start start };

    fn from(fault: StartFault) -> ReplayFault {
        ReplayFault::Start(fault)
    }
}
