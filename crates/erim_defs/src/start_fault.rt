//! Why an image can't start.

ghost use Rattle.std.specs.Prelude.{◌≡◌};
ghost use Rattle.erim_defs.specs.declared.start_fault.StartFault.TheVariants.{Memory};

use crate::found::Found;
use crate::memory::NoMemory;
use std::alloc::{AllocError, AllocFailed};

/// Why an image can't start.
#[derive(Clone, Copy, PartialEq, Eq)]
pub enum StartFault {
    /// Trusted text by itself holds something unsafe, first this.
    TrustedUnsafe { found: Found },
    /// The image and its stack need more frames.
    TooFewFrames { needed: u32 },
    /// Memory gave out.
    Memory,
}

impl From<NoMemory> for StartFault {
    ghost from_gives = { λ _ fault. fault ≡ Memory };

    fn from(_refused: NoMemory) -> StartFault {
        StartFault::Memory
    }
}

impl From<AllocError> for StartFault {
    ghost from_gives = { λ _ fault. fault ≡ Memory };

    fn from(_refused: AllocError) -> StartFault {
        StartFault::Memory
    }
}

impl<T: Drop> From<AllocFailed<T>> for StartFault {
    ghost from_gives = { λ _ fault. fault ≡ Memory };

    fn from(_refused: AllocFailed<T>) -> StartFault {
        StartFault::Memory
    }
}
