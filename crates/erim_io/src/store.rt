//! Files by name.

ghost use Rattle.std.specs.Prelude.{◌≡◌, ℕ, ◌≤◌, List, [], Option, Some, length, OnOk, OnErr};
ghost use Rattle.std.specs.Prelude.{IfErr};
ghost use Rattle.erim_io.specs.declared.store.LoadFault.TheVariants as loads;
ghost use Rattle.erim_io.specs.declared.store.SaveFault.TheVariants as saves;
ghost use Rattle.erim_io.specs.Store.{Name, Files, Holds, IsTooLong, noted_load, noted_save};
ghost use Rattle.erim_io.specs.Store.{LeavesHeld};

use std::alloc::{AllocError, AllocFailed};

/// Why a load was refused.
#[derive(Clone, Copy, Debug, PartialEq, Eq)]
pub enum LoadFault {
    /// The file isn't there, or reading it failed.
    Failed,
    /// The file has more bytes than the limit.
    TooLarge { length: u64 },
    /// Memory ran out.
    Memory,
}

impl From<AllocError> for LoadFault {
    ghost from_gives = { λ _ fault. fault ≡ loads.Memory };

    fn from(_refused: AllocError) -> LoadFault {
        LoadFault::Memory
    }
}

/// Why a save was refused.
#[derive(Clone, Copy, Debug, PartialEq, Eq)]
pub enum SaveFault {
    /// The file couldn't be written whole. What stands under its name isn't known.
    Failed,
    /// Memory ran out. Nothing was written.
    Memory,
}

impl From<AllocError> for SaveFault {
    ghost from_gives = { λ _ fault. fault ≡ saves.Memory };

    fn from(_refused: AllocError) -> SaveFault {
        SaveFault::Memory
    }
}

impl<T: Drop> From<AllocFailed<T>> for SaveFault {
    ghost from_gives = { λ _ fault. fault ≡ saves.Memory };

    fn from(_refused: AllocFailed<T>) -> SaveFault {
        SaveFault::Memory
    }
}

/// Files by name. A load or a save that fails is noted. `held` is what the store says of its files.
pub trait Store {
    // What is held under each name, where the store says it.
    ghost held: { Self → Option Files };

    // The names of the failed loads, in order.
    ghost failed_loads: { Self → List Name };

    // The names of the failed saves, in order.
    ghost failed_saves: { Self → List Name };

    /// Appends the bytes of a file of at most `limit` bytes to `into`, which is empty.
    fn load(&mut self, name: &str, limit: u64, into: &mut Vec<u8>) -> Result<(), LoadFault>
        requires empty { into.old.items ≡ [] }
        ensures ok { OnOk result (Holds (held self.old) name.now (Some into.new.items)) }
        ensures within { OnOk result (length into.new.items ≤ limit) }
        ensures too_large { IfErr result (IsTooLong (held self.old) name.now limit) }
        ensures refused { OnErr result (into.new.items ≡ []) }

        // What is held stays, and the name of a failed load, and no other, is noted.
        ensures kept { held self.new ≡ held self.old }
        ensures loads { failed_loads self.new ≡ noted_load result name.now (failed_loads self.old) }
        ensures saves { failed_saves self.new ≡ failed_saves self.old };

    /// Holds the bytes under the name, in place of what it held there.
    fn save(&mut self, name: &str, bytes: &[u8]) -> Result<(), SaveFault>
        ensures held { LeavesHeld result name.now bytes.now (held self.old) (held self.new) }

        // The name of a failed save, and no other, is noted.
        ensures loads { failed_loads self.new ≡ failed_loads self.old }
        ensures saves { failed_saves self.new
            ≡ noted_save result name.now (failed_saves self.old) };
}
