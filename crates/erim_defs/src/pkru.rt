//! What a PKRU permits of a protection key (SDM volume 3A, "Protection Keys"). Key i has two bits:
//! AD, at 2i, denies every access, and WD, at 2i + 1, denies writes.

ghost use Rattle.std.specs.Prelude.{◌≡◌, ◌<◌};
ghost use Rattle.erim_defs.specs.Machine.Access.{opens, opens_write};

/// Is AD of a protection key clear? A key is below 16.
#[tactic(auto, unfolding(crate::specs::Machine::Access::opens))]
pub fn opens(pkru: u32, key: u8) -> bool
    requires { key < 16 }
    ensures { result ≡ opens pkru key }
{
    (pkru >> (2 * key as u32)) % 2 == 0
}

/// Are AD and WD of a protection key clear?
#[tactic(auto, unfolding(crate::specs::Machine::Access::opens_write))]
pub fn opens_write(pkru: u32, key: u8) -> bool
    requires { key < 16 }
    ensures { result ≡ opens_write pkru key }
{
    (pkru >> (2 * key as u32)) % 4 == 0
}
