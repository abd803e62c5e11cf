//! What the PKRU of a thread permits (SDM volume 3A, "Protection Keys").
//!
//! `opens` and `opens_write` read the two bits of a key; `may_read` and `may_write` ask them beside
//! the rights of a page, for `page_store`, which asks them for each byte of an access. They and the
//! thread itself stand in `erim_defs`.
#![tactic(auto)]

ghost use Rattle.std.specs.Prelude.{◌≡◌, ◌<◌, ◌&&◌};
ghost use Rattle.erim_defs.specs.Machine.Access.{opens, opens_write};

use erim_defs::Rights;
pub use erim_defs::Thread;
pub use erim_defs::pkru::{opens, opens_write};

/// May a page with these rights be read?
pub fn may_read(pkru: u32, rights: &Rights) -> bool
    requires { rights.now.key < 16 }
    ensures { result ≡ (rights.now.read && opens pkru rights.now.key) }
{
    rights.read && opens(pkru, rights.key)
}

/// May a page with these rights be written? Both bits of its key have to be clear.
pub fn may_write(pkru: u32, rights: &Rights) -> bool
    requires { rights.now.key < 16 }
    ensures { result ≡ (rights.now.write && opens_write pkru rights.now.key) }
{
    rights.write && opens_write(pkru, rights.key)
}
