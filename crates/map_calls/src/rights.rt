//! The rights of a page that is asked anew.

ghost use Rattle.std.specs.Prelude.{◌≡◌, ◌<◌};
ghost use Rattle.erim_defs.specs.Machine.MapCalls.{asked_anew};
ghost use Rattle.erim_defs.specs.Machine.Pages.{IsSound};

use erim_defs::Rights;

/// The rights of a page that is asked anew: a published page stays so where PROT_EXEC is asked.
pub(crate) fn asked_anew(old: &Rights, asked: u8, key: u8) -> Rights
    requires asked { asked < 8 }
    requires key { key < 16 }
    ensures rights { result ≡ asked_anew asked key old.now }
    ensures sound { IsSound result }
{
    let new = Rights::unpublished_rights(asked, key);
    if old.exec && new.asks_exec() {
        new.published_rights()
    } else {
        new
    }
}
