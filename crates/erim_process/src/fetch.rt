//! What stands at an address of the published code.

ghost use Rattle.std.specs.Prelude.{◌≡◌, ℕ};
ghost use Rattle.erim_defs.specs.Machine.Pages.{published_code};
ghost use Rattle.erim_defs.specs.Machine.Step.{fetch};
ghost use Rattle.erim_defs.specs.Machine.Access.{rights_in};
ghost use Rattle.erim_process.specs.Machine.{IsBounded};

use erim_defs::{Decoded, FetchOutcome};
use page_store::{Memory, Pages};
use x86_decode::decode;

/// What the published bytes from `rip` on begin with.
pub(crate) fn fetch<P: Pages>(pages: &mut P, rip: u64) -> FetchOutcome
    ensures answer { result ≡ fetch
        (published_code (rights_in (P.seen pages.old)) (P.bytes pages.old)) rip }
    ensures placed { IsBounded result rip }
    ensures seen { P.seen pages.new ≡ P.seen pages.old }
    ensures bytes { P.bytes pages.new ≡ P.bytes pages.old }
    ensures frames { P.frames pages.new ≡ P.frames pages.old }
{
    let mut into = [0; 15];
    match pages.fetch(rip, &mut into) {
        Err(_) => FetchOutcome::Wrong,
        Ok(count) => match decode(&into[..count as usize]) {
            Decoded::Insn { insn, len, skip } => FetchOutcome::Runs { insn, len, skip },
            Decoded::Undefined => FetchOutcome::Wrong,
            Decoded::Short => FetchOutcome::Need {
                addr: rip + count as u64,
            },
        },
    }
}
