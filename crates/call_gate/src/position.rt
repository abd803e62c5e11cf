//! Where the instructions of a check begin.

ghost use Rattle.std.specs.Prelude.{◌≡◌, ◌+◌, ◌<◌, ◌≤◌, ◌^◌, ℕ, All};
ghost use Rattle.erim_defs.specs.Inspection.Gate.{position_in_check};
ghost use Rattle.erim_defs.specs.Inspection.Trust.{TrustValue};
ghost use Rattle.call_gate.specs.Starts.{starts_of};

use erim_defs::{Found, SeqKind};

/// The places in the check of a kind at which its four instructions begin.
fn starts(kind: SeqKind) -> [u64; 4]
    ensures places { (trust : TrustValue) (next : ℕ) → result ≡ starts_of trust kind next }
    ensures few { All (λ start. start < 14) result }
{
    match kind {
        SeqKind::Wrpkru => [0, 5, 7, 12],
        SeqKind::Xrstor => [0, 4, 6, 11],
    }
}

/// The number of the instruction that begins at `rip`, in the check after a sequence.
#[tactic(auto, unfolding(erim_defs::specs::Inspection::Gate::position_in_check))]
pub fn position_in_check(found: &Found, rip: u64) -> Option<u8>
    requires { found.now.at + found.now.len ≤ 2 ^ 47 }
    ensures { (trust : TrustValue) → result ≡ position_in_check trust found.now rip }
{
    let next = found.at + u64::from(found.len);
    let [compare, branch, number, leave] = starts(found.kind);
    if rip == next + compare {
        Some(0)
    } else if rip == next + branch {
        Some(1)
    } else if rip == next + number {
        Some(2)
    } else if rip == next + leave {
        Some(3)
    } else {
        None
    }
}
