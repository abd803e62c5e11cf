//! Jumps: to an address, and copied with another offset.

ghost use Rattle.std.specs.Prelude.{◌≡◌, ◌<◌, ◌-◌, ◌^◌};
ghost use Rattle.erim_defs.specs.Rewriting.Copies.{Back, is_jump, jump, with_rel};
ghost use Rattle.run_copies.specs.Spelling.{fitting_bytes, near_jump};

use crate::offset::{near_number, offset_to};
use erim_defs::Insn;

/// The jump from an address to another, where one of 5 bytes reaches so far.
#[tactic(auto, unfolding(erim_defs::specs::Encoding::Canonical::canonical_encoding, erim_defs::specs::Encoding::Canonical::control_bytes, erim_defs::specs::Encoding::Canonical::opcode_alone, erim_defs::specs::Encoding::Canonical::rex_of, erim_defs::specs::Encoding::Canonical::opcode_bytes, erim_defs::specs::Encoding::Canonical::four_bytes))]
pub fn jump_bytes(at: u64, to: u64) -> Option<[u8; 5]>
    requires { at < 2 ^ 64 - 5 }
    ensures { result ≡ fitting_bytes (jump Back at to to) }
{
    let [a, b, c, d] = near_number(offset_to(at + 5, to))?.to_le_bytes();
    Some([0xE9, a, b, c, d])
}

/// Is it a jump or a conditional jump?
pub fn is_jump(insn: &Insn) -> bool
    ensures { result ≡ is_jump insn.now }
{
    matches!(insn, Insn::Jmp { .. } | Insn::Jcc { .. })
}

/// A jump with another offset.
fn with_rel(z: i32, insn: &Insn) -> Option<Insn>
    ensures { result ≡ with_rel z insn.now }
{
    match insn {
        Insn::Jmp { .. } => Some(Insn::Jmp { rel: z }),
        Insn::Jcc { c, .. } => Some(Insn::Jcc { c: *c, rel: z }),
        _ => None,
    }
}

/// A jump with another offset, where that has 32 bits.
pub fn near_jump(z: i64, insn: &Insn) -> Option<Insn>
    ensures { result ≡ near_jump z insn.now }
{
    with_rel(near_number(z)?, insn)
}
