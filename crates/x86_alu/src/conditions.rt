//! The conditions of Jcc, SETcc and CMOVcc.

ghost use Rattle.std.specs.Prelude.{◌≡◌};
ghost use Rattle.erim_defs.specs.Machine.Alu.{condition};

use erim_defs::Flags;

/// Does the condition hold? Each odd one denies the one before it.
#[tactic(auto, unfolding(erim_defs::specs::Machine::Alu::condition))]
pub fn condition(c: u8, flags: Flags) -> bool
    ensures { result ≡ condition c flags }
{
    match c {
        0 => flags.of,
        1 => !flags.of,
        2 => flags.cf,
        3 => !flags.cf,
        4 => flags.zf,
        5 => !flags.zf,
        6 => flags.cf || flags.zf,
        7 => !(flags.cf || flags.zf),
        8 => flags.sf,
        9 => !flags.sf,
        10 => flags.pf,
        11 => !flags.pf,
        12 => flags.sf != flags.of,
        13 => flags.sf == flags.of,
        14 => flags.zf || flags.sf != flags.of,
        _ => !(flags.zf || flags.sf != flags.of),
    }
}
