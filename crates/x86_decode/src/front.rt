//! Reads what stands before an opcode: prefixes, F3 and REX.

ghost use Rattle.std.specs.Prelude.{◌≡◌, ◌<◌, ◌+◌, length};
ghost use Rattle.erim_defs.specs.Encoding.Grammar.{is_prefix, is_rex, rex_bits, prefix_lead};
ghost use Rattle.erim_defs.specs.Encoding.Decoding.{rex_at, f3_at, front_at};
ghost use Rattle.x86_decode.specs.Gives.{Gives};

use crate::body::{Sizes, body_at};
use erim_defs::Insn;
use erim_defs::grammar::{Lead, Rex, Stop};

/// Is this a prefix that may stand before F3 and REX?
#[tactic(auto, unfolding(erim_defs::specs::Encoding::Grammar::is_prefix))]
fn is_prefix(b: u8) -> bool
    ensures { result ≡ is_prefix b }
{
    b == 0x26 || b == 0x2E || b == 0x36 || b == 0x3E || b == 0xF0 || b == 0x66
}

/// Is this a REX byte?
#[tactic(auto, unfolding(erim_defs::specs::Encoding::Grammar::is_rex))]
fn is_rex(b: u8) -> bool
    ensures { result ≡ is_rex b }
{
    b >= 0x40 && b <= 0x4F
}

/// The bits of a REX byte.
#[tactic(auto, unfolding(erim_defs::specs::Encoding::Grammar::rex_bits))]
fn rex_bits(b: u8) -> Rex
    ensures { result ≡ rex_bits b }
{
    Rex {
        any: true,
        w: b / 8 % 2 == 1,
        r: b / 4 % 2 == 1,
        x: b / 2 % 2 == 1,
        b: b % 2 == 1,
    }
}

/// From REX on.
#[tactic(auto, unfolding(erim_defs::specs::Encoding::Decoding::rex_at, erim_defs::specs::Encoding::Grammar::with_rex))]
fn rex_at(lead: Lead, bytes: &[u8]) -> Result<(Insn, Sizes, &[u8]), Stop>
    requires { lead.skip < 200 }
    ensures { Gives (λ x. ((x.0, x.1.skip, x.1.disp, x.1.imm), x.2.now)) result (rex_at lead bytes.now) }
{
    match bytes {
        [b, rest @ ..] if is_rex(*b) => body_at(
            Lead {
                skip: lead.skip + 1,
                rex: rex_bits(*b),
                ..lead
            },
            rest,
        ),
        _ => body_at(lead, bytes),
    }
}

/// From F3 on.
#[tactic(auto, unfolding(erim_defs::specs::Encoding::Decoding::f3_at, erim_defs::specs::Encoding::Grammar::with_f3))]
fn f3_at(lead: Lead, bytes: &[u8]) -> Result<(Insn, Sizes, &[u8]), Stop>
    requires { lead.skip < 100 }
    ensures { Gives (λ x. ((x.0, x.1.skip, x.1.disp, x.1.imm), x.2.now)) result (f3_at lead bytes.now) }
{
    match bytes {
        [0xF3, rest @ ..] => rex_at(
            Lead {
                skip: lead.skip + 1,
                f3: true,
                ..lead
            },
            rest,
        ),
        _ => rex_at(lead, bytes),
    }
}

/// What stands before an opcode without F3 and REX.
#[tactic(auto, unfolding(erim_defs::specs::Encoding::Grammar::prefix_lead))]
fn prefix_lead(skip: u8, lock: bool, size_prefix: bool) -> Lead
    ensures lead { result ≡ prefix_lead skip lock size_prefix }
    ensures skip { result.skip ≡ skip }
{
    Lead {
        skip,
        lock,
        size_prefix,
        f3: false,
        rex: Rex {
            any: false,
            w: false,
            r: false,
            x: false,
            b: false,
        },
    }
}

/// The whole instruction after `skip` prefixes, its sizes, and the bytes after it.
#[tactic(auto, unfolding(erim_defs::specs::Encoding::Decoding::front_at))]
pub fn front_at(
    skip: u8,
    lock: bool,
    size_prefix: bool,
    bytes: &[u8],
) -> Result<(Insn, Sizes, &[u8]), Stop>
    requires { skip + length bytes.now < 100 }
    ensures { Gives (λ x. ((x.0, x.1.skip, x.1.disp, x.1.imm), x.2.now)) result
        (front_at skip lock size_prefix bytes.now) }
{
    match bytes {
        [b, rest @ ..] if is_prefix(*b) => front_at(
            skip + 1,
            lock || *b == 0xF0,
            size_prefix || *b == 0x66,
            rest,
        ),
        _ => f3_at(prefix_lead(skip, lock, size_prefix), bytes),
    }
}
