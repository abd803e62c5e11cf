//! Is a sequence safe?

ghost use Rattle.std.specs.Prelude.{◌≡◌, ◌+◌, ◌<◌, ◌≤◌, ◌^◌, ℕ, Some, length};
ghost use Rattle.erim_defs.specs.Inspection.Code.{laid_at, allows};
ghost use Rattle.erim_defs.specs.Inspection.Occurrence.{occurrence_at};
ghost use Rattle.erim_defs.specs.Inspection.Safe.{fits, opens_gate, is_safe};
ghost use Rattle.erim_defs.specs.Inspection.Check.{check_of, check_to};
ghost use Rattle.erim_defs.specs.Inspection.Trust.{TrustValue};

use erim_defs::{Found, SeqKind, Trust};

/// What has to follow an XRSTOR: `bt eax, 9`, `jae` over the rest, `mov eax, 231`, `syscall`.
const XRSTOR_CHECK: [u8; 13] = [
    0x0F, 0xBA, 0xE0, 0x09, 0x73, 0x07, 0xB8, 0xE7, 0x00, 0x00, 0x00, 0x0F, 0x05,
];

/// What has to follow a WRPKRU: `cmp eax, value`, `je` over the rest, `mov eax, 231`, `syscall`.
fn wrpkru_check(value: u32) -> [u8; 14]
    ensures { result ≡ check_to value }
{
    let [low, second, third, high] = value.to_le_bytes();
    [
        0x3D, low, second, third, high, 0x74, 0x07, 0xB8, 0xE7, 0x00, 0x00, 0x00, 0x0F, 0x05,
    ]
}

/// Is the byte at a place of the code absent, or this one?
#[tactic(auto, using(erim_defs::proofs::CodeLemmas::laid_at_place))]
fn byte_allows(code: &[u8], place: usize, byte: u8) -> bool
    ensures { (base a : ℕ) → a ≡ base + place → allows (laid_at base code.now a) byte ≡ result }
{
    match code.get(place) {
        Some(there) => *there == byte,
        None => true,
    }
}

/// Does no byte of the code contradict the check, laid at a place?
fn check_fits(code: &[u8], place: usize, check: &[u8]) -> bool
    requires { place + length check.now < 2 ^ 64 }
    ensures { (base : ℕ) → fits (laid_at base code.now) (base + place) check.now ≡ result }
{
    for (step, byte) in check.iter().enumerate() {
        if !byte_allows(code, place + step, *byte) {
            return false;
        }
    }
    true
}

/// Does no byte of the code contradict the check that has to follow a sequence, laid at a place?
#[tactic(auto, unfolding(erim_defs::specs::Inspection::Check::check_of))]
fn fits_check(code: &[u8], place: usize, kind: SeqKind, next: u64, trust: &Trust) -> bool
    requires { place + 14 < 2 ^ 64 }
    ensures { (base : ℕ) → fits (laid_at base code.now) (base + place)
        (check_of trust.now kind next) ≡ result }
{
    match kind {
        SeqKind::Wrpkru => check_fits(code, place, &wrpkru_check(trust.compared_value(next))),
        SeqKind::Xrstor => check_fits(code, place, &XRSTOR_CHECK),
    }
}

/// Is the address after a sequence an entry, where that is enough?
fn opens_gate(kind: SeqKind, next: u64, trust: &Trust) -> bool
    ensures { result ≡ opens_gate trust.now kind next }
{
    match kind {
        SeqKind::Wrpkru => !trust.strict && trust.is_entry(next),
        SeqKind::Xrstor => false,
    }
}

/// Is the sequence safe in the code that begins at `base`? Bytes past the end are absent.
pub fn is_safe(code: &[u8], base: u64, found: &Found, trust: &Trust) -> bool
    requires user { base + length code.now ≤ 2 ^ 47 }
    requires there { occurrence_at (laid_at base code.now) found.now.at ≡ Some found.now }
    ensures { result ≡ is_safe trust.now (laid_at base code.now) found.now }
{
    let behind = (found.at - base) as usize + found.len as usize;
    opens_gate(found.kind, base + behind as u64, trust)
        || fits_check(code, behind, found.kind, base + behind as u64, trust)
}
