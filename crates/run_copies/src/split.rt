//! A MOV of an immediate in two: a MOV of less, and a LEA that adds the rest.

ghost use Rattle.std.specs.Prelude.{◌≡◌, ◌≤◌, ◌+◌, ◌-◌, ◌%◌, ◌^◌, ◌++◌, IfOk, OnOk, is_some};
ghost use Rattle.std.specs.Prelude.{length};
ghost use Rattle.std.specs.Int.{w32, w64, cast_signed, cast_unsigned};
ghost use Rattle.erim_defs.specs.Rewriting.Copies.{adding, is_quiet, less, moved_to, moved_width};
ghost use Rattle.erim_defs.specs.Rewriting.Copies.{split, split_by};
ghost use Rattle.erim_defs.specs.Encoding.Canonical.{register_number};
ghost use Rattle.run_copies.specs.Spelling.{split_bytes};

use crate::encoded::push_canonical;
use crate::offset::near_number;
use erim_defs::{Base, Insn, Mem, Place, Src, Width};
use sequence_scan::next_sequence;
use std::alloc::AllocError;

/// A number of 4 bytes less d, signed.
fn less_of_four(d: u8, z: i32) -> i32
    ensures { result ≡ cast_signed w32 ((cast_unsigned w32 z + (2 ^ 32 - d)) % 2 ^ 32) }
{
    z.cast_unsigned().wrapping_sub(u32::from(d)).cast_signed()
}

/// A number of 8 bytes less d, signed.
fn less_of_eight(d: u8, z: i32) -> i64
    ensures { result ≡ cast_signed w64 ((cast_unsigned w64 z + (2 ^ 64 - d)) % 2 ^ 64) }
{
    i64::from(z)
        .cast_unsigned()
        .wrapping_sub(u64::from(d))
        .cast_signed()
}

/// The MOV with its immediate less d, where there is one.
fn less(d: u8, insn: &Insn) -> Option<Insn>
    ensures { result ≡ less d insn.now }
{
    match insn {
        Insn::MovWide { r, imm } => Some(Insn::MovWide {
            r: *r,
            imm: imm.wrapping_sub(u64::from(d)),
        }),
        Insn::Mov {
            w: Width::W4,
            dst,
            src: Src::Imm(z),
        } => Some(Insn::Mov {
            w: Width::W4,
            dst: *dst,
            src: Src::Imm(less_of_four(d, *z)),
        }),
        Insn::Mov {
            w: Width::W8,
            dst,
            src: Src::Imm(z),
        } => Some(Insn::Mov {
            w: Width::W8,
            dst: *dst,
            src: Src::Imm(near_number(less_of_eight(d, *z))?),
        }),
        _ => None,
    }
}

/// The number of a register.
#[tactic(auto, unfolding(erim_defs::specs::Encoding::Canonical::register_number))]
fn register_number(place: &Place) -> u8
    ensures { result ≡ register_number place.now }
{
    match place {
        Place::Reg(n) => *n,
        Place::High(n) => n % 4 + 4,
        Place::At(_) => 0,
    }
}

/// The register of a MOV.
fn moved_to(insn: &Insn) -> u8
    ensures { result ≡ moved_to insn.now }
{
    match insn {
        Insn::MovWide { r, .. } => *r,
        Insn::Mov { dst, .. } => register_number(dst),
        _ => 0,
    }
}

/// The width of a MOV.
fn moved_width(insn: &Insn) -> Width
    ensures { result ≡ moved_width insn.now }
{
    match insn {
        Insn::Mov { w, .. } => *w,
        _ => Width::W8,
    }
}

/// The LEA that adds d.
fn adding(d: u8, insn: &Insn) -> Insn
    ensures { result ≡ adding d insn.now }
{
    let r = moved_to(insn);
    Insn::Lea {
        w: moved_width(insn),
        r,
        m: Mem {
            base: Base::Reg(r),
            index: None,
            scale: 0,
            disp: i32::from(d),
        },
    }
}

/// Does no sequence occur in bytes by themselves?
#[tactic(auto, using(crate::proofs::SplitLemmas::quiet_from))]
fn is_quiet(bytes: &[u8]) -> bool
    requires { length bytes.now ≤ 30 }
    ensures { result ≡ is_quiet bytes.now }
{
    next_sequence(bytes, 0, 0).is_none()
}

/// Puts MOV and LEA by d after other bytes, where no sequence occurs in them.
fn push_split_by(bytes: &mut Vec<u8>, insn: &Insn, d: u8) -> Result<bool, AllocError>
    ensures fits { IfOk result (λ fits. fits ≡ is_some (split_by insn.now d)) }
    ensures bytes { OnOk result (bytes.new.items
        ≡ bytes.old.items ++ split_bytes (split_by insn.now d)) }
{
    let Some(mov) = less(d, insn) else {
        return Ok(false);
    };
    let start = bytes.len();
    push_canonical(bytes, &mov)?;
    push_canonical(bytes, &adding(d, insn))?;
    if is_quiet(&bytes[start..]) {
        return Ok(true);
    }
    bytes.truncate(start);
    Ok(false)
}

/// Puts a MOV in two after other bytes, by the least d from 1 to 127 for which no sequence occurs
/// in them.
pub fn push_split(bytes: &mut Vec<u8>, insn: &Insn) -> Result<bool, AllocError>
    ensures fits { IfOk result (λ fits. fits ≡ is_some (split insn.now)) }
    ensures bytes { OnOk result (bytes.new.items
        ≡ bytes.old.items ++ split_bytes (split insn.now)) }
{
    for d in 1..128 {
        if push_split_by(bytes, insn, d)? {
            return Ok(true);
        }
    }
    Ok(false)
}
