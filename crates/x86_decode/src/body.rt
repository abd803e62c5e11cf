//! Reads an instruction from its opcode on. Each part is what its definition over lists gives.

ghost use Rattle.std.specs.Prelude.{◌≡◌, ◌<◌, ◌≤◌, IfSome};
ghost use Rattle.erim_defs.specs.Encoding.OpcodeTable.{table_lines, lookup};
ghost use Rattle.erim_defs.specs.Encoding.Grammar.{admits, fields_of};
ghost use Rattle.erim_defs.specs.Encoding.Decoding.{row_at, modrm_follows, sooner_stop};
ghost use Rattle.erim_defs.specs.Encoding.Decoding.{operand_len, stop_of, modrm_stop};
ghost use Rattle.erim_defs.specs.Encoding.Decoding.{without_modrm_at, after_modrm_at, modrm_at};
ghost use Rattle.erim_defs.specs.Encoding.Decoding.{tail_at, least_body, least_second, body_at};
ghost use Rattle.x86_decode.specs.Gives.{Gives};

use crate::cursor::{byte_at, chunk_at};
use crate::forms::insn_of;
use crate::opcode_map::{one_byte_has_modrm, one_byte_row, two_byte_has_modrm, two_byte_row};
use crate::operand::{disp_size, has_sib, operand_at};
use erim_defs::grammar::{Fields, Lead, Row, Stop};
use erim_defs::{Insn, Place};

/// The sizes of what stands before an instruction's opcode, of its displacement, and of its
/// immediate or relative offset.
#[derive(Clone, Copy)]
pub struct Sizes {
    pub skip: u8,
    pub disp: u8,
    pub imm: u8,
}

/// May this stand before the row?
#[tactic(auto, unfolding(erim_defs::specs::Encoding::Grammar::admits))]
fn admits(lead: Lead, row: Row, m: u8) -> bool
    ensures { result ≡ admits lead row m }
{
    (!lead.lock || row.locks && m < 192)
        && (!lead.size_prefix || row.size_prefix)
        && (!lead.rex.b || !row.low)
}

/// The row of the table at an opcode and the byte after it.
fn lookup(lead: Lead, escape: bool, op: u8, m: u8) -> Option<Row>
    ensures row { result ≡ lookup table_lines escape lead.f3 lead.rex.w op m }
    ensures small { IfSome result (λ r. r.imm ≤ 8) }
{
    if escape {
        two_byte_row(lead.f3, op, m)
    } else {
        one_byte_row(lead.f3, lead.rex.w, op, m)
    }
}

/// The same, where the row admits what stands before the opcode.
#[tactic(auto, unfolding(erim_defs::specs::Encoding::Decoding::row_at))]
fn row_at(lead: Lead, escape: bool, op: u8, m: u8) -> Option<Row>
    ensures row { result ≡ row_at lead escape op m }
    ensures small { IfSome result (λ r. r.imm ≤ 8) }
{
    match lookup(lead, escape, op, m) {
        Some(row) if admits(lead, row, m) => Some(row),
        _ => None,
    }
}

/// Does a ModRM byte stand after the opcode?
#[tactic(auto, unfolding(erim_defs::specs::Encoding::Decoding::modrm_follows))]
fn modrm_follows(escape: bool, op: u8) -> bool
    ensures { result ≡ modrm_follows escape op }
{
    if escape {
        two_byte_has_modrm(op)
    } else {
        one_byte_has_modrm(op)
    }
}

/// The stop that asks for fewer bytes.
#[tactic(auto, unfolding(erim_defs::specs::Encoding::Decoding::sooner_stop))]
fn sooner_stop(a: Stop, b: Stop) -> Stop
    ensures { result ≡ sooner_stop a b }
{
    match (a, b) {
        (Stop::Short(x), Stop::Short(y)) => Stop::Short(if x < y { x } else { y }),
        (Stop::Undefined, b) => b,
        (a, Stop::Undefined) => a,
    }
}

/// The least size of SIB and displacement.
#[tactic(auto, unfolding(erim_defs::specs::Encoding::Decoding::operand_len))]
fn operand_len(m: u8) -> u8
    ensures size { result ≡ operand_len m }
    ensures low { result < 6 }
{
    if has_sib(m) {
        1 + disp_size(m, 0)
    } else {
        disp_size(m, 0)
    }
}

/// What is missing from a ModRM byte on, where it is this one.
#[tactic(auto, unfolding(erim_defs::specs::Encoding::Decoding::stop_of))]
fn stop_of(row: Option<Row>, m: u8) -> Stop
    requires { IfSome row (λ r. r.imm ≤ 8) }
    ensures { result ≡ stop_of row m }
{
    match row {
        Some(row) => Stop::Short(1 + (operand_len(m) + row.imm)),
        None => Stop::Undefined,
    }
}

/// What is missing from a ModRM byte on: the least that some byte needs.
fn modrm_stop(lead: Lead, escape: bool, op: u8) -> Stop
    ensures { result ≡ modrm_stop lead escape op }
{
    let mut stop = Stop::Undefined;
    for m in 0..256u16 {
        let m = m as u8;
        stop = sooner_stop(stop_of(row_at(lead, escape, op, m), m), stop);
    }
    stop
}

/// The fields of an encoding.
#[tactic(auto, unfolding(erim_defs::specs::Encoding::Grammar::fields_of))]
fn fields_of(lead: Lead, op: u8, m: u8, place: Place) -> Fields
    ensures { result ≡ fields_of lead op m place }
{
    Fields {
        op,
        m,
        rex: lead.rex,
        lock: lead.lock,
        place,
    }
}

/// After an opcode without ModRM.
#[tactic(auto, unfolding(erim_defs::specs::Encoding::Decoding::without_modrm_at))]
fn without_modrm_at(
    lead: Lead,
    op: u8,
    row: Option<Row>,
    bytes: &[u8],
) -> Result<(Insn, Sizes, &[u8]), Stop>
    requires { IfSome row (λ r. r.imm ≤ 8) }
    ensures { Gives (λ x. ((x.0, x.1.skip, x.1.disp, x.1.imm), x.2.now)) result
        (without_modrm_at lead op row bytes.now) }
{
    let Some(row) = row else {
        return Err(Stop::Undefined);
    };
    let (imm, rest) = chunk_at(bytes, row.imm, 0)?;
    let sizes = Sizes {
        skip: lead.skip,
        disp: 0,
        imm: row.imm,
    };
    Ok((
        insn_of(row.form, fields_of(lead, op, 0, Place::Reg(0)), imm),
        sizes,
        rest,
    ))
}

/// After a ModRM byte.
#[tactic(auto, unfolding(erim_defs::specs::Encoding::Decoding::after_modrm_at))]
fn after_modrm_at(
    lead: Lead,
    op: u8,
    m: u8,
    row: Option<Row>,
    bytes: &[u8],
) -> Result<(Insn, Sizes, &[u8]), Stop>
    requires { IfSome row (λ r. r.imm ≤ 8) }
    ensures { Gives (λ x. ((x.0, x.1.skip, x.1.disp, x.1.imm), x.2.now)) result
        (after_modrm_at lead op m row bytes.now) }
{
    let Some(row) = row else {
        return Err(Stop::Undefined);
    };
    let (place, disp, rest) = operand_at(lead.rex, m, row.imm, bytes)?;
    let (imm, rest) = chunk_at(rest, row.imm, 0)?;
    let sizes = Sizes {
        skip: lead.skip,
        disp,
        imm: row.imm,
    };
    Ok((
        insn_of(row.form, fields_of(lead, op, m, place), imm),
        sizes,
        rest,
    ))
}

/// After an opcode with ModRM.
#[tactic(auto, unfolding(erim_defs::specs::Encoding::Decoding::modrm_at))]
fn modrm_at(lead: Lead, escape: bool, op: u8, bytes: &[u8]) -> Result<(Insn, Sizes, &[u8]), Stop>
    ensures { Gives (λ x. ((x.0, x.1.skip, x.1.disp, x.1.imm), x.2.now)) result
        (modrm_at lead escape op bytes.now) }
{
    match bytes {
        [] => Err(modrm_stop(lead, escape, op)),
        [m, rest @ ..] => after_modrm_at(lead, op, *m, row_at(lead, escape, op, *m), rest),
    }
}

/// After an opcode.
#[tactic(auto, unfolding(erim_defs::specs::Encoding::Decoding::tail_at))]
fn tail_at(lead: Lead, escape: bool, op: u8, bytes: &[u8]) -> Result<(Insn, Sizes, &[u8]), Stop>
    ensures { Gives (λ x. ((x.0, x.1.skip, x.1.disp, x.1.imm), x.2.now)) result
        (tail_at lead escape op bytes.now) }
{
    if modrm_follows(escape, op) {
        modrm_at(lead, escape, op, bytes)
    } else {
        without_modrm_at(lead, op, row_at(lead, escape, op, 0), bytes)
    }
}

/// What is missing from the opcode on.
#[tactic(auto, unfolding(erim_defs::specs::Encoding::Decoding::least_body))]
fn least_body(lead: Lead) -> Stop
    ensures { result ≡ least_body lead.lock lead.size_prefix lead.f3 lead.rex.b }
{
    match (lead.lock, lead.size_prefix, lead.f3, lead.rex.b) {
        (true, false, false, _) => Stop::Short(2),
        (false, true, false, true) => Stop::Short(3),
        (false, true, false, false) => Stop::Short(1),
        (false, false, true, true) => Stop::Short(3),
        (false, false, true, false) => Stop::Short(1),
        (false, false, false, true) => Stop::Short(1),
        (false, false, false, false) => Stop::Short(1),
        _ => Stop::Undefined,
    }
}

/// What is missing after the escape opcode 0F.
#[tactic(auto, unfolding(erim_defs::specs::Encoding::Decoding::least_second))]
fn least_second(lead: Lead) -> Stop
    ensures { result ≡ least_second lead.lock lead.size_prefix lead.f3 }
{
    match (lead.lock, lead.size_prefix, lead.f3) {
        (true, false, false) => Stop::Short(2),
        (false, true, false) => Stop::Short(2),
        (false, false, true) => Stop::Short(2),
        (false, false, false) => Stop::Short(1),
        _ => Stop::Undefined,
    }
}

/// From the opcode on.
#[tactic(auto, unfolding(erim_defs::specs::Encoding::Decoding::body_at))]
pub fn body_at(lead: Lead, bytes: &[u8]) -> Result<(Insn, Sizes, &[u8]), Stop>
    ensures { Gives (λ x. ((x.0, x.1.skip, x.1.disp, x.1.imm), x.2.now)) result
        (body_at lead bytes.now) }
{
    let (op, rest) = byte_at(bytes, least_body(lead))?;
    if op == 0x0F {
        let (op, rest) = byte_at(rest, least_second(lead))?;
        tail_at(lead, true, op, rest)
    } else {
        tail_at(lead, false, op, rest)
    }
}
