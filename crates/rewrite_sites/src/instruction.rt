//! An instruction as it stands in a function, and what rewriting asks of it.

ghost use Rattle.std.specs.Prelude.{◌≡◌, ◌+◌, ◌-◌, ◌<◌, ◌≤◌, ◌^◌, ◌&&◌, ◌||◌, IfSome, is_some};
ghost use Rattle.std.specs.Prelude.{slice_index, length};
ghost use Rattle.erim_defs.specs.Rewriting.Standing.{insn_end, disp_place, in_disp, in_number};
ghost use Rattle.erim_defs.specs.Rewriting.Standing.{in_part, rel_of, has_rip, target_of};
ghost use Rattle.erim_defs.specs.Rewriting.Standing.{standing, modrm_of, rip_target};
ghost use Rattle.erim_defs.specs.Encoding.Parts.{signed_value};
ghost use Rattle.erim_defs.specs.Rewriting.Sites.{is_intended, is_call, moves_number, holds_core};
ghost use Rattle.erim_defs.specs.Rewriting.Sites.{in_plain_disp, in_plain_number, in_opcode};

use erim_defs::{Found, Insn, Place, Src};
use std::marker::Model;
use x86_decode::measure;

/// An instruction: its address and its bytes, how many of them stand before its opcode, are its
/// displacement, and are the immediate or relative offset that ends it.
#[derive(Drop)]
pub struct Instruction<'a> {
    at: u64,
    bytes: &'a [u8],
    insn: Insn,
    skip: u8,
    disp: u8,
    imm: u8,
}

impl<'a> Model for Instruction<'a> {
    ghost use Rattle.std.specs.Prelude.{length, ◌+◌, ◌<◌, ◌≤◌, ◌^◌};
    ghost use Rattle.erim_defs.specs.Rewriting.Standing.{Standing};

    ghost Value = { Standing };

    ghost view = { λ i. record {
      at = i.at;
      bytes = i.bytes.now;
      insn = i.insn;
      skip = i.skip;
      disp = i.disp;
      imm = i.imm;
    } };

    // It stands in user memory, and its displacement and number are among its bytes.
    ghost invariant = { λ i. (i.at ≤ 2 ^ 47) × (0 < length i.bytes.now)
        × (length i.bytes.now ≤ 15) × (i.disp + i.imm ≤ length i.bytes.now) };
}

/// The instruction that bytes at an address begin with.
pub fn standing(at: u64, bytes: &[u8]) -> Option<Instruction<'_>>
    requires { at ≤ 2 ^ 47 }
    ensures standing { result ≡ standing at bytes.now }
    ensures place { IfSome result (λ i. i.at ≡ at) }
    ensures room { IfSome result (λ i. (0 < length i.bytes)
        × (length i.bytes ≤ length bytes.now)) }
{
    let measured = measure(bytes)?;
    Some(Instruction {
        at,
        bytes: &bytes[..measured.len as usize],
        insn: measured.insn,
        skip: measured.skip,
        disp: measured.disp,
        imm: measured.imm,
    })
}

/// Is an address among so many from a place on?
fn in_part(place: u64, len: u8, a: u64) -> bool
    requires { place < 2 ^ 48 }
    ensures { result ≡ in_part place len a }
{
    place <= a && a < place + u64::from(len)
}

/// A byte, or 0 after the last.
fn byte_or_zero(bytes: &[u8], place: usize) -> u8
    ensures { result ≡ slice_index bytes.now place }
{
    bytes.get(place).copied().unwrap_or(0)
}

/// The value of no byte, one or four, with a sign.
fn signed_value(bytes: &[u8]) -> i32
    ensures { result ≡ signed_value bytes.now }
{
    match bytes {
        [b] => i32::from(b.cast_signed()),
        [a, b, c, d] => i32::from_le_bytes([*a, *b, *c, *d]),
        _ => 0,
    }
}

/// The offset of a direct branch.
fn rel_of(insn: &Insn) -> Option<i32>
    ensures { result ≡ rel_of insn.now }
{
    match insn {
        Insn::Jcc { rel, .. } | Insn::Jmp { rel } | Insn::Call { rel } => Some(*rel),
        _ => None,
    }
}

/// Is it a MOV of an immediate into a register?
fn moves_number(insn: &Insn) -> bool
    ensures { result ≡ moves_number insn.now }
{
    match insn {
        Insn::MovWide { .. } => true,
        Insn::Mov {
            dst: Place::Reg(_) | Place::High(_),
            src: Src::Imm(_),
            ..
        } => true,
        _ => false,
    }
}

/// Is it WRPKRU or XRSTOR?
fn is_intended(insn: &Insn) -> bool
    ensures { result ≡ is_intended insn.now }
{
    matches!(insn, Insn::Wrpkru | Insn::Xrstor { .. })
}

/// Is it a call or a system call?
fn is_call(insn: &Insn) -> bool
    ensures { result ≡ is_call insn.now }
{
    matches!(
        insn,
        Insn::Call { .. } | Insn::CallTo { .. } | Insn::Syscall
    )
}

impl Instruction<'_> {
    /// Its bytes.
    pub fn bytes(&self) -> &[u8]
        ensures bytes { result.now ≡ self.now.bytes }
        ensures some { 0 < length result.now }
        ensures few { length result.now ≤ 15 }
    {
        self.bytes
    }

    /// What it is.
    pub fn insn(&self) -> Insn
        ensures { result ≡ self.now.insn }
    {
        self.insn
    }

    /// How many of its bytes stand before its displacement.
    pub fn disp_offset(&self) -> usize
        ensures offset { result ≡ disp_place self.now - self.now.at }
        ensures low { result ≤ length self.now.bytes }
    {
        self.bytes.len() - (self.imm as usize + self.disp as usize)
    }

    /// The address that a displacement from RIP names.
    pub fn rip_target(&self) -> u64
        ensures { result ≡ rip_target self.now }
    {
        let place = self.disp_offset();
        let disp = signed_value(&self.bytes[place..place + self.disp as usize]);
        self.insn_end()
            .wrapping_add(i64::from(disp).cast_unsigned())
    }

    /// Its address.
    pub fn at(&self) -> u64
        ensures at { result ≡ self.now.at }
        ensures low { result ≤ 2 ^ 47 }
    {
        self.at
    }

    /// How many bytes it has.
    pub fn len(&self) -> usize
        ensures len { result ≡ length self.now.bytes }
        ensures few { result ≤ 15 }
    {
        self.bytes.len()
    }

    /// The address after it.
    pub fn insn_end(&self) -> u64
        ensures end { result ≡ insn_end self.now }
        ensures low { result < 2 ^ 48 }
    {
        self.at + self.bytes.len() as u64
    }

    /// Is the address in its displacement?
    pub fn in_disp(&self, a: u64) -> bool
        ensures { result ≡ in_disp self.now a }
    {
        let place = self.insn_end() - (u64::from(self.imm) + u64::from(self.disp));
        in_part(place, self.disp, a)
    }

    /// Is the address in the number that ends it?
    pub fn in_number(&self, a: u64) -> bool
        ensures { result ≡ in_number self.now a }
    {
        in_part(self.insn_end() - u64::from(self.imm), self.imm, a)
    }

    /// The byte after its opcode.
    fn modrm(&self) -> u8
        ensures { result ≡ modrm_of self.now }
    {
        let skip = self.skip as usize;
        if byte_or_zero(self.bytes, skip) == 0x0F {
            byte_or_zero(self.bytes, skip + 2)
        } else {
            byte_or_zero(self.bytes, skip + 1)
        }
    }

    /// Does its displacement count from RIP?
    pub fn has_rip(&self) -> bool
        ensures { result ≡ has_rip self.now }
    {
        self.disp > 0 && self.modrm() / 64 == 0 && self.modrm() % 8 == 5
    }

    /// Is it a direct branch?
    pub fn is_branch(&self) -> bool
        ensures { result ≡ is_some (rel_of self.now.insn) }
    {
        rel_of(&self.insn).is_some()
    }

    /// Where a direct branch leads.
    pub fn target(&self) -> Option<u64>
        ensures { result ≡ target_of self.now }
    {
        let rel = rel_of(&self.insn)?;
        Some(self.insn_end().wrapping_add(i64::from(rel).cast_unsigned()))
    }

    /// Is it a MOV of an immediate into a register?
    pub fn moves_number(&self) -> bool
        ensures { result ≡ moves_number self.now.insn }
    {
        moves_number(&self.insn)
    }

    /// Is it WRPKRU or XRSTOR?
    pub fn is_intended(&self) -> bool
        ensures { result ≡ is_intended self.now.insn }
    {
        is_intended(&self.insn)
    }

    /// Is it a call or a system call?
    pub fn is_call(&self) -> bool
        ensures { result ≡ is_call self.now.insn }
    {
        is_call(&self.insn)
    }

    /// Do the first three bytes of a sequence lie in it?
    pub fn holds_core(&self, element: &Found) -> bool
        requires { element.now.at < 2 ^ 47 }
        ensures { result ≡ holds_core element.now self.now }
    {
        self.at <= element.at && element.at + 3 <= self.insn_end()
    }

    /// Do the first three bytes of a sequence lie in it, and touch a displacement without RIP?
    #[tactic(auto, unfolding(erim_defs::specs::Rewriting::Sites::addresses))]
    pub fn has_in_plain_disp(&self, element: &Found) -> bool
        requires { element.now.at < 2 ^ 47 }
        ensures { result ≡ (holds_core element.now self.now
            && in_plain_disp element.now self.now) }
    {
        let at = element.at;
        let touched = self.in_disp(at) || self.in_disp(at + 1) || self.in_disp(at + 2);
        self.holds_core(element) && touched && !self.has_rip()
    }

    /// Do they lie in it, and touch an immediate that isn't moved into a register?
    #[tactic(auto, unfolding(erim_defs::specs::Rewriting::Sites::addresses))]
    pub fn has_in_plain_number(&self, element: &Found) -> bool
        requires { element.now.at < 2 ^ 47 }
        ensures { result ≡ (holds_core element.now self.now
            && in_plain_number element.now self.now) }
    {
        let at = element.at;
        let touched = self.in_number(at) || self.in_number(at + 1) || self.in_number(at + 2);
        self.holds_core(element) && touched && !(self.is_branch() || self.moves_number())
    }

    /// Is the address in its displacement, or in the number that ends it?
    fn in_either(&self, a: u64) -> bool
        ensures { result ≡ (in_disp self.now a || in_number self.now a) }
    {
        self.in_disp(a) || self.in_number(a)
    }

    /// Do they lie in it, and touch neither of the two?
    #[tactic(auto, unfolding(erim_defs::specs::Rewriting::Sites::addresses))]
    pub fn has_in_opcode(&self, element: &Found) -> bool
        requires { element.now.at < 2 ^ 47 }
        ensures { result ≡ (holds_core element.now self.now
            && in_opcode element.now self.now) }
    {
        let at = element.at;
        let touched = self.in_either(at) || self.in_either(at + 1) || self.in_either(at + 2);
        self.holds_core(element) && !touched
    }
}
