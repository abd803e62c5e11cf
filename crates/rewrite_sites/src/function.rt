//! The functions of an image, as far as they decode.

ghost use Rattle.std.specs.Prelude.{◌≡◌, ◌+◌, ◌<◌, ◌≤◌, ◌^◌, ◌==◌, IfOk, drop, length, sum_by};
ghost use Rattle.erim_defs.specs.Rewriting.Standing.{Standing, sweep};
ghost use Rattle.erim_defs.specs.Rewriting.Sites.{in_function, insns_from, insns_of, is_whole};
ghost use Rattle.rewrite_sites.specs.Short.{IsShort};

use crate::instruction::{Instruction, standing};
use crate::stretch::from_holding;
use std::alloc::{AllocError, Global};
use std::marker::Model;

/// The bytes after the first `n`.
fn bytes_behind(bytes: &[u8], n: usize) -> &[u8]
    requires { n ≤ length bytes.now }
    ensures { result.now ≡ drop n bytes.now }
{
    bytes.split_at(n).1
}

/// The instructions of bytes from an address on, one after the other, as far as they decode, and
/// whether they are all of the bytes.
fn sweep(
    alloc: Global,
    start: u64,
    bytes: &[u8],
) -> Result<(Vec<Instruction<'_>>, bool), AllocError>
    requires { start + length bytes.now ≤ 2 ^ 47 }
    ensures list { IfOk result (λ swept. swept.0.items ≡ sweep (length bytes.now) start bytes.now) }
    ensures whole { IfOk result (λ swept. swept.1 ≡ (sum_by (λ (i : Standing). length i.bytes)
        (sweep (length bytes.now) start bytes.now) == length bytes.now)) }
{
    let mut insns = Vec::new(alloc);
    let mut at = start;
    let mut rest = bytes;
    'sweeping: while let Some(insn) = standing(at, rest) {
        let len = insn.len();
        insns.push(insn)?;
        at += len as u64;
        rest = bytes_behind(rest, len);
    }
    Ok((insns, rest.is_empty()))
}

/// A function: its address, its bytes, its instructions as far as they decode, and whether they are
/// all of its bytes. Contracts see it as its address and its bytes.
#[derive(Drop)]
pub struct Function<'a> {
    start: u64,
    bytes: &'a [u8],
    insns: Vec<Instruction<'a>>,
    whole: bool,
}

impl<'a> Model for Function<'a> {
    ghost use Rattle.std.specs.Prelude.{◌≡◌, length, ◌+◌, ◌≤◌, ◌^◌};
    ghost use Rattle.erim_defs.specs.Rewriting.Sites.{Function, insns_of, is_whole};

    ghost Value = { Function };

    ghost view = { λ f. record { start = f.start; bytes = f.bytes.now } };

    ghost invariant = { λ f.
        (let seen : Function = record { start = f.start; bytes = f.bytes.now } in
        (f.insns.items ≡ insns_of seen) × (f.whole ≡ is_whole seen))
        × (f.start + length f.bytes.now ≤ 2 ^ 47) × (length f.bytes.now ≤ 2 ^ 24) };
}

impl Function<'_> {
    /// The function of bytes at an address.
    pub fn read(alloc: Global, start: u64, bytes: &[u8]) -> Result<Function<'_>, AllocError>
        requires user { start + length bytes.now ≤ 2 ^ 47 }
        requires few { length bytes.now ≤ 2 ^ 24 }
        ensures { IfOk result (λ f. f ≡ record { start = start; bytes = bytes.now }) }
    {
        let (insns, whole) = sweep(alloc, start, bytes)?;
        Ok(Function {
            start,
            bytes,
            insns,
            whole,
        })
    }

    /// Is the address in it?
    pub fn has(&self, a: u64) -> bool
        ensures { result ≡ in_function a self.now }
    {
        self.start <= a && a < self.start + self.bytes.len() as u64
    }

    /// Its instructions, as far as they decode.
    pub fn insns(&self) -> &[Instruction<'_>]
        ensures { result.now ≡ insns_of self.now }
    {
        self.insns.as_slice()
    }

    /// Its instructions from the one on that holds an address.
    pub fn insns_from(&self, a: u64) -> &[Instruction<'_>]
        ensures list { result.now ≡ insns_from a (insns_of self.now) }
        ensures short { IsShort result.now }
    {
        from_holding(self.insns.as_slice(), a)
    }

    /// Do its bytes decode up to its end?
    pub fn is_whole(&self) -> bool
        ensures { result ≡ is_whole self.now }
    {
        self.whole
    }
}
