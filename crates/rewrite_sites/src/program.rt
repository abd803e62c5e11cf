//! What of an image the reasons are asked of: its functions, its trusted part, its entry point.

ghost use Rattle.std.specs.Prelude.{◌≡◌, ◌+◌, ◌<◌, ◌^◌, ◌&&◌, not, nat_lt, IfOk};
ghost use Rattle.std.specs.List.{list_any};
ghost use Rattle.erim_defs.specs.Inspection.Trust.{in_text_of};
ghost use Rattle.erim_defs.specs.Rewriting.Sites.{first_of, in_function, insns_from, insns_in};
ghost use Rattle.erim_defs.specs.Rewriting.Sites.{is_whole, some_byte, targets};
ghost use Rattle.rewrite_sites.specs.Short.{IsShort};

use crate::function::Function;
use crate::instruction::Instruction;
use crate::targets::{some_between, sorted_targets};
use erim_defs::{Found, NoMemory, Trust};
use std::alloc::Global;
use std::marker::Model;

/// The functions of an image, its trusted part and its entry point, and where control may come from
/// elsewhere, by rising address. Contracts see it as the first three.
#[derive(Drop)]
pub struct Program<'a> {
    functions: &'a [Function<'a>],
    trust: &'a Trust,
    entry: u64,
    sorted: Vec<u64>,
}

impl<'a> Model for Program<'a> {
    ghost use Rattle.erim_defs.specs.Rewriting.Sites.{Program};
    ghost use Rattle.rewrite_sites.specs.Targets.{HasTargets};

    ghost Value = { Program };

    ghost view = { λ p.
        record { functions = p.functions.now; trust = p.trust.now; entry = p.entry } };

    ghost invariant = { λ p. HasTargets
        (record { functions = p.functions.now; trust = p.trust.now; entry = p.entry })
        p.sorted.items };
}

/// The instructions of the first function that has an address, from the one on that holds it.
#[tactic(auto, using(crate::proofs::FunctionLemmas::first_next, crate::proofs::FunctionLemmas::first_here, crate::proofs::FunctionLemmas::first_none))]
fn insns_at<'a>(functions: &'a [Function<'a>], a: u64) -> &'a [Instruction<'a>]
    ensures list { result.now ≡ insns_from a (insns_in (first_of (in_function a) functions.now)) }
    ensures short { IsShort result.now }
{
    for function in functions {
        if function.has(a) {
            return function.insns_from(a);
        }
    }
    &[]
}

/// Does a function decode up to its end and hold an address?
fn is_whole_at(function: &Function<'_>, a: u64) -> bool
    ensures { result ≡ (in_function a function.now && is_whole function.now) }
{
    function.has(a) && function.is_whole()
}

impl<'a> Program<'a> {
    /// The program of these.
    pub fn new<'b>(
        alloc: Global,
        functions: &'a [Function<'b>],
        trust: &'a Trust,
        entry: u64,
    ) -> Result<Program<'a>, NoMemory>
        ensures { IfOk result (λ program. program ≡ record {
          functions = functions.now;
          trust = trust.now;
          entry = entry;
        }) }
    {
        Ok(Program {
            functions,
            trust,
            entry,
            sorted: sorted_targets(alloc, functions, trust, entry)?,
        })
    }

    /// Is a byte of a sequence in trusted text?
    #[tactic(auto, using(crate::proofs::AnyLemmas::here, crate::proofs::AnyLemmas::not_here, crate::proofs::AnyLemmas::at_end))]
    pub fn is_trusted(&self, element: &Found) -> bool
        requires { element.now.at < 2 ^ 47 }
        ensures { result ≡ some_byte (in_text_of self.now.trust) element.now }
    {
        for i in 0..element.len {
            if self.trust.is_trusted(element.at + u64::from(i)) {
                return true;
            }
        }
        false
    }

    /// The instructions of the function at an address, from the one on that holds it.
    pub fn insns_from(&self, a: u64) -> &[Instruction<'_>]
        ensures list { result.now
            ≡ insns_from a (insns_in (first_of (in_function a) self.now.functions)) }
        ensures short { IsShort result.now }
    {
        insns_at(self.functions, a)
    }

    /// Is an address in a function?
    fn in_functions(&self, a: u64) -> bool
        ensures { result ≡ list_any (in_function a) self.now.functions }
    {
        self.functions.iter().any(|function| function.has(a))
    }

    /// Is a byte of a sequence outside of all functions?
    #[tactic(auto, using(crate::proofs::AnyLemmas::here, crate::proofs::AnyLemmas::not_here, crate::proofs::AnyLemmas::at_end))]
    pub fn is_outside(&self, element: &Found) -> bool
        requires { element.now.at < 2 ^ 47 }
        ensures { result ≡ some_byte (λ a. not (list_any (in_function a) self.now.functions))
            element.now }
    {
        for i in 0..element.len {
            if !self.in_functions(element.at + u64::from(i)) {
                return true;
            }
        }
        false
    }

    /// Is an address in a function that decodes up to its end?
    fn in_whole_function(&self, a: u64) -> bool
        ensures { result ≡ list_any (λ f. in_function a f && is_whole f) self.now.functions }
    {
        self.functions
            .iter()
            .any(|function| is_whole_at(function, a))
    }

    /// Does no function that decodes up to its end hold the first byte of a sequence?
    pub fn is_undecoded(&self, element: &Found) -> bool
        ensures { result ≡ not (list_any (λ f. in_function element.now.at f && is_whole f)
            self.now.functions) }
    {
        !self.in_whole_function(element.at)
    }

    /// Does a direct branch, an entry or the entry point lead between two addresses?
    pub fn is_target(&self, start: u64, end: u64) -> bool
        ensures { result ≡ list_any (λ t. nat_lt start t && nat_lt t end) (targets self.now) }
    {
        some_between(self.sorted.as_slice(), start, end)
    }
}
