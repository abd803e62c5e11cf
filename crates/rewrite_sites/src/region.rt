//! A region of instructions round unsafe sequences.

ghost use Rattle.std.specs.Prelude.{◌≡◌, ◌∷◌, [], ◌+◌, ◌-◌, ◌++◌, ◌<◌, ◌≤◌, ◌^◌, All, IfOk};
ghost use Rattle.erim_defs.specs.Rewriting.Sites.{region_at, joins, region_end, region_insns};
ghost use Rattle.erim_defs.specs.Rewriting.Sites.{region_start};
ghost use Rattle.erim_defs.specs.Rewriting.Sites.{why};

use crate::instruction::Instruction;
use crate::program::Program;
use crate::reasons::why;
use crate::stretch::{end_of, front_reaching, start_of};
use erim_defs::{Found, Why};
use std::alloc::{AllocError, Global};
use std::marker::Model;

/// A region: the instructions of its function from its first one on, those that it takes of them,
/// up to where it has to go, and the unsafe sequences that it is for. Contracts see it as the first
/// and the last.
#[derive(Drop)]
pub struct Region<'a> {
    from: &'a [Instruction<'a>],
    insns: &'a [Instruction<'a>],
    goal: u64,
    elements: Vec<Found>,
}

impl<'a> Model for Region<'a> {
    ghost use Rattle.std.specs.Prelude.{◌≡◌, ◌<◌, ◌^◌, All};
    ghost use Rattle.erim_defs.specs.Rewriting.Sites.{Region, region_goal, region_insns};
    ghost use Rattle.rewrite_sites.specs.Short.{IsShort};

    ghost Value = { Region };

    ghost view = { λ r. record { from = r.from.now; elements = r.elements.items } };

    ghost invariant = { λ r.
        (let seen : Region = record { from = r.from.now; elements = r.elements.items } in
        (r.insns.now ≡ region_insns seen) × (r.goal ≡ region_goal seen))
        × (r.goal < 2 ^ 49) × IsShort r.from.now × All (λ e. e.at < 2 ^ 47) r.elements.items };
}

impl<'a> Region<'a> {
    /// The region of an element alone.
    pub(crate) fn region_at(
        alloc: Global,
        program: &'a Program<'_>,
        element: &Found,
    ) -> Result<Region<'a>, AllocError>
        requires { element.now.at < 2 ^ 47 }
        ensures { IfOk result (λ region. region ≡ region_at program.now element.now) }
    {
        let from = program.insns_from(element.at);
        let goal = (element.at + u64::from(element.len)).max(start_of(from) + 5);
        let mut elements = Vec::new(alloc);
        elements.push(*element)?;
        Ok(Region {
            from,
            insns: front_reaching(from, goal),
            goal,
            elements,
        })
    }

    /// Does an element join it?
    pub(crate) fn joins(&self, element: &Found) -> bool
        ensures { result ≡ joins self.now element.now }
    {
        element.at < self.end()
    }

    /// The region with an element that joins it.
    #[tactic(auto, using(crate::proofs::RegionLemmas::goal_more))]
    pub(crate) fn with_element(self, element: &Found) -> Result<Region<'a>, AllocError>
        requires { element.now.at < 2 ^ 47 }
        ensures { IfOk result (λ region. region ≡ record self.entry {
          elements = self.entry.elements ++ element.now ∷ [];
        }) }
    {
        let goal = (element.at + u64::from(element.len)).max(self.goal);
        let mut elements = self.elements;
        elements.push(*element)?;
        Ok(Region {
            from: self.from,
            insns: front_reaching(self.from, goal),
            goal,
            elements,
        })
    }

    /// Why an element can't be rewritten, where this is its region.
    #[tactic(auto, unfolding(erim_defs::specs::Rewriting::Sites::why))]
    pub(crate) fn why_not(&self, program: &Program<'_>, element: &Found) -> Option<Why>
        requires { element.now.at < 2 ^ 47 }
        ensures { result ≡ why program.now self.now element.now }
    {
        why(program, self.start(), self.goal, self.insns, element)
    }

    /// Its address.
    pub fn start(&self) -> u64
        ensures start { result ≡ region_start self.now }
        ensures low { result ≤ 2 ^ 47 }
    {
        start_of(self.from)
    }

    /// The address after it.
    #[tactic(auto, using(crate::proofs::ShortLemmas::front_short))]
    pub fn end(&self) -> u64
        ensures end { result ≡ region_end self.now }
        ensures low { result < 2 ^ 48 }
        ensures behind { region_start self.now ≤ result }
        ensures near { result ≤ region_start self.now + 2 ^ 24 }
    {
        end_of(self.insns)
    }

    /// How many bytes it has.
    pub fn len(&self) -> u32
        ensures len { result ≡ region_end self.now - region_start self.now }
        ensures few { result ≤ 2 ^ 24 }
    {
        (self.end() - self.start()) as u32
    }

    /// Its instructions.
    pub fn insns(&self) -> &[Instruction<'_>]
        ensures { result.now ≡ region_insns self.now }
    {
        self.insns
    }

    /// The unsafe sequences that it is for.
    pub fn elements(&self) -> &[Found]
        ensures elements { result.now ≡ self.now.elements }
        ensures low { All (λ e. e.at < 2 ^ 47) result.now }
    {
        self.elements.as_slice()
    }
}
