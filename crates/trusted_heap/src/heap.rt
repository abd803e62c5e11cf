//! The trusted heap with its live blocks.

ghost use Rattle.std.specs.Prelude.{◌≡◌, ◌<◌, ◌≤◌, ◌^◌, ◌+◌, [], false, IfOk, IfErr, OnErr};
ghost use Rattle.std.specs.Prelude.{IfSome, length};
ghost use Rattle.std.specs.List.{All, list_any};
ghost use Rattle.erim_defs.specs.declared.machine.Thread.{Thread};
ghost use Rattle.erim_defs.specs.Inspection.Image.{image_heaps};
ghost use Rattle.erim_defs.specs.Machine.HeapCalls.{first_fit, meets, starts_at, talloc_result};
ghost use Rattle.erim_defs.specs.Machine.HeapCalls.{tfree_result, with_block, without_block};
ghost use Rattle.erim_defs.specs.Machine.Domains.{opens_domain};
ghost use Rattle.erim_defs.specs.Machine.State.{State, trust_of};
ghost use Rattle.trusted_heap.specs.Answers.{heap_answer};
ghost use Rattle.trusted_heap.specs.Blocks.{AreApart, EndsLow, IsWithin};

use crate::blocks::place_of;
use crate::fit::first_fit;
use erim_defs::limits::{BLOCK_UNIT, MOST_BLOCKS};
use erim_defs::linux::{EINVAL, ENOMEM, EPERM};
use erim_defs::{NoMemory, Span};
use std::alloc::Global;
use std::marker::Model;

/// The ranges of trusted heap, and the live blocks by rising address, at most 1,024.
#[derive(Drop)]
pub struct Heap {
    heaps: Vec<Span>,
    blocks: Vec<Span>,
}

impl Model for Heap {
    ghost use Rattle.trusted_heap.specs.HeapValue.{HeapValue};

    ghost Value = { HeapValue };

    ghost use Rattle.trusted_heap.specs.HeapInvariant.{AreBlocks};

    ghost view = { λ heap. record { heaps = heap.heaps.items; blocks = heap.blocks.items } };

    ghost invariant = { λ heap. AreBlocks heap };
}

impl Heap {
    /// These ranges, without a block. It takes all its memory here.
    pub fn new(alloc: Global, heaps: &[Span]) -> Result<Heap, NoMemory>
        requires { All EndsLow heaps.now }
        ensures { IfOk result (λ heap. heap ≡ record { heaps = heaps.now; blocks = [] }) }
    {
        Ok(Heap {
            heaps: Vec::from_slice(alloc, heaps)?,
            blocks: Vec::with_capacity(alloc, MOST_BLOCKS as usize)?,
        })
    }

    /// The live blocks by rising address. No two have a byte in common.
    pub fn blocks(&self) -> &[Span]
        ensures blocks { result.now ≡ self.now.blocks }
        ensures few { length result.now ≤ 1024 }
        ensures apart { AreApart 0 result.now }
        ensures within { All (IsWithin self.now.heaps) result.now }
    {
        self.blocks.as_slice()
    }

    /// The lowest unit where so many fit, if there is one.
    fn first_fit(&self, count: u64) -> Option<u64>
        requires some { 0 < count }
        requires count { count ≤ 2 ^ 60 }
        ensures first { result ≡ first_fit self.now.heaps self.now.blocks count }
        ensures low { IfSome result (λ unit. unit + count ≤ 2 ^ 43) }
    {
        first_fit(&self.heaps, &self.blocks, count)
    }

    /// Does a live block begin at this address?
    fn is_live(&self, addr: u64) -> bool
        ensures { result ≡ list_any (starts_at addr) self.now.blocks }
    {
        self.blocks.iter().any(|block| block.start == addr)
    }

    /// Makes a block live, in a range and apart from the others. There is room for it.
    fn add(&mut self, block: Span)
        requires room { length self.old.blocks < 1024 }
        requires some { 0 < block.length }
        requires within { IsWithin self.old.heaps block }
        requires free { list_any (meets block) self.old.blocks ≡ false }
        ensures { self.new ≡ record self.old { blocks = with_block block self.old.blocks } }
    {
        let place = place_of(&self.blocks, &block);
        let _ = self.blocks.insert(place, block);
    }

    /// Gives the block of this address back.
    fn remove(&mut self, addr: u64)
        ensures { self.new ≡ record self.old { blocks = without_block addr self.old.blocks } }
    {
        self.blocks.retain(|block| block.start != addr);
    }

    /// talloc: makes a block of a given number of bytes where it fits at the lowest address, and
    /// answers where it begins. `opened` is whether the caller opens domain 1. `Err` is the error
    /// number.
    pub fn talloc(&mut self, opened: bool, len: u64) -> Result<u64, u16>
        ensures answer { (s : State) (t : Thread) → image_heaps s.setup.image ≡ self.old.heaps
            → s.blocks ≡ self.old.blocks → opens_domain (trust_of s) t.pkru 1 ≡ opened
            → talloc_result s t len ≡ heap_answer s t self.new.blocks result }
        ensures heaps { self.new.heaps ≡ self.old.heaps }
        ensures kept { OnErr result (self.new.blocks ≡ self.old.blocks) }
        ensures error { IfErr result (λ error. 0 < error) }
    {
        if !opened {
            return Err(EPERM);
        }
        if len == 0 {
            return Err(EINVAL);
        }
        if self.blocks().len() as u64 >= MOST_BLOCKS {
            return Err(ENOMEM);
        }
        let count = len.div_ceil(BLOCK_UNIT);
        match self.first_fit(count) {
            Some(unit) => {
                let start = BLOCK_UNIT * unit;
                self.add(Span {
                    start,
                    length: BLOCK_UNIT * count,
                });
                Ok(start)
            }
            None => Err(ENOMEM),
        }
    }

    /// tfree: gives back the block that begins at this address. `opened` is whether the caller
    /// opens domain 1. `Err` is the error number.
    pub fn tfree(&mut self, opened: bool, addr: u64) -> Result<u64, u16>
        ensures answer { (s : State) (t : Thread) → s.blocks ≡ self.old.blocks
            → opens_domain (trust_of s) t.pkru 1 ≡ opened
            → tfree_result s t addr ≡ heap_answer s t self.new.blocks result }
        ensures heaps { self.new.heaps ≡ self.old.heaps }
        ensures kept { OnErr result (self.new.blocks ≡ self.old.blocks) }
        ensures error { IfErr result (λ error. 0 < error) }
    {
        if !opened {
            return Err(EPERM);
        }
        if !self.is_live(addr) {
            return Err(EINVAL);
        }
        self.remove(addr);
        Ok(0)
    }
}
