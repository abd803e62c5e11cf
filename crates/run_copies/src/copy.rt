//! The copy of a region at an address.

ghost use Rattle.std.specs.Prelude.{◌≡◌, ◌<◌, ◌^◌, IfOk, replicate};
ghost use Rattle.erim_defs.specs.Rewriting.Layout.{candidate, if_spelled, jump_to, piece};
ghost use Rattle.erim_defs.specs.Rewriting.Layout.{region_rest};

use crate::NOP;
use crate::jumps::jump_bytes;
use crate::parts::push_parts;
use erim_defs::NoMemory;
use rewrite_sites::Region;
use std::alloc::{AllocError, Global};
use std::marker::Model;

/// A given number of NOPs.
fn pad_bytes(alloc: Global, pad: u8) -> Result<Vec<u8>, AllocError>
    ensures { IfOk result (λ bytes. bytes.items ≡ replicate pad 0x90) }
{
    vec![in alloc; NOP; pad as usize]
}

/// The copy of a region, after some NOPs from an address on, with the jump to it. All of it can be
/// spelled. Contracts see it as the definitions' copy.
#[derive(Drop)]
pub struct RegionCopy<'a> {
    region: &'a Region<'a>,
    first: u64,
    pad: u8,
    bytes: Vec<u8>,
    jump: [u8; 5],
}

impl<'a> Model for RegionCopy<'a> {
    ghost use Rattle.std.specs.Prelude.{◌≡◌, ◌<◌, ◌^◌, true};
    ghost use Rattle.erim_defs.specs.Rewriting.Layout.{Copy, candidate, is_spelled, jump_to, piece};

    ghost Value = { Copy };

    ghost view = { λ k. candidate k.region.now k.first k.pad };

    ghost invariant = { λ k. let seen : Copy = candidate k.region.now k.first k.pad in
        (k.bytes.items ≡ piece seen) × (k.jump ≡ (jump_to seen).bytes)
        × (is_spelled seen ≡ true) × (k.first < 2 ^ 62) × (k.pad < 16) };
}

impl<'a> RegionCopy<'a> {
    /// The copy of a region after `pad` NOPs from an address on, where it can be spelled.
    pub fn spell(
        alloc: Global,
        region: &'a Region<'a>,
        first: u64,
        pad: u8,
    ) -> Result<Option<RegionCopy<'a>>, NoMemory>
        requires first { first < 2 ^ 62 }
        requires pad { pad < 16 }
        ensures { IfOk result (λ made. made ≡ if_spelled (candidate region.now first pad)) }
    {
        let mut bytes = pad_bytes(alloc, pad)?;
        if !push_parts(&mut bytes, first, region)? {
            return Ok(None);
        }
        let Some(jump) = jump_bytes(region.start(), first + u64::from(pad)) else {
            return Ok(None);
        };
        Ok(Some(RegionCopy {
            region,
            first,
            pad,
            bytes,
            jump,
        }))
    }

    /// The region.
    pub fn region(&self) -> &Region<'_>
        ensures { result.now ≡ self.now.region }
    {
        self.region
    }

    /// The NOPs and the copy.
    pub fn piece(&self) -> &[u8]
        ensures { result.now ≡ piece self.now }
    {
        self.bytes.as_slice()
    }

    /// The jump to the copy.
    pub fn jump(&self) -> [u8; 5]
        ensures { result ≡ (jump_to self.now).bytes }
    {
        self.jump
    }
}
