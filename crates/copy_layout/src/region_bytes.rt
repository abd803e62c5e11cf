//! How many bytes stand at a region, and those of its jump.

ghost use Rattle.std.specs.Prelude.{◌≡◌, ◌<◌, ◌^◌, Some, map};
ghost use Rattle.erim_defs.specs.Rewriting.Layout.{region_rest};

use rewrite_sites::Region;

/// How many bytes the jump of a region has.
pub const JUMP_SIZE: u64 = 5;

/// How many bytes a region has after its jump.
pub fn region_rest(region: &Region<'_>) -> u64
    ensures rest { result ≡ region_rest region.now }
    ensures low { result < 2 ^ 48 }
{
    region
        .end()
        .saturating_sub(region.start())
        .saturating_sub(JUMP_SIZE)
}

/// The bytes of a jump, as known ones.
#[tactic(auto, using(crate::proofs::PatchLemmas::five))]
pub fn known_bytes(jump: [u8; 5]) -> [Option<u8>; 5]
    ensures { result ≡ map Some jump }
{
    [
        Some(jump[0]),
        Some(jump[1]),
        Some(jump[2]),
        Some(jump[3]),
        Some(jump[4]),
    ]
}
