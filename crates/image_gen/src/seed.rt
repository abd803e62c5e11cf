//! The image of a seed.

ghost use Rattle.std.specs.Prelude.{◌≡◌, ◌≤◌, IfOk};
ghost use Rattle.erim_defs.specs.Output.GeneratedImage.{seed_image, seed_rounds, seed_threads};

use crate::generated::make_image;
use erim_defs::NoMemory;
use std::alloc::Global;

/// How many threads the image of a seed has, 1 to 8.
pub fn seed_threads(seed: u64) -> u32
    ensures threads { result ≡ seed_threads seed }
    ensures some { 1 ≤ result }
    ensures most { result ≤ 8 }
{
    1 + (seed % 8) as u32
}

/// How many rounds each of its threads goes, 1 to 1,000.
pub fn seed_rounds(seed: u64) -> u32
    ensures rounds { result ≡ seed_rounds seed }
    ensures some { 1 ≤ result }
    ensures most { result ≤ 1000 }
{
    1 + (seed / 8 % 1000) as u32
}

/// The image of a seed, of which each number has one.
#[tactic(auto, unfolding(erim_defs::specs::Output::GeneratedImage::seed_image))]
pub fn seed_image(alloc: Global, seed: u64) -> Result<Vec<u8>, NoMemory>
    ensures { IfOk result (λ bytes. bytes.items ≡ seed_image seed) }
{
    make_image(alloc, seed_threads(seed), seed_rounds(seed))
}
