//! What a process is started with.

ghost use Rattle.std.specs.Prelude.{◌≡◌, ◌<◌, ◌≤◌, IfOk};
ghost use Rattle.erim_defs.specs.declared.limits.TheConstants.{LEAST_FRAMES, MOST_FRAMES, MOST_STEPS};

use elf_image::Image;
use erim_defs::NoMemory;

/// What a process is started with: its image, how many steps it may make, and how many pages may be
/// mapped.
#[derive(Drop)]
pub struct Setup {
    pub image: Image,
    /// From 1 to 4,194,304.
    pub budget: u32,
    /// From 64 to 4,096.
    pub frames: u32,
    ghost some_steps: { 1 ≤ budget },
    ghost steps: { budget ≤ MOST_STEPS },
    ghost some_pages: { LEAST_FRAMES ≤ frames },
    ghost pages: { frames ≤ MOST_FRAMES },
}

impl Setup {
    ghost use Rattle.erim_process.specs.ProcessInvariant.{setup_of};

    /// An equal setup. Fails only where memory ran out.
    pub fn copy(&self) -> Result<Setup, NoMemory>
        ensures { IfOk result (λ copy. setup_of copy ≡ setup_of self.now) }
    {
        Ok(Setup {
            image: self.image.copy()?,
            budget: self.budget,
            frames: self.frames,
        })
    }
}
