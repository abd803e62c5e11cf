//! Images and processes of the lines of rows.

ghost use Rattle.std.specs.Prelude.{◌<◌, ◌≤◌};

use elf_image::{Image, read_image};
use erim_process::{Process, Setup};
use std::alloc::Global;
use std::process::Abort;
use test_rows::image_bytes;

/// A page that leaves with status 0: mov edi, 0; mov eax, 231; syscall.
pub const LEAVING: &str = "page 401000 rx BF00000000B8E70000000F05";

/// The image that lines lay out.
pub fn image(rt: &impl Abort, alloc: Global, lines: &str) -> Image {
    let bytes = image_bytes(alloc, lines).ok().expect(rt, lines);
    read_image(alloc, &bytes).ok().expect(rt, lines)
}

/// The setup of an image with a number of steps and few pages.
pub fn setup(rt: &impl Abort, alloc: Global, lines: &str, budget: u32) -> Setup
    requires some { 0 < budget }
    requires few { budget ≤ 10000 }
{
    Setup {
        image: image(rt, alloc, lines),
        budget,
        frames: 64,
    }
}
