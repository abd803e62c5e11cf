//! The rights of a page at the start.

ghost use Rattle.std.specs.Prelude.{◌≡◌, ◌<◌, ◌^◌};
ghost use Rattle.erim_defs.specs.Machine.Start.{asked_of};
ghost use Rattle.erim_process.specs.ImagePages.{page_rights};
ghost use Rattle.erim_defs.specs.Machine.Pages.{IsSound};

use elf_image::Image;
use erim_defs::linux::{PROT_EXEC, PROT_READ, PROT_WRITE};
use erim_defs::page::PAGE_SIZE;
use erim_defs::{Rights, Segment};

/// What a segment asks of its pages.
pub(super) fn asked_of(segment: &Segment) -> u8
    ensures value { result ≡ asked_of segment.now }
    ensures bound { result < 8 }
{
    let writable = if segment.is_writable() { PROT_WRITE } else { 0 };
    let executable = if segment.is_executable() {
        PROT_EXEC
    } else {
        0
    };
    PROT_READ + writable + executable
}

/// The rights of a page of the image of which these bits are asked. Trusted text is published.
pub(super) fn page_rights(image: &Image, asked: u8, page: u64) -> Rights
    requires page { page < 2 ^ 35 }
    requires asked { asked < 8 }
    ensures value { result ≡ page_rights image.now asked page }
    ensures sound { IsSound result }
{
    let rights = Rights::unpublished_rights(asked, image.page_key(page));
    if image.trust().is_trusted(PAGE_SIZE * page) {
        rights.published_rights()
    } else {
        rights
    }
}
