//! The program header of the new segment (ELF-64, "Program header").

ghost use Rattle.std.specs.Prelude.{◌≡◌, ◌+◌, ◌++◌, OnOk, length};
ghost use Rattle.erim_defs.specs.Output.LayImage.{program_header};
ghost use Rattle.erim_defs.specs.declared.elf.TheConstants.{PF_R, PF_X, PT_LOAD};

use erim_defs::elf::{PF_R, PF_X, PT_LOAD};
use erim_defs::page::PAGE_SIZE;
use image_gen::{NewHeader, push_program_header};
use std::alloc::AllocError;

/// Appends the header of a segment of code: where it stands in the file and in memory, and its
/// bytes.
pub fn push_header(
    file: &mut Vec<u8>,
    place: u64,
    vaddr: u64,
    segment: &[u8],
) -> Result<(), AllocError>
    ensures { OnOk result (file.new.items ≡ file.old.items ++ program_header (record {
      kind = PT_LOAD;
      flags = PF_R + PF_X;
      place = place;
      vaddr = vaddr;
      bytes = segment.now;
      memsz = length segment.now;
      align = 4096;
    })) }
{
    let size = segment.len() as u64;
    let header = NewHeader {
        kind: PT_LOAD,
        flags: PF_R + PF_X,
        place,
        vaddr,
        filesz: size,
        memsz: size,
        align: PAGE_SIZE,
    };
    push_program_header(file, &header)
}
