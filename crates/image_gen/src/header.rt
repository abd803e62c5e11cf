//! The headers of an image.

ghost use Rattle.std.specs.Prelude.{◌≡◌, ◌==◌, ◌^◌, ◌<◌, ◌≤◌, ◌++◌, length, OnOk, if◌then◌else◌};
ghost use Rattle.std.specs.List.{flat_map};
ghost use Rattle.erim_defs.specs.Output.LayImage.{file_header, multiple_from, pieces};
ghost use Rattle.erim_defs.specs.Output.LayImage.{program_header};
ghost use Rattle.image_gen.specs.Parts.{header_bytes, part_values, total_bytes};

use crate::field::{multiple_from, push_halves, push_words, push_xwords};
use crate::part::Part;
use erim_defs::elf::{
    ELFCLASS64, ELFDATA2LSB, EM_X86_64, ET_EXEC, EV_CURRENT, FILE_HEADER_SIZE, NOTE_ALIGNMENT,
    PF_R, PROGRAM_HEADER_SIZE, PT_LOAD, PT_NOTE,
};
use erim_defs::page::PAGE_SIZE;
use std::alloc::AllocError;

/// What a program header says. Its p_paddr is its p_vaddr.
#[derive(Clone, Copy)]
pub struct NewHeader {
    pub kind: u32,
    pub flags: u32,
    /// The place of its bytes in the file.
    pub place: u64,
    pub vaddr: u64,
    pub filesz: u64,
    pub memsz: u64,
    pub align: u64,
}

/// Appends the file header, of 64 bytes, of an image with `count` program headers.
pub fn push_file_header(bytes: &mut Vec<u8>, count: u16, entry: u64) -> Result<(), AllocError>
    ensures { OnOk result (bytes.new.items ≡ bytes.old.items ++ file_header count entry) }
{
    bytes.extend_from_slice(&[
        0x7F,
        b'E',
        b'L',
        b'F',
        ELFCLASS64,
        ELFDATA2LSB,
        EV_CURRENT,
        0,
        0,
        0,
        0,
        0,
        0,
        0,
        0,
        0,
    ])?;
    push_halves(bytes, &[ET_EXEC, EM_X86_64])?;
    push_words(bytes, &[EV_CURRENT as u32])?;
    push_xwords(bytes, &[entry, FILE_HEADER_SIZE as u64, 0])?;
    push_words(bytes, &[0])?;
    let size = FILE_HEADER_SIZE as u16;
    push_halves(bytes, &[size, PROGRAM_HEADER_SIZE as u16, count, 0, 0, 0])
}

/// Appends a program header, of 56 bytes.
pub fn push_program_header(bytes: &mut Vec<u8>, header: &NewHeader) -> Result<(), AllocError>
    ensures { OnOk result (bytes.new.items ≡ bytes.old.items ++ header_bytes header.now) }
{
    push_words(bytes, &[header.kind, header.flags])?;
    push_xwords(
        bytes,
        &[
            header.place,
            header.vaddr,
            header.vaddr,
            header.filesz,
            header.memsz,
            header.align,
        ],
    )
}

/// The place in the file of a part's `length` bytes, after the end of all before.
pub fn part_place(end: u64, length: u64) -> u64
    requires { end < 2 ^ 63 }
    ensures { result ≡ (if length == 0 then 0 else multiple_from 4096 end) }
{
    if length == 0 {
        0
    } else {
        multiple_from(PAGE_SIZE, end)
    }
}

/// Appends the program headers of the parts, whose bytes stand after `start`, and of the notes
/// where there are any.
pub fn push_headers(
    bytes: &mut Vec<u8>,
    start: u64,
    parts: &[Part],
    notes: &[u8],
) -> Result<(), AllocError>
    requires start { start ≤ 4096 }
    requires few { length parts.now ≤ 63 }
    requires small { total_bytes parts.now ≤ 16777216 }
    ensures { OnOk result (bytes.new.items
        ≡ bytes.old.items ++ flat_map program_header
        (pieces start (part_values parts.now) notes.now)) }
{
    let mut end = start;
    for part in parts {
        let filesz = part.bytes.len() as u64;
        let place = part_place(end, filesz);
        let header = NewHeader {
            kind: PT_LOAD,
            flags: part.flags,
            place,
            vaddr: part.vaddr,
            filesz,
            memsz: part.memsz,
            align: PAGE_SIZE,
        };
        push_program_header(bytes, &header)?;
        end = end.max(place + filesz);
    }
    if notes.is_empty() {
        return Ok(());
    }
    let filesz = notes.len() as u64;
    let header = NewHeader {
        kind: PT_NOTE,
        flags: PF_R,
        place: multiple_from(NOTE_ALIGNMENT, end),
        vaddr: 0,
        filesz,
        memsz: filesz,
        align: NOTE_ALIGNMENT,
    };
    push_program_header(bytes, &header)
}
