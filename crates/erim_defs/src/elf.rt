//! ELF-64's numbers, under its names (ELF-64 Object File Format, "File header", "Program header"
//! and "Note section").

/// How many bytes the file header takes (e_ehsize).
pub const FILE_HEADER_SIZE: usize = 64;

// The places of the bytes of e_ident after the magic number.

/// 32 or 64 bits.
pub const EI_CLASS: usize = 4;

/// Which byte of a number is first.
pub const EI_DATA: usize = 5;

/// The version of the format.
pub const EI_VERSION: usize = 6;

/// The magic number with which e_ident begins.
pub const MAGIC: [u8; 4] = *b"\x7FELF";

/// 64 bits (EI_CLASS).
pub const ELFCLASS64: u8 = 2;

/// Low byte first (EI_DATA).
pub const ELFDATA2LSB: u8 = 1;

/// The one version (EI_VERSION, e_version).
pub const EV_CURRENT: u8 = 1;

// The places of the fields in the file header.

/// The kind of file, of 2 bytes.
pub const E_TYPE: usize = 16;

/// The processor, of 2 bytes.
pub const E_MACHINE: usize = 18;

/// The entry point, of 8 bytes.
pub const E_ENTRY: usize = 24;

/// The place of the program headers, of 8 bytes.
pub const E_PHOFF: usize = 32;

/// How many bytes a program header has, of 2 bytes.
pub const E_PHENTSIZE: usize = 54;

/// How many program headers there are, of 2 bytes.
pub const E_PHNUM: usize = 56;

/// An executable file (e_type).
pub const ET_EXEC: u16 = 2;

/// An x86-64 processor (e_machine).
pub const EM_X86_64: u16 = 62;

/// How many bytes a program header takes.
pub const PROGRAM_HEADER_SIZE: usize = 56;

// The places of the fields in a program header, of which p_type, at 0, is the first.

/// What may be done with a segment, of 4 bytes.
pub const P_FLAGS: usize = 4;

/// The place in the file, of 8 bytes.
pub const P_OFFSET: usize = 8;

/// The address, of 8 bytes.
pub const P_VADDR: usize = 16;

/// How many bytes stand in the file, of 8 bytes.
pub const P_FILESZ: usize = 32;

/// How many bytes there are in memory, of 8 bytes.
pub const P_MEMSZ: usize = 40;

/// The alignment, of 8 bytes.
pub const P_ALIGN: usize = 48;

// Kinds of program headers (p_type).

/// A loadable segment.
pub const PT_LOAD: u32 = 1;

/// Dynamic linking.
pub const PT_DYNAMIC: u32 = 2;

/// An interpreter.
pub const PT_INTERP: u32 = 3;

/// Notes.
pub const PT_NOTE: u32 = 4;

/// Thread-local storage.
pub const PT_TLS: u32 = 7;

// Bits of p_flags.

/// May be executed.
pub const PF_X: u32 = 1;

/// May be written.
pub const PF_W: u32 = 2;

/// May be read.
pub const PF_R: u32 = 4;

// Notes: namesz, descsz and type of 4 bytes each, and after them name and desc.

/// How many bytes stand before the name.
pub const NOTE_HEADER_SIZE: usize = 12;

/// The place of the desc's size.
pub const N_DESCSZ: usize = 4;

/// The place of the type.
pub const N_TYPE: usize = 8;

/// The alignment of name and desc.
pub const NOTE_ALIGNMENT: u64 = 4;

/// Notes of this p_align have another form, and are passed over.
pub const WIDE_NOTE_ALIGNMENT: u64 = 8;
