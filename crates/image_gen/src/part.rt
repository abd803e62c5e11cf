//! What an image is made of.

/// A part of a program, which becomes a loadable segment.
#[derive(Drop)]
pub struct Part {
    /// The address of its first byte.
    pub vaddr: u64,
    /// PF_X 1, PF_W 2 and PF_R 4, added up.
    pub flags: u32,
    /// Its bytes in the file.
    pub bytes: Vec<u8>,
    /// How many bytes it has in memory; those past the file's are zero.
    pub memsz: u64,
}

/// A record of the trust note. Its key is 1.
#[derive(Clone, Copy, PartialEq, Eq)]
pub struct Mark {
    /// 1 trusted text, 2 trusted data, 3 entry, 4 trusted heap.
    pub kind: u32,
    /// The first address.
    pub start: u64,
    /// How many bytes; 0 of an entry.
    pub length: u64,
}
