//! What the inspector looks for: sequences of bytes that write PKRU.

/// Which instruction a sequence of bytes spells.
#[derive(Clone, Copy, PartialEq, Eq)]
pub enum SeqKind {
    /// WRPKRU, `0F 01 EF` (SDM volume 2).
    Wrpkru,
    /// XRSTOR, `0F AE /5` with a memory operand (SDM volume 2).
    Xrstor,
}

/// A sequence that writes PKRU, as it stands in code.
#[derive(Clone, Copy, PartialEq, Eq)]
pub struct Found {
    /// The address of its first byte.
    pub at: u64,
    /// Its number of bytes.
    pub len: u8,
    /// Which instruction it spells.
    pub kind: SeqKind,
}
