//! Why an unsafe sequence can't be taken out of an image by rewriting.

/// Why an unsafe sequence can't be rewritten: the first of these that holds of it, and of the
/// region of instructions that would be moved.
#[derive(Clone, Copy, Debug, PartialEq, Eq)]
pub enum Why {
    /// One of its bytes is in trusted text.
    Trusted,
    /// One of its bytes is outside of all functions that the image lists.
    Outside,
    /// The bytes of its function don't decode up to the function's end.
    Undecoded,
    /// An instruction of the region is WRPKRU or XRSTOR.
    Intended,
    /// The region has a call or a system call, whose return address would be another.
    Call,
    /// The function ends before the region has 5 bytes and all bytes of the sequence.
    Room,
    /// A direct branch, an entry or the entry point leads into the region after its start.
    Target,
    /// Its first three bytes lie within one instruction and touch a displacement without RIP.
    Displacement,
    /// Its first three bytes lie within one instruction and touch an immediate that isn't moved
    /// into a register.
    Immediate,
    /// Its first three bytes lie within one instruction and touch no immediate, displacement or
    /// offset.
    Opcode,
}
