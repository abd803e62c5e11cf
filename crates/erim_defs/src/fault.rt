//! Why bytes are no image that is accepted.

ghost use Rattle.std.specs.Prelude.{◌≡◌};
ghost use Rattle.erim_defs.specs.declared.fault.ImageFault.TheVariants.{Memory};

use std::alloc::{AllocError, AllocFailed};
use thiserror::Error;

/// The first fault of an image, in the order of the variants.
#[derive(Debug, Drop, Error)]
pub enum ImageFault {
    /// The bytes end within a header; `at` is how many there are.
    #[error("the file ends within a header, at {at}")]
    Short { at: u64 },
    /// The bytes don't begin with `7F 45 4C 46`.
    #[error("the magic number is another")]
    Magic,
    /// The image isn't a 64-bit, little-endian one of version 1.
    #[error("not a 64-bit little-endian image of version 1")]
    Class,
    /// It isn't an executable file (e_type).
    #[error("not an executable file")]
    FileType,
    /// It isn't for x86-64 (e_machine).
    #[error("not for x86-64")]
    Machine,
    /// Its program headers don't have 56 bytes.
    #[error("the program headers do not have 56 bytes")]
    HeaderSize,
    /// It has more than 64 program headers.
    #[error("{count} program headers")]
    TooMany { count: u32 },
    /// A header asks for dynamic linking, an interpreter or thread-local storage.
    #[error("program header {index} asks for more than a static image")]
    NotStatic { index: u32 },
    /// A segment or a note lies where it may not.
    #[error("program header {index} lies where it may not")]
    SegmentRange { index: u32 },
    /// A segment touches a page of an earlier one.
    #[error("program header {index} touches a page of an earlier one")]
    SharedPage { index: u32 },
    /// The note at a place isn't whole, isn't shaped as its kind asks, or comes a second time.
    #[error("the note at {at} has another shape")]
    NoteShape { at: u64 },
    /// A functions note has another version than 1, or a trust note another than 1 and 2.
    #[error("a note of another version")]
    NoteVersion,
    /// A record has a wrong kind, key, start or length, or overlaps with an earlier one.
    #[error("record {index} is none")]
    BadRecord { index: u32 },
    /// Trusted text lies outside of segments that are executable and not writable.
    #[error("record {index}: trusted text outside of executable segments")]
    TextNotExec { index: u32 },
    /// Trusted data lies in an executable segment or in none, or a heap in one that isn't writable.
    #[error("record {index}: trusted data in no segment that may hold it")]
    DataRange { index: u32 },
    /// An entry lies outside of trusted text.
    #[error("record {index}: an entry outside of trusted text")]
    EntryNotTrusted { index: u32 },
    /// A function has no bytes, isn't within the file part of one executable segment, or starts
    /// below the end of the one before it.
    #[error("function {index} is none")]
    BadFunction { index: u32 },
    /// The entry point lies in no page of an executable segment.
    #[error("the entry point is in no executable page")]
    EntryPoint,
    /// Memory ran out.
    #[error("out of memory")]
    Memory,
}

impl From<AllocError> for ImageFault {
    ghost from_gives = { λ _ fault. fault ≡ Memory };

    fn from(_refused: AllocError) -> ImageFault {
        ImageFault::Memory
    }
}

impl<T: Drop> From<AllocFailed<T>> for ImageFault {
    ghost from_gives = { λ _ fault. fault ≡ Memory };

    fn from(_refused: AllocFailed<T>) -> ImageFault {
        ImageFault::Memory
    }
}
