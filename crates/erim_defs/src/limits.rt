//! How much an image, a run and a journal may hold, and what a run has if its words say nothing.

// ---- images

/// How many bytes the file of an image may have, 8 MiB.
pub const MOST_IMAGE_BYTES: u64 = 0x80_0000;

/// How many program headers.
pub const MOST_HEADERS: u32 = 64;

/// How many records in the trust note.
pub const MOST_RECORDS: u32 = 256;

/// How many functions in the functions note.
pub const MOST_FUNCTIONS: u32 = 4096;

/// How many pages in all segments, shared ones counted for each.
pub const MOST_PAGES: u64 = 4080;

/// How many bytes the segment of copies that rewriting adds may have.
pub const MOST_COPIED: u64 = 0x1_0000;

// ---- runs

/// How many steps the budget of a run may have.
pub const MOST_STEPS: u32 = 4_194_304;

/// How few frames a run may have.
pub const LEAST_FRAMES: u32 = 64;

/// How many.
pub const MOST_FRAMES: u32 = 4096;

/// How many workers.
pub const MOST_WORKERS: u8 = 8;

/// How many threads a process may make, the first and ended ones among them.
pub const MOST_THREADS: u8 = 16;

/// How many bytes of output, 1 MiB.
pub const MOST_OUTPUT: u64 = 0x10_0000;

/// How many blocks of the trusted heap may be live.
pub const MOST_BLOCKS: u64 = 1024;

/// The unit of blocks of the trusted heap, in bytes.
pub const BLOCK_UNIT: u64 = 16;

/// How many steps a time slice has where `run` and `soak` step the threads in turn.
pub const QUANTUM: u32 = 64;

/// The workers of a run whose words give none.
pub const USUAL_WORKERS: u8 = 4;

/// The steps.
pub const USUAL_STEPS: u32 = 1_000_000;

/// The frames.
pub const USUAL_FRAMES: u32 = 1024;

// ---- journals

/// How many bytes a journal may have: 20, and 8 for each entry.
pub const MOST_JOURNAL_BYTES: u64 = 33_554_452;

/// How many steps an entry may stand for.
pub const MOST_COUNT: u32 = 64;
