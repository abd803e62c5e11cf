//! The two notes that an image may have, as their numbers: the trust note and the functions note.
//! Own.

/// The version that both notes begin with, of 4 bytes; a count of 4 bytes follows.
pub const NOTE_VERSION: u32 = 1;

/// The version of a trust note that has several domains.
pub const DOMAINS_VERSION: u32 = 2;

/// The place of the count in the desc.
pub const NOTE_COUNT: usize = 4;

/// How many bytes version and count take. The items stand after them.
pub const NOTE_ITEMS: u64 = 8;

/// The type of the trust note, of the name `ERIM`.
pub const TRUST_NOTE: u32 = 1;

/// How many bytes a record of the trust note takes: kind and key of 4 bytes each, start and length
/// of 8.
pub const RECORD_SIZE: usize = 24;

/// The type of the functions note, of the name `ERIMF`.
pub const FUNCTIONS_NOTE: u32 = 2;

/// How many bytes a function takes: start and length of 8 bytes each.
pub const FUNCTION_SIZE: usize = 16;

/// The place of the length in a function, of which the start, at 0, is the first field.
pub const FUNCTION_LENGTH: usize = 8;

// The places of the fields in a record, of which the kind, at 0, is the first.

/// The protection key, of 4 bytes.
pub const RECORD_KEY: usize = 4;

/// The first address, of 8 bytes.
pub const RECORD_START: usize = 8;

/// How many bytes, of 8 bytes.
pub const RECORD_LENGTH: usize = 16;

// Kinds of records.

/// Trusted text.
pub const TRUSTED_TEXT: u32 = 1;

/// Trusted data.
pub const TRUSTED_DATA: u32 = 2;

/// An entry of trusted text, without a length.
pub const TRUSTED_ENTRY: u32 = 3;

/// A trusted heap.
pub const TRUSTED_HEAP: u32 = 4;

/// Its key is an integrity domain.
pub const INTEGRITY_DOMAIN: u32 = 5;

/// The highest key that may be a domain.
pub const MOST_DOMAINS: u32 = 4;
