//! Pages and their keys, and the places of user memory.

/// How many bytes a page has.
pub const PAGE_SIZE: u64 = 4096;

/// The end of user pages, 2^35.
pub const USER_END_PAGE: u64 = 0x8_0000_0000;

/// The key of pages that aren't trusted.
pub const PLAIN_KEY: u8 = 0;

/// The key of trusted data and trusted heaps.
pub const TRUSTED_KEY: u8 = 1;

/// The lowest address at which a segment may begin.
pub const LOWEST_ADDRESS: u64 = 0x10000;

/// The end of user memory, 2^47.
pub const USER_END: u64 = 0x8000_0000_0000;

/// The first page of the stack, at 0x7FFE0000.
pub const STACK_PAGE: u64 = 0x7FFE0;

/// The page after the stack's last.
pub const STACK_END_PAGE: u64 = 0x7FFF0;

/// The stack pointer at the start, 16 below the end of the stack.
pub const STACK_START: u64 = 0x7FFE_FFF0;
