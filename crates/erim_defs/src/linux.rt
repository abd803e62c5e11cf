//! Numbers of Linux on x86-64 (the man pages of section 2, and `asm/unistd_64.h`).

/// The number of write(2).
pub const SYS_WRITE: u64 = 1;

/// The number of mmap(2).
pub const SYS_MMAP: u64 = 9;

/// The number of mprotect(2).
pub const SYS_MPROTECT: u64 = 10;

/// The number of munmap(2).
pub const SYS_MUNMAP: u64 = 11;

/// The number of sched_yield(2).
pub const SYS_SCHED_YIELD: u64 = 24;

/// The number of clone(2).
pub const SYS_CLONE: u64 = 56;

/// The number of exit(2), by its thread alone.
pub const SYS_EXIT: u64 = 60;

/// The number of gettid(2).
pub const SYS_GETTID: u64 = 186;

/// The number of exit_group(2).
pub const SYS_EXIT_GROUP: u64 = 231;

/// The number of pkey_mprotect(2).
pub const SYS_PKEY_MPROTECT: u64 = 329;

/// The number of pkey_alloc(2).
pub const SYS_PKEY_ALLOC: u64 = 330;

/// The number of pkey_free(2).
pub const SYS_PKEY_FREE: u64 = 331;

/// The number of talloc, which is own.
pub const SYS_TALLOC: u64 = 1000;

/// The number of tfree, which is own.
pub const SYS_TFREE: u64 = 1001;

/// The operation isn't permitted (errno(3)).
pub const EPERM: u16 = 1;

/// The file number isn't open for this.
pub const EBADF: u16 = 9;

/// Something needed is in use.
pub const EAGAIN: u16 = 11;

/// There is no such page, or no room for one.
pub const ENOMEM: u16 = 12;

/// The buffer can't be accessed.
pub const EFAULT: u16 = 14;

/// An argument isn't valid.
pub const EINVAL: u16 = 22;

/// No room is left.
pub const ENOSPC: u16 = 28;

/// There is no such call.
pub const ENOSYS: u16 = 38;

// ---- mmap(2)

/// Pages may be read.
pub const PROT_READ: u8 = 1;

/// Pages may be written.
pub const PROT_WRITE: u8 = 2;

/// Pages may be executed.
pub const PROT_EXEC: u8 = 4;

/// MAP_PRIVATE and MAP_ANONYMOUS: zeros that no other process sees.
pub const MAP_ANYWHERE: u64 = 0x22;

/// The same with MAP_FIXED, at the address that is given.
pub const MAP_AT: u64 = 0x32;

/// The least address of a range that MAP_FIXED maps.
pub const LOWEST_FIXED: u64 = 0x10000;

/// The page from which on pages are mapped without MAP_FIXED.
pub const LOWEST_FREE_PAGE: u64 = 0x10000;

// ---- clone(2)

/// The flags of a thread: CLONE_VM, CLONE_FS, CLONE_FILES, CLONE_SIGHAND, CLONE_THREAD and
/// CLONE_SYSVSEM.
pub const CLONE_FLAGS: u64 = 0x50F00;

// ---- pkeys(7)

/// How many keys there are.
pub const KEYS: u8 = 16;

/// The key of pkey_mprotect that leaves the key of pages.
pub const ANY_KEY: u64 = 0xFFFF_FFFF;
