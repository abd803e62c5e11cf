//! The numbers of registers that the machine names (SDM volume 2, "Registers used in
//! instructions").

/// The number of a call, and its result; in its low half, PKRU for WRPKRU.
pub const RAX: u8 = 0;

/// Zero for WRPKRU; after SYSCALL, the address of the next instruction.
pub const RCX: u8 = 1;

/// Zero for WRPKRU; the third argument of a call.
pub const RDX: u8 = 2;

/// The stack pointer.
pub const RSP: u8 = 4;

/// The base of a stack frame, for LEAVE.
pub const RBP: u8 = 5;

/// The second argument of a call.
pub const RSI: u8 = 6;

/// The first argument of a call.
pub const RDI: u8 = 7;

/// The fourth argument of a call.
pub const R10: u8 = 10;

/// After SYSCALL, the flags.
pub const R11: u8 = 11;
