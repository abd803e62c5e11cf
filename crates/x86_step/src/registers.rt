//! Registers at each width, and RIP.

ghost use Rattle.std.specs.Prelude.{◌≡◌, ◌<◌, ◌*◌, ◌+◌, ◌/◌, ◌%◌, ◌^◌, ℕ, ℤ};
ghost use Rattle.std.specs.Int.{w64, cast_unsigned};
ghost use Rattle.erim_defs.specs.Machine.Alu.{bits_of};
ghost use Rattle.erim_defs.specs.Machine.Registers.{register, with_register, low_half, onward};
ghost use Rattle.erim_defs.specs.Machine.Registers.{byte_count, low_bytes, sign_extended};
ghost use Rattle.erim_defs.specs.Machine.Registers.{jump, next_rip, operand, with_low, with_high};
ghost use Rattle.erim_defs.specs.Machine.Registers.{with_operand, with_flags};
ghost use Rattle.page_store.specs.Answers.{IsWidth};
ghost use Rattle.x86_step.specs.Fits.{Fits};

use erim_defs::{Flags, Place, Thread, Width};

/// A register, or 0 past the last.
pub fn register(thread: &Thread, n: u8) -> u64
    ensures { result ≡ register thread.now n }
{
    thread.regs.get(n as usize).copied().unwrap_or(0)
}

/// Writes a register. Past the last nothing is written.
pub fn set_register(thread: &mut Thread, n: u8, value: u64)
    ensures { thread.new ≡ with_register thread.old n value }
{
    if (n as usize) < thread.regs.len() {
        thread.regs[n as usize] = value;
    }
}

/// How many bytes a width has.
pub(crate) fn byte_count(w: Width) -> u8
    ensures count { result ≡ byte_count w }
    ensures width { IsWidth result }
{
    match w {
        Width::W1 => 1,
        Width::W4 => 4,
        Width::W8 => 8,
    }
}

/// The low 32 bits.
pub(crate) fn low_half(x: u64) -> u32
    ensures { result ≡ low_half x }
{
    (x % (1 << 32)) as u32
}

/// The low bytes of a number.
pub(crate) fn low_bytes(n: u8, x: u64) -> u64
    requires { IsWidth n }
    ensures value { result ≡ low_bytes n x }
    ensures fits { result < 2 ^ (8 * n) }
{
    if n == 8 { x } else { x % (1 << (8 * n)) }
}

/// The low part of a register.
pub(crate) fn low(w: Width, r: u8, thread: &Thread) -> u64
    ensures value { result ≡ low_bytes (byte_count w) (register thread.now r) }
    ensures fits { Fits w result }
{
    low_bytes(byte_count(w), register(thread, r))
}

/// What a register holds as an operand of `n` bytes: its low bytes, or its second byte.
pub(crate) fn operand_bytes(n: u8, place: &Place, thread: &Thread) -> u64
    requires { IsWidth n }
    ensures value { result ≡ operand n place.now thread.now }
    ensures fits { result < 2 ^ (8 * n) }
{
    match *place {
        Place::Reg(r) => low_bytes(n, register(thread, r)),
        Place::High(r) => register(thread, r) / 256 % 256,
        Place::At(_) => 0,
    }
}

/// What a register holds as an operand.
pub(crate) fn operand(w: Width, place: &Place, thread: &Thread) -> u64
    ensures value { result ≡ operand (byte_count w) place.now thread.now }
    ensures fits { Fits w result }
{
    operand_bytes(byte_count(w), place, thread)
}

/// Writes the low part of a register. 4 bytes clear the upper half.
pub(crate) fn set_low(w: Width, thread: &mut Thread, r: u8, value: u64)
    requires { Fits w value }
    ensures { thread.new ≡ with_low w thread.old r value }
{
    let value = match w {
        Width::W1 => register(thread, r) / 256 * 256 + value,
        _ => value,
    };
    set_register(thread, r, value);
}

/// Writes the second byte of a register.
pub(crate) fn set_high(thread: &mut Thread, r: u8, value: u64)
    ensures { thread.new ≡ with_high thread.old r value }
{
    let old = register(thread, r);
    set_register(
        thread,
        r,
        old / 65536 * 65536 + 256 * (value % 256) + old % 256,
    );
}

/// Writes an operand that stands in a register.
pub(crate) fn set_operand(w: Width, place: &Place, thread: &mut Thread, value: u64)
    requires fits { Fits w value }
    ensures { thread.new ≡ with_operand w place.now thread.old value }
{
    match *place {
        Place::Reg(r) => set_low(w, thread, r, value),
        Place::High(r) => set_high(thread, r, value),
        Place::At(_) => {}
    }
}

/// The address of the next instruction.
pub(crate) fn next_rip(thread: &Thread, len: u8) -> u64
    ensures { result ≡ next_rip len thread.now }
{
    thread.rip.wrapping_add(u64::from(len))
}

/// Goes on after an instruction of a given length.
pub fn onward(thread: &mut Thread, len: u8)
    ensures { thread.new ≡ onward len thread.old }
{
    thread.rip = next_rip(thread, len);
}

/// Goes on with other flags.
pub(crate) fn onward_with(thread: &mut Thread, len: u8, flags: Flags)
    ensures { thread.new ≡ with_flags (onward len thread.old) flags }
{
    onward(thread, len);
    thread.flags = flags;
}

/// Where a relative jump leads, counted from the end of an instruction of a given length.
pub(crate) fn jump_target(thread: &Thread, len: u8, rel: i32) -> u64
    ensures { result ≡ (thread.now.rip + len + cast_unsigned w64 rel) % 2 ^ 64 }
{
    next_rip(thread, len).wrapping_add(i64::from(rel).cast_unsigned())
}

/// Jumps by a distance from the end of an instruction of a given length.
pub(crate) fn jump(thread: &mut Thread, len: u8, rel: i32)
    ensures { thread.new ≡ jump len rel thread.old }
{
    thread.rip = jump_target(thread, len, rel);
}

/// A signed number of `n` bytes, in 8 bytes.
pub(crate) fn sign_extended(n: u8, x: u64) -> u64
    requires width { IsWidth n }
    requires fits { x < 2 ^ (8 * n) }
    ensures { result ≡ sign_extended n x }
{
    if n == 8 || x < 1 << (8 * n - 1) {
        x
    } else {
        x + (u64::MAX - ((1 << (8 * n)) - 1))
    }
}
