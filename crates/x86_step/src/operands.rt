//! Operands of instructions, in registers and in memory.

ghost use Rattle.std.specs.Prelude.{◌≡◌, ◌<◌, ◌≤◌, ◌+◌, ◌*◌, ◌%◌, ◌^◌, ℕ, IfOk};
ghost use Rattle.std.specs.Int.{cast_unsigned};
ghost use Rattle.erim_defs.specs.Machine.Plan.{Ask, Give};
ghost use Rattle.erim_defs.specs.Machine.Registers.{byte_count, int_width, register, with_operand};
ghost use Rattle.erim_defs.specs.Machine.Registers.{with_flags, onward};
ghost use Rattle.erim_defs.specs.Machine.Operands.{address, base_value, index_value, on_place};
ghost use Rattle.erim_defs.specs.Machine.Operands.{immediate, on_source, write_to};
ghost use Rattle.page_store.specs.Answers.{IsWidth};
ghost use Rattle.x86_step.specs.Fits.{Fits};
ghost use Rattle.x86_step.specs.Executes.{Executes, Gets, Puts, write_at};

use crate::registers::{
    byte_count, low_bytes, next_rip, onward_with, operand_bytes, register, set_operand,
};
use erim_defs::{Access, Base, Mem, Outcome, Place, Src, Thread, Width};
use page_store::Memory;

/// What an address starts from.
fn base_value(base: Base, len: u8, thread: &Thread) -> u64
    ensures { result ≡ base_value base len thread.now }
{
    match base {
        Base::Zero => 0,
        Base::Reg(n) => register(thread, n),
        Base::Rip => next_rip(thread, len),
    }
}

/// The register that an address adds.
fn index_value(index: Option<u8>, thread: &Thread) -> u64
    ensures { result ≡ index_value index thread.now }
{
    match index {
        None => 0,
        Some(n) => register(thread, n),
    }
}

/// A number times a power of two, modulo 2^64.
#[tactic(auto, using(crate::proofs::WordLemmas::scaled_out))]
fn scaled_index(x: u64, scale: u8) -> u64
    ensures { result ≡ (x * 2 ^ scale) % 2 ^ 64 }
{
    if scale < 64 {
        x.wrapping_mul(1 << scale)
    } else {
        0
    }
}

/// The address of a memory operand. Sums wrap.
pub(crate) fn address(m: &Mem, len: u8, thread: &Thread) -> u64
    ensures { result ≡ address m.now len thread.now }
{
    let index = scaled_index(index_value(m.index, thread), m.scale);
    base_value(m.base, len, thread)
        .wrapping_add(index)
        .wrapping_add(i64::from(m.disp).cast_unsigned())
}

/// Loads a number of `n` bytes.
#[tactic(auto, using(crate::proofs::ExecutesLemmas::loads))]
pub(crate) fn load<M: Memory>(
    n: u8,
    addr: u64,
    thread: &Thread,
    memory: &mut M,
) -> Result<u64, Access>
    requires width { IsWidth n }
    requires spare { 1 ≤ M.spare memory.old }
    ensures gets { Gets M.Memory (λ k. Ask addr n k) thread.now memory.old memory.new result }
    ensures fits { IfOk result (λ v. v < 2 ^ (8 * n)) }
    ensures spare { M.spare memory.old ≤ M.spare memory.new + 1 }
{
    memory.load(thread.pkru, addr, n)
}

/// Loads the number in the 8 bytes that a register names.
pub(crate) fn load_named<M: Memory>(r: u8, thread: &Thread, memory: &mut M) -> Result<u64, Access>
    requires { 1 ≤ M.spare memory.old }
    ensures gets { Gets M.Memory (λ k. Ask (register thread.now r) 8 k) thread.now memory.old
        memory.new result }
    ensures spare { M.spare memory.old ≤ M.spare memory.new + 1 }
{
    load(8, register(thread, r), thread, memory)
}

/// What an operand of `n` bytes holds.
pub(crate) fn read_bytes<M: Memory>(
    n: u8,
    place: &Place,
    len: u8,
    thread: &Thread,
    memory: &mut M,
) -> Result<u64, Access>
    requires width { IsWidth n }
    requires spare { 1 ≤ M.spare memory.old }
    ensures gets { Gets M.Memory (λ k. on_place n place.now len thread.now k)
        thread.now memory.old memory.new result }
    ensures fits { IfOk result (λ v. v < 2 ^ (8 * n)) }
    ensures spare { M.spare memory.old ≤ M.spare memory.new + 1 }
{
    match place {
        Place::At(m) => load(n, address(m, len, thread), thread, memory),
        _ => Ok(operand_bytes(n, place, thread)),
    }
}

/// What an operand holds.
#[tactic(auto, using(crate::proofs::ExecutesLemmas::reads))]
pub(crate) fn read<M: Memory>(
    w: Width,
    place: &Place,
    len: u8,
    thread: &Thread,
    memory: &mut M,
) -> Result<u64, Access>
    requires spare { 1 ≤ M.spare memory.old }
    ensures gets { Gets M.Memory (λ k. on_place (byte_count w) place.now len thread.now k)
        thread.now memory.old memory.new result }
    ensures fits { IfOk result (λ v. Fits w v) }
    ensures spare { M.spare memory.old ≤ M.spare memory.new + 1 }
{
    read_bytes(byte_count(w), place, len, thread, memory)
}

/// What a source holds. An immediate is extended with its sign.
#[tactic(auto, using(crate::proofs::ExecutesLemmas::reads_source))]
pub(crate) fn read_source<M: Memory>(
    w: Width,
    src: &Src,
    len: u8,
    thread: &Thread,
    memory: &mut M,
) -> Result<u64, Access>
    requires spare { 1 ≤ M.spare memory.old }
    ensures gets { Gets M.Memory (λ k. on_source w src.now len thread.now k)
        thread.now memory.old memory.new result }
    ensures fits { IfOk result (λ v. Fits w v) }
    ensures spare { M.spare memory.old ≤ M.spare memory.new + 1 }
{
    match src {
        Src::From(place) => read(w, place, len, thread, memory),
        Src::Imm(i) => Ok(immediate(w, *i)),
    }
}

/// An immediate, extended with its sign and cut to a width.
pub(crate) fn immediate(w: Width, i: i32) -> u64
    ensures value { result ≡ immediate w i }
    ensures fits { Fits w result }
{
    low_bytes(byte_count(w), i64::from(i).cast_unsigned())
}

/// Stores the low `n` bytes of a value.
#[tactic(auto, using(crate::proofs::ExecutesLemmas::stores_at))]
pub(crate) fn store_bytes<M: Memory>(
    n: u8,
    addr: u64,
    value: u64,
    thread: &Thread,
    memory: &mut M,
) -> Result<(), Access>
    requires width { IsWidth n }
    requires spare { 1 ≤ M.spare memory.old }
    ensures puts { Puts M.Memory (λ next. Give next (write_at addr n value)) (λ next. next)
        thread.now memory.old memory.new result }
    ensures spare { M.spare memory.old ≤ M.spare memory.new + 1 }
{
    memory.store(thread.pkru, addr, n, value)
}

/// Stores a result where its operand stands in memory.
pub(crate) fn store<M: Memory>(
    w: Width,
    place: &Place,
    len: u8,
    value: u64,
    thread: &Thread,
    memory: &mut M,
) -> Result<(), Access>
    requires spare { 1 ≤ M.spare memory.old }
    ensures puts { Puts M.Memory
        (λ next. write_to w place.now len thread.now next value)
        (λ next. with_operand w place.now next value) thread.now memory.old memory.new result }
    ensures spare { M.spare memory.old ≤ M.spare memory.new + 1 }
{
    match place {
        Place::At(m) => {
            store_bytes(
                byte_count(w),
                address(m, len, thread),
                value,
                thread,
                memory,
            )
        }
        Place::Reg(_) | Place::High(_) => Ok(()),
    }
}

/// Writes a result to an operand, and goes on.
pub(crate) fn write<M: Memory>(
    w: Width,
    place: &Place,
    len: u8,
    outcome: Outcome,
    thread: &mut Thread,
    memory: &mut M,
) -> Result<(), Access>
    requires fits { Fits w outcome.value }
    requires spare { 1 ≤ M.spare memory.old }
    ensures executes { Executes M.Memory (write_to w place.now len thread.old
        (with_flags (onward len thread.old) outcome.flags) outcome.value) thread.old thread.new
        memory.old memory.new result }
    ensures spare { M.spare memory.old ≤ M.spare memory.new + 1 }
{
    store(w, place, len, outcome.value, thread, memory)?;
    onward_with(thread, len, outcome.flags);
    set_operand(w, place, thread, outcome.value);
    Ok(())
}
