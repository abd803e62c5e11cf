//! XRSTOR.

ghost use Rattle.std.specs.Prelude.{◌≡◌, ◌<◌, ◌≤◌, ◌+◌, ◌%◌, ◌^◌, IfOk, if◌then◌else◌, slice_index};
ghost use Rattle.erim_defs.specs.Bits.{has_bit};
ghost use Rattle.erim_defs.specs.Inspection.Check.{pkru_bit};
ghost use Rattle.erim_defs.specs.Machine.Plan.{Ask};
ghost use Rattle.erim_defs.specs.Machine.Registers.{eax};
ghost use Rattle.erim_defs.specs.Machine.Meaning.{is_header, on_numbers, plan_xrstor, restore_pkru};
ghost use Rattle.x86_step.specs.Executes.{Executes, Gets, GetsNumbers};

use crate::operands::{address, load};
use crate::registers::{low_half, onward, register};
use crate::rights::if_allowed;
use erim_defs::register::RAX;
use erim_defs::{Access, Mem, Thread};
use page_store::Memory;

/// The state components that XCR0 enables: x87 (bit 0), SSE (1) and PKRU (9).
const XCR0: u64 = 0x203;

/// The bit of PKRU in XSTATE_BV and in the mask that EAX has.
const PKRU_BIT: u32 = 9;

/// Where the header of an area begins.
const HEADER_AT: u64 = 512;

/// Where PKRU stands in an area.
const PKRU_AT: u64 = 2688;

/// Has a mask of state components the bit of PKRU?
fn has_pkru(mask: u64) -> bool
    ensures { result ≡ has_bit mask pkru_bit }
{
    (mask >> PKRU_BIT) % 2 == 1
}

/// Does EAX ask for PKRU?
pub(crate) fn asks_pkru(thread: &Thread) -> bool
    ensures { result ≡ has_bit (eax thread.now) pkru_bit }
{
    has_pkru(u64::from(low_half(register(thread, RAX))))
}

/// Loads the header of an area: 8 numbers, one after the other.
fn read_header<M: Memory>(area: u64, thread: &Thread, memory: &mut M) -> Result<[u64; 8], Access>
    requires spare { 8 ≤ M.spare memory.old }
    ensures gets { GetsNumbers M.Memory (λ k. on_numbers 8 (area + 512) k)
        thread.now memory.old memory.new result }
    ensures spare { M.spare memory.old ≤ M.spare memory.new + 8 }
{
    let mut header = [0; 8];
    for i in 0..8 {
        let at = area.wrapping_add(HEADER_AT + 8 * i as u64);
        header[i] = load(8, at, thread, memory)?;
    }
    Ok(header)
}

/// Does a header name no component but those of XCR0, and has it the standard form? The two numbers
/// after XSTATE_BV have to be 0.
fn is_header(header: &[u64; 8]) -> bool
    ensures { result ≡ is_header header.now }
{
    header[0] | XCR0 == XCR0 && header[1] == 0 && header[2] == 0
}

/// What PKRU is restored to: what the area holds where XSTATE_BV has its bit, else 0.
fn restored_pkru<M: Memory>(
    area: u64,
    xstate_bv: u64,
    thread: &Thread,
    memory: &mut M,
) -> Result<u64, Access>
    requires spare { 1 ≤ M.spare memory.old }
    ensures gets { Gets M.Memory
        (λ k. if has_bit xstate_bv pkru_bit then Ask ((area + 2688) % 2 ^ 64) 4 k else k 0)
        thread.now memory.old memory.new result }
    ensures fits { IfOk result (λ v. v < 2 ^ 32) }
    ensures spare { M.spare memory.old ≤ M.spare memory.new + 1 }
{
    if has_pkru(xstate_bv) {
        load(4, area.wrapping_add(PKRU_AT), thread, memory)
    } else {
        Ok(0)
    }
}

/// Restores PKRU where EAX asks for it, and goes on.
fn restore_pkru<M: Memory>(
    area: u64,
    header: &[u64; 8],
    len: u8,
    thread: &mut Thread,
    memory: &mut M,
) -> Result<(), Access>
    requires spare { 1 ≤ M.spare memory.old }
    ensures executes { Executes M.Memory (restore_pkru area header.now len thread.old)
        thread.old thread.new memory.old memory.new result }
    ensures spare { M.spare memory.old ≤ M.spare memory.new + 1 }
{
    if asks_pkru(thread) {
        thread.pkru = restored_pkru(area, header[0], thread, memory)? as u32;
    }
    onward(thread, len);
    Ok(())
}

/// XRSTOR: PKRU from an area that is aligned to 64 bytes. Its header has to be one.
#[tactic(auto, unfolding(erim_defs::specs::Machine::Meaning::plan_xrstor))]
pub(crate) fn exec_xrstor<M: Memory>(
    m: &Mem,
    len: u8,
    thread: &mut Thread,
    memory: &mut M,
) -> Result<(), Access>
    requires spare { 10 ≤ M.spare memory.old }
    ensures executes { Executes M.Memory (plan_xrstor m.now len thread.old)
        thread.old thread.new memory.old memory.new result }
    ensures spare { M.spare memory.old ≤ M.spare memory.new + 10 }
{
    let area = address(m, len, thread);
    if_allowed(area % 64 == 0, thread)?;
    let header = read_header(area, thread, memory)?;
    if_allowed(is_header(&header), thread)?;
    restore_pkru(area, &header, len, thread, memory)
}
