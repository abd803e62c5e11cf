//! The call write.

ghost use Rattle.std.specs.Prelude.{◌≡◌, ◌<◌, ◌≤◌, ◌+◌, ◌++◌, length, false, None, is_none};
ghost use Rattle.std.specs.Prelude.{IfErr, OnErr};
ghost use Rattle.erim_defs.specs.declared.machine.Thread.{Thread};
ghost use Rattle.erim_defs.specs.Machine.Access.{stop, whole};
ghost use Rattle.erim_defs.specs.Machine.Calls.{write_result};
ghost use Rattle.erim_defs.specs.Machine.Pages.{bytes_of_range};
ghost use Rattle.erim_defs.specs.Machine.State.{State};
ghost use Rattle.erim_defs.specs.Machine.Access.{rights_in};
ghost use Rattle.sys_calls.specs.Answers.{wrote};
ghost use Rattle.erim_defs.specs.declared.limits.TheConstants.{MOST_OUTPUT};

use crate::output::Output;
use erim_defs::linux::{EBADF, EFAULT, ENOSPC};
use page_store::{Memory, Pages};

/// The file number of standard output.
const STANDARD_OUTPUT: u64 = 1;

/// Are the n bytes from an address on readable under this PKRU?
fn are_readable<P: Pages>(pages: &mut P, pkru: u32, buf: u64, n: u64) -> bool
    ensures answer { result ≡ is_none (stop (whole (rights_in (P.seen pages.old))) false pkru buf
        n) }
    ensures seen { P.seen pages.new ≡ P.seen pages.old }
    ensures bytes { P.bytes pages.new ≡ P.bytes pages.old }
    ensures frames { P.frames pages.new ≡ P.frames pages.old }
{
    for step in 0..n {
        let Some(addr) = buf.checked_add(step) else {
            return false;
        };
        if pages.load(pkru, addr, 1).is_err() {
            return false;
        }
    }
    true
}

/// The byte at a readable address.
fn byte_of<P: Pages>(pages: &mut P, pkru: u32, addr: u64) -> u8
    requires readable { stop (whole (rights_in (P.seen pages.old))) false pkru addr 1 ≡ None }
    ensures value { result ≡ P.bytes pages.old addr }
    ensures seen { P.seen pages.new ≡ P.seen pages.old }
    ensures bytes { P.bytes pages.new ≡ P.bytes pages.old }
    ensures frames { P.frames pages.new ≡ P.frames pages.old }
{
    match pages.load(pkru, addr, 1) {
        Ok(value) => (value % 256) as u8,
        Err(_) => 0,
    }
}

/// Copies bytes that are readable to the output.
fn copy_bytes<P: Pages>(pages: &mut P, output: &mut Output, pkru: u32, buf: u64, n: u64)
    requires readable { stop (whole (rights_in (P.seen pages.old))) false pkru buf n ≡ None }
    requires room { length output.old + n ≤ MOST_OUTPUT }
    ensures output { output.new ≡ output.old ++ bytes_of_range (P.bytes pages.old) buf n }
    ensures seen { P.seen pages.new ≡ P.seen pages.old }
    ensures bytes { P.bytes pages.new ≡ P.bytes pages.old }
    ensures frames { P.frames pages.new ≡ P.frames pages.old }
{
    for step in 0..n {
        let byte = byte_of(pages, pkru, buf.wrapping_add(step));
        output.push(byte);
    }
}

/// write(2): copies n bytes to the output, and answers how many. `Err` is the error number.
pub fn write_out<P: Pages>(
    pages: &mut P,
    output: &mut Output,
    pkru: u32,
    fd: u64,
    buf: u64,
    n: u64,
) -> Result<u64, u16>
    ensures answer { (s : State) (t : Thread) → s.rights ≡ rights_in (P.seen pages.old)
        → s.bytes ≡ P.bytes pages.old → s.output ≡ output.old → t.pkru ≡ pkru
        → write_result s t fd buf n ≡ wrote s t output.new result }
    ensures kept { OnErr result (output.new ≡ output.old) }
    ensures error { IfErr result (λ error. 0 < error) }
    ensures seen { P.seen pages.new ≡ P.seen pages.old }
    ensures bytes { P.bytes pages.new ≡ P.bytes pages.old }
    ensures frames { P.frames pages.new ≡ P.frames pages.old }
{
    if fd % (1 << 32) != STANDARD_OUTPUT {
        return Err(EBADF);
    }
    if !are_readable(pages, pkru, buf, n) {
        return Err(EFAULT);
    }
    if n > output.room() {
        return Err(ENOSPC);
    }
    copy_bytes(pages, output, pkru, buf, n);
    Ok(n)
}
