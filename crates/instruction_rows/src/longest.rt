//! The line of the greatest parts.

use anyhow::Result;
use erim_defs::{Base, Insn, Mem, Place, Width};
use std::alloc::Global;
use test_rows::RowFault;
use x86_text::line;

/// The line, after what was there.
fn longest_line(alloc: Global) -> Result<Vec<u8>, RowFault> {
    let place = Place::At(Mem {
        base: Base::Reg(255),
        index: Some(255),
        scale: 255,
        disp: i32::MIN,
    });
    let insn = Insn::Cmpxchg {
        w: Width::W8,
        dst: place,
        r: place,
        lock: true,
    };
    let mut out = Vec::from_slice(alloc, b"after: ")?;
    line(u64::MAX, &insn, &mut out)?;
    Ok(out)
}

/// Prints it.
pub fn print_longest<R: Print + AllocGlobal>(rt: &R) -> Result<bool> {
    let line = longest_line(rt.alloc())?;
    print!(rt; "{}", str::from_utf8(&line)?)?;
    Ok(true)
}
