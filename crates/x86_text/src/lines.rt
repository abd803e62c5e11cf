//! The line of an instruction.

ghost use Rattle.std.specs.Prelude.{◌≡◌, ◌++◌, OnOk, OnErr};
ghost use Rattle.erim_defs.specs.Encoding.Notation.{insn_line};
ghost use Rattle.erim_defs.specs.Output.Texts.{address_text};

use crate::instruction::put_insn;
use arrayvec::ArrayVec;
use erim_defs::{Insn, NoMemory};
use std::io::{Result as IoResult, Write};

/// More bytes than any line has: two memory operands would fit.
const ROOM: usize = 128;

/// A line while it is made. It stands on the stack, so that a line is appended whole or not at all.
pub type Text = ArrayVec<u8, ROOM>;

fn put_address(text: &mut Text, addr: u64) -> IoResult<()>
    ensures { OnOk result (text.new.items ≡ text.old.items ++ address_text addr) }
{
    write!(text, "0x{addr:012x}")
}

/// Writes the line of an instruction at an address.
#[tactic(auto, unfolding(erim_defs::specs::Encoding::Notation::insn_line))]
fn put_line(text: &mut Text, addr: u64, insn: &Insn) -> IoResult<()>
    ensures { OnOk result (text.new.items ≡ text.old.items ++ insn_line addr insn.now) }
{
    put_address(text, addr)?;
    write!(text, " ")?;
    put_insn(text, insn)?;
    writeln!(text)
}

/// Appends the line of an instruction at an address, or changes nothing.
pub fn line(addr: u64, insn: &Insn, out: &mut Vec<u8>) -> Result<(), NoMemory>
    ensures line { OnOk result (out.new.items ≡ out.old.items ++ insn_line addr insn.now) }
    ensures kept { OnErr result (out.new.items ≡ out.old.items) }
{
    let mut text = Text::new();
    match put_line(&mut text, addr, insn) {
        Ok(()) => Ok(out.extend_from_slice(text.as_slice())?),
        Err(_full) => Err(NoMemory),
    }
}
