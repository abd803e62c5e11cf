//! Writes an instruction.

ghost use Rattle.std.specs.Prelude.{◌≡◌, ◌++◌, OnOk};
ghost use Rattle.erim_defs.specs.Encoding.Notation.{insn_text};

use crate::lines::Text;
use crate::names::{insn_name, lock_text, width_text};
use crate::operand_list::{insn_operands, insn_width, is_locked};
use crate::operands::put_operands;
use erim_defs::Insn;
use std::io::{Result, Write};

/// Appends an instruction.
#[tactic(auto, unfolding(erim_defs::specs::Encoding::Notation::insn_text))]
pub fn put_insn(text: &mut Text, insn: &Insn) -> Result<()>
    ensures { OnOk result (text.new.items ≡ text.old.items ++ insn_text insn.now) }
{
    let lock = lock_text(is_locked(insn));
    let name = insn_name(insn);
    let width = width_text(insn_width(insn));
    write!(text, "{lock}{name}{width}")?;
    put_operands(text, insn_operands(insn))
}
