//! Writes the operands of instructions.

ghost use Rattle.std.specs.Prelude.{◌≡◌, ◌++◌, OnOk, codes};
ghost use Rattle.erim_defs.specs.Encoding.Notation.{register_text, base_text, index_text};
ghost use Rattle.erim_defs.specs.Encoding.Notation.{displacement_text, memory_text, place_text};
ghost use Rattle.erim_defs.specs.Encoding.Notation.{operands_text};
ghost use Rattle.x86_text.specs.Operands.{operand_text, operand_texts};

use crate::lines::Text;
use crate::names::scale_text;
use crate::operand_list::{Operand, OperandList};
use erim_defs::{Base, Mem, Place};
use std::io::{Result, Write};

fn put_register(text: &mut Text, number: u8) -> Result<()>
    ensures { OnOk result (text.new.items ≡ text.old.items ++ register_text number) }
{
    write!(text, "r{number}")
}

fn put_base(text: &mut Text, base: Base) -> Result<()>
    ensures { OnOk result (text.new.items ≡ text.old.items ++ base_text base) }
{
    match base {
        Base::Zero => write!(text, "0"),
        Base::Reg(number) => put_register(text, number),
        Base::Rip => write!(text, "rip"),
    }
}

/// The index, where there is one, with its scale.
fn put_index(text: &mut Text, index: Option<u8>, scale: u8) -> Result<()>
    ensures { OnOk result (text.new.items ≡ text.old.items ++ index_text index scale) }
{
    match index {
        None => Ok(()),
        Some(number) => {
            let times = scale_text(scale);
            write!(text, "+r{number}*{times}")
        }
    }
}

/// A number that always has a sign.
fn put_displacement(text: &mut Text, number: i32) -> Result<()>
    ensures { OnOk result (text.new.items ≡ text.old.items ++ displacement_text number) }
{
    if number.is_negative() {
        write!(text, "{number}")
    } else {
        write!(text, "+{number}")
    }
}

fn put_memory(text: &mut Text, memory: Mem) -> Result<()>
    ensures { OnOk result (text.new.items ≡ text.old.items ++ memory_text memory) }
{
    write!(text, "[")?;
    put_base(text, memory.base)?;
    put_index(text, memory.index, memory.scale)?;
    put_displacement(text, memory.disp)?;
    write!(text, "]")
}

fn put_place(text: &mut Text, place: Place) -> Result<()>
    ensures { OnOk result (text.new.items ≡ text.old.items ++ place_text place) }
{
    match place {
        Place::Reg(number) => put_register(text, number),
        Place::High(number) => write!(text, "h{number}"),
        Place::At(memory) => put_memory(text, memory),
    }
}

fn put_operand(text: &mut Text, operand: Operand) -> Result<()>
    ensures { OnOk result (text.new.items ≡ text.old.items ++ operand_text operand) }
{
    match operand {
        Operand::Place(place) => put_place(text, place),
        Operand::Signed(number) => write!(text, "{number}"),
        Operand::Number(number) => write!(text, "{number}"),
        Operand::Cl => write!(text, "cl"),
    }
}

/// A further operand.
fn put_more(text: &mut Text, operand: Operand) -> Result<()>
    ensures { OnOk result (text.new.items ≡ text.old.items ++ codes ", " ++ operand_text operand) }
{
    write!(text, ", ")?;
    put_operand(text, operand)
}

/// The first operand, with a space before it.
fn put_first(text: &mut Text, operand: Operand) -> Result<()>
    ensures { OnOk result (text.new.items ≡ text.old.items ++ codes " " ++ operand_text operand) }
{
    write!(text, " ")?;
    put_operand(text, operand)
}

/// Operands, with a space before them where there are any.
pub fn put_operands(text: &mut Text, operands: OperandList) -> Result<()>
    ensures { OnOk result (text.new.items ≡
        text.old.items ++ operands_text (operand_texts operands)) }
{
    match operands {
        OperandList::None => Ok(()),
        OperandList::One(first) => put_first(text, first),
        OperandList::Two(first, second) => {
            put_first(text, first)?;
            put_more(text, second)
        }
        OperandList::Three(first, second, third) => {
            put_first(text, first)?;
            put_more(text, second)?;
            put_more(text, third)
        }
    }
}
