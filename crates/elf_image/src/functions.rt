//! The functions of the functions note: start and length of 8 bytes each.

ghost use Rattle.std.specs.Prelude.{◌≡◌, ◌+◌, ◌<◌, ◌&&◌, [], is_some, nat_le, nat_lt};
ghost use Rattle.erim_defs.specs.Inspection.Image.{function_fault, holds_function, is_loadable};
ghost use Rattle.erim_defs.specs.Inspection.Image.{segments};
ghost use Rattle.elf_image.specs.Functions.{function_of, is_within, table_functions};
ghost use Rattle.elf_image.specs.Notes.{HasFunctionsOf};
ghost use Rattle.elf_image.specs.Table.{HasTable};

use crate::field::header_count;
use crate::header::Header;
use erim_defs::field::u64_at;
use erim_defs::note::{FUNCTION_LENGTH, FUNCTION_SIZE};
use erim_defs::{ImageFault, Span};

/// Where the functions of a functions note stand, and how many.
#[derive(Clone, Copy)]
pub(crate) struct FunctionTable {
    pub(crate) place: usize,
    pub(crate) count: u32,
}

/// The function of a number.
#[tactic(auto, unfolding(crate::specs::Functions::function_of))]
pub(crate) fn read_function(bytes: &[u8], table: FunctionTable, index: u32) -> Span
    requires table { HasFunctionsOf bytes.now table }
    requires index { index < table.count }
    ensures { result ≡ function_of bytes.now table index }
{
    let place = table.place + FUNCTION_SIZE * index as usize;
    Span {
        start: u64_at(bytes, place),
        length: u64_at(bytes, place + FUNCTION_LENGTH),
    }
}

/// The first function that has no bytes, isn't within the file part of one executable segment, or
/// starts below the end of the one before it.
#[tactic(auto, using(crate::proofs::FunctionLemmas::fault_steps))]
pub(crate) fn function_fault(bytes: &[u8], table: FunctionTable) -> Option<ImageFault>
    requires headers { HasTable bytes.now }
    requires functions { HasFunctionsOf bytes.now table }
    ensures { result ≡ function_fault 0 (segments bytes.now) [] (table_functions bytes.now table) }
{
    let mut before = Span {
        start: 0,
        length: 0,
    };
    let mut near = 0;
    for index in 0..table.count {
        let function = read_function(bytes, table, index);
        match holder(bytes, near, &function) {
            Some(header) if follows(&before, &function) => near = header,
            _ => return Some(ImageFault::BadFunction { index }),
        }
        before = function;
    }
    None
}

// Does the function have bytes, from the end of the one before it on? The end may pass 2^64.
fn follows(before: &Span, function: &Span) -> bool
    ensures { result ≡ (nat_lt 0 function.now.length
        && nat_le (before.now.start + before.now.length) function.now.start) }
{
    function.length > 0
        && before.start <= function.start
        && before.length <= function.start - before.start
}

// A header whose segment has the function in its file part. Functions follow each other, so the
// header that held the one before is asked first.
#[tactic(auto, using(crate::proofs::FunctionLemmas::within_steps))]
fn holder(bytes: &[u8], near: u32, function: &Span) -> Option<u32>
    requires { HasTable bytes.now }
    ensures { is_some result ≡ is_within function.now (segments bytes.now) }
{
    if near < header_count(bytes) && holds(&Header::read(bytes, near), function) {
        return Some(near);
    }
    for index in 0..header_count(bytes) {
        if holds(&Header::read(bytes, index), function) {
            return Some(index);
        }
    }
    None
}

// Does the file part of a header's segment have the function, and is it executable?
fn holds(header: &Header, function: &Span) -> bool
    ensures { result ≡ (is_loadable header.now
        && holds_function function.now header.now.segment) }
{
    header.is_loadable() && header.segment().holds_function(function)
}
