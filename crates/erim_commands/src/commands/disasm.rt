//! `disasm`: prints the instructions of an image.

ghost use Rattle.std.specs.Prelude.{◌≡◌, ◌+◌, ◌^◌, ◌<◌, ◌≤◌, ◌++◌, All, OnOk, IfOk, length};
ghost use Rattle.std.specs.Prelude.{slice_index};
ghost use Rattle.std.specs.List.{flat_map};
ghost use Rattle.erim_defs.specs.Encoding.Decoding.{decode};
ghost use Rattle.erim_defs.specs.Inspection.Image.{IsPlaced};
ghost use Rattle.erim_defs.specs.Encoding.Disasm.{bad_line, first_line, first_size, lines_of};
ghost use Rattle.erim_defs.specs.Encoding.Disasm.{segment_lines};
ghost use Rattle.erim_defs.specs.Output.Words.{Disasm};
ghost use Rattle.erim_commands.specs.CallParts.{reply_of};
ghost use Rattle.erim_commands.specs.Commands.{plan_of};
ghost use Rattle.erim_commands.specs.Delivery.{Carries, world};
ghost use Rattle.erim_commands.specs.Replies.{IsAnswer, disasm_reply};

use crate::delivery::conclude;
use crate::loads::load_image;
use crate::reply::{Reply, Status};
use elf_image::Image;
use erim_defs::{Decoded, NoMemory, Segment};
use erim_io::{Sink, Store};
use std::alloc::Global;
use std::io::Write;
use x86_decode::decode;
use x86_text::line;

/// Appends the line of a byte at which no whole instruction stands.
fn push_bad(text: &mut Vec<u8>, at: u64, byte: u8) -> Result<(), NoMemory>
    ensures { OnOk result (text.new.items ≡ text.old.items ++ bad_line at byte) }
{
    match writeln!(text, "0x{at:012x} bad {byte:02x}") {
        Ok(()) => Ok(()),
        Err(_refused) => Err(NoMemory),
    }
}

/// Appends the line of what the code begins with, and answers how many bytes it is of.
fn push_first(text: &mut Vec<u8>, at: u64, code: &[u8]) -> Result<usize, NoMemory>
    requires { 0 < length code.now }
    ensures size { IfOk result (λ size. size ≡ first_size (decode code.now)) }
    ensures some { IfOk result (λ size. 0 < size) }
    ensures inside { IfOk result (λ size. size ≤ length code.now) }
    ensures line { OnOk result (text.new.items
        ≡ text.old.items ++ first_line at (slice_index code.now 0) (decode code.now)) }
{
    match decode(code) {
        Decoded::Insn { insn, len, .. } => {
            line(at, &insn, text)?;
            Ok(usize::from(len))
        }
        Decoded::Undefined | Decoded::Short => {
            push_bad(text, at, code[0])?;
            Ok(1)
        }
    }
}

/// Appends the lines of the code that begins at `base`.
fn push_lines(text: &mut Vec<u8>, base: u64, code: &[u8]) -> Result<(), NoMemory>
    requires { base + length code.now ≤ 2 ^ 47 }
    ensures { OnOk result (text.new.items ≡ text.old.items ++ lines_of base code.now) }
{
    let mut done = 0;
    'code: while done < code.len() {
        done += push_first(text, base + done as u64, &code[done..])?;
    }
    Ok(())
}

/// Appends the lines of an executable segment's file part.
fn push_segment(text: &mut Vec<u8>, bytes: &[u8], segment: &Segment) -> Result<(), NoMemory>
    requires { IsPlaced (length bytes.now) segment.now }
    ensures { OnOk result (text.new.items ≡ text.old.items ++ segment_lines bytes.now segment.now) }
{
    if !segment.is_executable() {
        return Ok(());
    }
    let start = segment.offset as usize;
    let end = (segment.offset + segment.filesz) as usize;
    push_lines(text, segment.vaddr, &bytes[start..end])
}

/// What `disasm` prints of the segments.
fn segments_disasm(alloc: Global, bytes: &[u8], segments: &[Segment]) -> Result<Vec<u8>, NoMemory>
    requires { All (IsPlaced (length bytes.now)) segments.now }
    ensures { IfOk result (λ text. text.items ≡ flat_map (segment_lines bytes.now) segments.now) }
{
    let mut text = Vec::new(alloc);
    for segment in segments {
        push_segment(&mut text, bytes, segment)?;
    }
    Ok(text)
}

/// The instructions of an image.
#[tactic(auto, unfolding(erim_defs::specs::Encoding::Disasm::disasm_text))]
fn disasm_reply<'a>(alloc: Global, image: &Image) -> Result<Reply<'a>, NoMemory>
    ensures { IfOk result (λ reply. reply_of reply ≡ disasm_reply image.now) }
{
    Ok(Reply {
        status: Status::Done,
        text: segments_disasm(alloc, image.bytes(), image.segments())?,
        save: None,
    })
}

/// Loads an image and prints its instructions.
pub fn disasm<S: Store, K: Sink>(alloc: Global, image: &str, store: &mut S, out: &mut K) -> u8
    ensures { let old = world S.Store K.Sink store.old out.old in
        let new = world S.Store K.Sink store.new out.new in
        Carries IsAnswer (plan_of (Disasm image.now)) old new result }
{
    match load_image(alloc, image, store, out) {
        Ok(image) => conclude(store, out, disasm_reply(alloc, &image)),
        Err(status) => status,
    }
}
