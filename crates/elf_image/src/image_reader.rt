//! Reads an image: finds its first fault, or takes what it says.

ghost use Rattle.std.specs.Prelude.{◌≡◌, ◌≤◌, ◌<◌, length, IfSome, MatchResult};
ghost use Rattle.erim_defs.specs.Inspection.Image.{IsAccepted, first_fault, has_class, has_magic};
ghost use Rattle.erim_defs.specs.Inspection.Image.{head_fault, header_fault};
ghost use Rattle.elf_image.specs.Form.{Checks, ChecksLater, ChecksTrust};
ghost use Rattle.elf_image.specs.Notes.{HasNotes};
ghost use Rattle.elf_image.specs.Table.{HasTable};

use crate::field::{entry_point, header_count, table_place};
use crate::functions::function_fault;
use crate::headers::segment_fault;
use crate::image::Image;
use crate::notes::{NotesSeen, read_notes};
use crate::pages::{Purpose, is_held};
use crate::records::records_fault;
use erim_defs::ImageFault;
use erim_defs::elf::{
    E_MACHINE, E_PHENTSIZE, E_TYPE, EI_CLASS, EI_DATA, EI_VERSION, ELFCLASS64, ELFDATA2LSB,
    EM_X86_64, ET_EXEC, EV_CURRENT, FILE_HEADER_SIZE, PROGRAM_HEADER_SIZE,
};
use erim_defs::field::u16_at;
use erim_defs::limits::MOST_HEADERS;
use erim_defs::page::PAGE_SIZE;
use std::alloc::Global;

/// Reads an image: a static x86-64 program with its trust note and its functions note.
pub fn read_image(alloc: Global, bytes: &[u8]) -> Result<Image, ImageFault>
    // A fault is the first one, and needs no memory.
    ensures faulty { IfSome (first_fault bytes.now) (λ fault. result ≡ Err fault) }

    // What is accepted is read, unless memory runs out.
    ensures accepted { IsAccepted bytes.now →
        MatchResult result (λ image. image ≡ bytes.now) (λ fault. fault ≡ ImageFault.Memory) }
{
    let seen = check(bytes)?;
    Image::from_accepted(alloc, bytes, seen)
}

// The first fault as an error. It stands before all that takes memory.
#[tactic(auto, using(crate::proofs::RowLemmas::first_steps))]
fn check(bytes: &[u8]) -> Result<NotesSeen, ImageFault>
    ensures { Checks bytes.now result }
{
    if let Some(fault) = head_fault(bytes) {
        return Err(fault);
    }
    check_later(bytes)
}

// What the first bytes show.
#[tactic(auto, unfolding(erim_defs::specs::Inspection::Image::head_fault))]
fn head_fault(bytes: &[u8]) -> Option<ImageFault>
    ensures { result ≡ head_fault bytes.now }
{
    if bytes.len() < FILE_HEADER_SIZE {
        let at = bytes.len() as u64;
        return Some(ImageFault::Short { at });
    }
    if !has_magic(bytes) {
        return Some(ImageFault::Magic);
    }
    if !has_class(bytes) {
        return Some(ImageFault::Class);
    }
    None
}

fn has_magic(bytes: &[u8]) -> bool
    requires { 64 ≤ length bytes.now }
    ensures { result ≡ has_magic bytes.now }
{
    bytes[0] == 0x7F && bytes[1] == b'E' && bytes[2] == b'L' && bytes[3] == b'F'
}

fn has_class(bytes: &[u8]) -> bool
    requires { 64 ≤ length bytes.now }
    ensures { result ≡ has_class bytes.now }
{
    bytes[EI_CLASS] == ELFCLASS64
        && bytes[EI_DATA] == ELFDATA2LSB
        && bytes[EI_VERSION] == EV_CURRENT
}

// The rows after the first, with the notes that they saw.
#[tactic(auto, using(crate::proofs::RowLemmas::later_steps))]
fn check_later(bytes: &[u8]) -> Result<NotesSeen, ImageFault>
    requires { 64 ≤ length bytes.now }
    ensures { ChecksLater bytes.now result }
{
    if let Some(fault) = header_fault(bytes) {
        return Err(fault);
    }
    if let Some(fault) = segment_fault(bytes) {
        return Err(fault);
    }
    let seen = check_trust(bytes)?;
    if let Some(fault) = function_fault(bytes, seen.functions()) {
        return Err(fault);
    }
    if !is_held(bytes, Purpose::Execution, entry_point(bytes) / PAGE_SIZE) {
        return Err(ImageFault::EntryPoint);
    }
    Ok(seen)
}

// The rest of the file header.
#[tactic(auto, unfolding(erim_defs::specs::Inspection::Image::header_fault))]
fn header_fault(bytes: &[u8]) -> Option<ImageFault>
    requires { 64 ≤ length bytes.now }
    ensures { result ≡ header_fault bytes.now }
{
    if u16_at(bytes, E_TYPE) != ET_EXEC {
        return Some(ImageFault::FileType);
    }
    if u16_at(bytes, E_MACHINE) != EM_X86_64 {
        return Some(ImageFault::Machine);
    }
    if usize::from(u16_at(bytes, E_PHENTSIZE)) != PROGRAM_HEADER_SIZE {
        return Some(ImageFault::HeaderSize);
    }
    let count = header_count(bytes);
    if count > MOST_HEADERS {
        return Some(ImageFault::TooMany { count });
    }
    let at = bytes.len() as u64;
    let size = PROGRAM_HEADER_SIZE as u64 * u64::from(count);
    if at < size || at - size < table_place(bytes) {
        return Some(ImageFault::Short { at });
    }
    None
}

// The rows of notes and records, with the notes that they saw.
#[tactic(auto, using(crate::proofs::RowLemmas::trust_steps))]
fn check_trust(bytes: &[u8]) -> Result<NotesSeen, ImageFault>
    requires table { HasTable bytes.now }
    requires notes { HasNotes bytes.now }
    ensures { ChecksTrust bytes.now result }
{
    let seen = read_notes(bytes)?;
    if !seen.versioned {
        return Err(ImageFault::NoteVersion);
    }
    if let Some(fault) = records_fault(bytes, seen.records()) {
        return Err(fault);
    }
    Ok(seen)
}
