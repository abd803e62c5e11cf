//! The images that the program generates from a seed: a number of threads go, each a number of times,
//! through the gate and count.

ghost use Rattle.std.specs.Prelude.{◌≡◌, ℕ, ◌≤◌, ◌++◌, [], ◌∷◌, length, IfOk, OnOk};
ghost use Rattle.erim_defs.specs.Inspection.Image.{IsAccepted};
ghost use Rattle.erim_defs.specs.Machine.Isolation.{IsStartable};
ghost use Rattle.erim_defs.specs.Output.LayImage.{words};
ghost use Rattle.erim_defs.specs.Output.GeneratedImage.{generated_code, generated_image};
ghost use Rattle.erim_defs.specs.Output.GeneratedImage.{generated_text};

use crate::field::push_words;
use crate::image::lay_image;
use crate::part::{Mark, Part};
use call_gate::{gate_in, gate_out};
use erim_defs::NoMemory;
use erim_defs::elf::{PF_R, PF_W, PF_X};
use erim_defs::note::{TRUSTED_DATA, TRUSTED_ENTRY, TRUSTED_TEXT};
use erim_defs::page::PAGE_SIZE;
use std::alloc::{AllocError, Global};

/// Where the code stands, and its first byte is the entry point.
const CODE: u64 = 0x401000;

/// A page of trusted text.
const TEXT: u64 = 0x402000;

/// A page that counts the threads that have ended.
const PLAIN: u64 = 0x403000;

/// A trusted page that counts the rounds.
const TRUSTED: u64 = 0x404000;

/// The entry after the first gate in, where a round is counted.
const COUNT_ENTRY: u64 = 0x40200C;

/// The entry after the second gate in, where the count is written.
const WRITE_ENTRY: u64 = 0x40204C;

/// `mov ebx, ..`
const MOV_EBX: u8 = 0xBB;

/// again: `test ebx, ebx`, `je` count; `mov edi, 0x50F00`, `xor esi, esi`, `mov eax, 56` (clone),
/// `syscall`; `test eax, eax`, `je` count; `dec ebx`, `jmp` again.
const SPAWN: [u8; 26] = [
    0x85, 0xDB, 0x74, 0x16, 0xBF, 0x00, 0x0F, 0x05, 0x00, 0x31, 0xF6, 0xB8, 0x38, 0x00, 0x00, 0x00,
    0x0F, 0x05, 0x85, 0xC0, 0x74, 0x04, 0xFF, 0xCB, 0xEB, 0xE6,
];

/// count: `mov ebp, ..`
const MOV_EBP: u8 = 0xBD;

/// round: `mov esi, 0x40102E` (back), `jmp 0x402000` (the first gate in); back: `dec ebp`, `jne`
/// round; `mov eax, 1`, `lock xadd [0x403000], eax`.
const ROUNDS: [u8; 28] = [
    0xBE, 0x2E, 0x10, 0x40, 0x00, 0xE9, 0xD2, 0x0F, 0x00, 0x00, 0xFF, 0xCD, 0x75, 0xF2, 0xB8, 0x01,
    0x00, 0x00, 0x00, 0xF0, 0x0F, 0xC1, 0x04, 0x25, 0x00, 0x30, 0x40, 0x00,
];

/// `cmp eax, ..`
const CMP_EAX: u8 = 0x3D;

/// `je` last; `xor edi, edi`, `mov eax, 60` (exit), `syscall`; last: `jmp 0x402040` (the second
/// gate in).
const LEAVE: [u8; 16] = [
    0x74, 0x09, 0x31, 0xFF, 0xB8, 0x3C, 0x00, 0x00, 0x00, 0x0F, 0x05, 0xE9, 0xEB, 0x0F, 0x00, 0x00,
];

/// `lock add qword [0x404000], 1`
const COUNT_ROUND: [u8; 10] = [0xF0, 0x48, 0x83, 0x04, 0x25, 0x00, 0x40, 0x40, 0x00, 0x01];

/// `jmp rsi`, and zeros up to the second gate in.
const GO_BACK: [u8; 16] = [0xFF, 0xE6, 0, 0, 0, 0, 0, 0, 0, 0, 0, 0, 0, 0, 0, 0];

/// `mov edi, 1`, `mov esi, 0x404000`, `mov edx, 8`, `mov eax, 1` (write), `syscall`; `xor edi,
/// edi`, `mov eax, 231` (exit_group), `syscall`.
const WRITE_COUNT: [u8; 31] = [
    0xBF, 0x01, 0x00, 0x00, 0x00, 0xBE, 0x00, 0x40, 0x40, 0x00, 0xBA, 0x08, 0x00, 0x00, 0x00, 0xB8,
    0x01, 0x00, 0x00, 0x00, 0x0F, 0x05, 0x31, 0xFF, 0xB8, 0xE7, 0x00, 0x00, 0x00, 0x0F, 0x05,
];

/// Appends an instruction whose opcode is followed by a number.
fn push_with_number(bytes: &mut Vec<u8>, opcode: u8, number: u32) -> Result<(), AllocError>
    ensures { OnOk result (bytes.new.items ≡ bytes.old.items ++ opcode ∷ words (number ∷ [])) }
{
    bytes.extend_from_slice(&[opcode])?;
    push_words(bytes, &[number])
}

/// The code: it makes the other threads, and each goes its rounds.
fn code(alloc: Global, threads: u32, rounds: u32) -> Result<Vec<u8>, NoMemory>
    requires { 1 ≤ threads }
    ensures { IfOk result (λ code. code.items ≡ generated_code threads rounds) }
{
    let mut code = Vec::new(alloc);
    push_with_number(&mut code, MOV_EBX, threads - 1)?;
    code.extend_from_slice(&SPAWN)?;
    push_with_number(&mut code, MOV_EBP, rounds)?;
    code.extend_from_slice(&ROUNDS)?;
    push_with_number(&mut code, CMP_EAX, threads - 1)?;
    code.extend_from_slice(&LEAVE)?;
    Ok(code)
}

/// The trusted text: it counts a round and goes back, or writes the count and ends the process.
fn text(alloc: Global) -> Result<Vec<u8>, NoMemory>
    ensures { IfOk result (λ text. text.items ≡ generated_text) }
{
    let mut way_in = [0; 12];
    gate_in(&mut way_in);
    let mut way_out = [0; 26];
    gate_out(&mut way_out);
    let mut text = Vec::from_slice(alloc, &way_in)?;
    text.extend_from_slice(&COUNT_ROUND)?;
    text.extend_from_slice(&way_out)?;
    text.extend_from_slice(&GO_BACK)?;
    text.extend_from_slice(&way_in)?;
    text.extend_from_slice(&WRITE_COUNT)?;
    Ok(text)
}

/// A part of one page.
fn page(vaddr: u64, flags: u32, bytes: Vec<u8>) -> Part
    ensures { result ≡ record { vaddr = vaddr; flags = flags; bytes = bytes; memsz = 4096 } }
{
    Part {
        vaddr,
        flags,
        bytes,
        memsz: PAGE_SIZE,
    }
}

/// A record of one page.
fn page_mark(kind: u32, start: u64) -> Mark
    ensures { result ≡ record { kind = kind; start = start; length = 4096 } }
{
    Mark {
        kind,
        start,
        length: PAGE_SIZE,
    }
}

/// The record of an entry.
fn entry(start: u64) -> Mark
    ensures { result ≡ record { kind = 3; start = start; length = 0 } }
{
    Mark {
        kind: TRUSTED_ENTRY,
        start,
        length: 0,
    }
}

/// The image of a program of `threads` threads, of which each goes `rounds` times into trusted text
/// and counts; the last to end writes the count, 8 bytes, low byte first.
pub fn make_image(alloc: Global, threads: u32, rounds: u32) -> Result<Vec<u8>, NoMemory>
    requires some_threads { 1 ≤ threads }
    requires few_threads { threads ≤ 8 }
    requires some_rounds { 1 ≤ rounds }
    requires few_rounds { rounds ≤ 1000 }
    ensures { IfOk result (λ bytes. bytes.items ≡ generated_image threads rounds) }
{
    let code = code(alloc, threads, rounds)?;
    let text = text(alloc)?;
    let parts = [
        Part {
            vaddr: CODE,
            flags: PF_R + PF_X,
            memsz: code.len() as u64,
            bytes: code,
        },
        page(TEXT, PF_R + PF_X, text),
        page(PLAIN, PF_R + PF_W, Vec::new(alloc)),
        page(TRUSTED, PF_R + PF_W, Vec::new(alloc)),
    ];
    let marks = [
        page_mark(TRUSTED_TEXT, TEXT),
        page_mark(TRUSTED_DATA, TRUSTED),
        entry(COUNT_ENTRY),
        entry(WRITE_ENTRY),
    ];
    lay_image(alloc, &parts, &marks, &[], CODE)
}

/// Every generated image has 8,424 bytes and is accepted, and can be started with 20 frames or more.
pub fn generated_startable()
    ensures length { (threads rounds : ℕ) → length (generated_image threads rounds) ≡ 8424 }
    ensures accepted { (threads rounds : ℕ) → IsAccepted (generated_image threads rounds) }
    ensures startable { (threads rounds budget frames : ℕ) → 20 ≤ frames → IsStartable (record {
      image = generated_image threads rounds;
      budget = budget;
      frames = frames;
    }) }
{}
