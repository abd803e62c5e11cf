//! What is printed of a generated image, and of a run of one.

ghost use Rattle.std.specs.Prelude.{◌≡◌, ◌++◌, OnOk, IfOk};
ghost use Rattle.std.specs.String.{string_bytes};
ghost use Rattle.erim_defs.specs.Output.GeneratedTexts.{byte_text, bytes_text, gen_line, soak_line};
ghost use Rattle.erim_process.specs.ProcessValue.{state_of};

use crate::ends::{end_text, escape_text};
use erim_defs::NoMemory;
use erim_process::Process;
use image_gen::{seed_rounds, seed_threads};
use std::alloc::{AllocError, Global};

/// Appends the two hexadecimal digits of a byte.
fn push_byte(text: &mut String, byte: u8) -> Result<(), AllocError>
    ensures { OnOk result (string_bytes text.new ≡ string_bytes text.old ++ byte_text byte) }
{
    write!(text, "{byte:02x}")
}

/// Appends two hexadecimal digits for each byte.
fn push_bytes(text: &mut String, bytes: &[u8]) -> Result<(), AllocError>
    ensures { OnOk result (string_bytes text.new ≡ string_bytes text.old ++ bytes_text bytes.now) }
{
    for byte in bytes {
        push_byte(text, *byte)?;
    }
    Ok(())
}

/// The line of an image of a given number of bytes that was generated from a seed.
#[tactic(auto, unfolding(erim_defs::specs::Output::GeneratedTexts::gen_line))]
pub fn gen_line(alloc: Global, seed: u64, count: u64) -> Result<Vec<u8>, NoMemory>
    ensures { IfOk result (λ line. line.items ≡ gen_line seed count) }
{
    let threads = seed_threads(seed);
    let rounds = seed_rounds(seed);
    let line = format!(in alloc; "gen {seed} threads {threads} rounds {rounds} bytes {count}\n")?;
    Ok(line.into_bytes())
}

/// The line of a run of the image of a seed.
#[tactic(auto, unfolding(erim_defs::specs::Output::GeneratedTexts::soak_line))]
pub fn soak_line(alloc: Global, seed: u64, process: &Process) -> Result<Vec<u8>, NoMemory>
    ensures { IfOk result (λ line. line.items ≡ soak_line seed (state_of process.now)) }
{
    let threads = seed_threads(seed);
    let rounds = seed_rounds(seed);
    let end = end_text(alloc, process.end())?;
    let escape = escape_text(alloc, process.escape())?;
    let mut line = format!(in alloc; "soak {seed} threads {threads} rounds {rounds} output ")?;
    push_bytes(&mut line, process.output())?;
    writeln!(line, " end {end} escape {escape}")?;
    Ok(line.into_bytes())
}
