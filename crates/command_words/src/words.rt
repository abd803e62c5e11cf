//! What the program's words mean.

ghost use Rattle.std.specs.Prelude.{◌≡◌, map, find, bytes_eq, IfOk, IfSome};
ghost use Rattle.std.specs.Option.{option_map, option_and_then};
ghost use Rattle.std.specs.String.{string_bytes};
ghost use Rattle.erim_defs.specs.Output.Words.{command_by, command_of, usages, inspect_usage};
ghost use Rattle.erim_defs.specs.Output.Words.{disasm_usage, run_usage, replay_usage, gen_usage};
ghost use Rattle.erim_defs.specs.Output.Words.{rewrite_usage, soak_usage};
ghost use Rattle.command_words.specs.Commands.{HasNumbers, meaning};

use crate::command::Command;
use crate::reading::{read_operands, text, value};
use crate::slot::{Kind, Slot};
use erim_defs::NoMemory;
use erim_defs::limits::{
    LEAST_FRAMES, MOST_FRAMES, MOST_STEPS, MOST_WORKERS, USUAL_FRAMES, USUAL_STEPS, USUAL_WORKERS,
};
use std::alloc::Global;

/// The commands with their operands and options: what is shown where the words mean none.
pub const USAGE: &str = "\
usage: erim inspect IMAGE
       erim disasm IMAGE
       erim run IMAGE JOURNAL [--workers N] [--steps N] [--frames N]
       erim replay IMAGE JOURNAL
       erim rewrite IMAGE OUT
       erim gen SEED OUT
       erim soak SEED JOURNAL
workers: 1 to 8, or 4 if not given
steps: 1 to 4,194,304, or 1,000,000 if not given
frames: 64 to 4,096, or 1,024 if not given
SEED: below 2^64
Numbers are decimal digits, without commas. Options may stand before operands, and --workers=N is
--workers N. After -- each word is an operand.
";

const IMAGE: Slot = Slot {
    name: "IMAGE",
    kind: Kind::Name,
};

const JOURNAL: Slot = Slot {
    name: "JOURNAL",
    kind: Kind::Name,
};

const OUT: Slot = Slot {
    name: "OUT",
    kind: Kind::Name,
};

const SEED: Slot = Slot {
    name: "SEED",
    kind: Kind::Number {
        least: 0,
        most: u64::MAX,
    },
};

const WORKERS: Slot = Slot {
    name: "workers",
    kind: Kind::Number {
        least: 1,
        most: MOST_WORKERS as u64,
    },
};

const STEPS: Slot = Slot {
    name: "steps",
    kind: Kind::Number {
        least: 1,
        most: MOST_STEPS as u64,
    },
};

const FRAMES: Slot = Slot {
    name: "frames",
    kind: Kind::Number {
        least: LEAST_FRAMES as u64,
        most: MOST_FRAMES as u64,
    },
};

/// The workers of `run` if its words give none.
const DEFAULT_WORKERS: u64 = USUAL_WORKERS as u64;

/// Its steps then.
const DEFAULT_STEPS: u64 = USUAL_STEPS as u64;

/// Its frames.
const DEFAULT_FRAMES: u64 = USUAL_FRAMES as u64;

/// The command `inspect` with its words.
fn inspect_of<'a>(alloc: Global, words: &'a [String]) -> Result<Option<Command<'a>>, NoMemory>
    ensures meant { IfOk result (λ command.
        option_map meaning command ≡ command_by (map string_bytes words.entry.now) inspect_usage) }
    ensures numbers { IfOk result (λ command. IfSome command HasNumbers) }
{
    match read_operands(alloc, &[IMAGE], &[], words)? {
        Some(found) => Ok(Some(Command::Inspect {
            image: text(&found, &IMAGE),
        })),
        None => Ok(None),
    }
}

/// The command `disasm` with its words.
fn disasm_of<'a>(alloc: Global, words: &'a [String]) -> Result<Option<Command<'a>>, NoMemory>
    ensures meant { IfOk result (λ command.
        option_map meaning command ≡ command_by (map string_bytes words.entry.now) disasm_usage) }
    ensures numbers { IfOk result (λ command. IfSome command HasNumbers) }
{
    match read_operands(alloc, &[IMAGE], &[], words)? {
        Some(found) => Ok(Some(Command::Disasm {
            image: text(&found, &IMAGE),
        })),
        None => Ok(None),
    }
}

/// The command `run` with its words.
fn run_of<'a>(alloc: Global, words: &'a [String]) -> Result<Option<Command<'a>>, NoMemory>
    ensures meant { IfOk result (λ command.
        option_map meaning command ≡ command_by (map string_bytes words.entry.now) run_usage) }
    ensures numbers { IfOk result (λ command. IfSome command HasNumbers) }
{
    match read_operands(alloc, &[IMAGE, JOURNAL], &[WORKERS, STEPS, FRAMES], words)? {
        Some(found) => Ok(Some(Command::Run {
            image: text(&found, &IMAGE),
            journal: text(&found, &JOURNAL),
            workers: value(&found, &WORKERS, DEFAULT_WORKERS) as u8,
            steps: value(&found, &STEPS, DEFAULT_STEPS) as u32,
            frames: value(&found, &FRAMES, DEFAULT_FRAMES) as u32,
        })),
        None => Ok(None),
    }
}

/// The command `replay` with its words.
fn replay_of<'a>(alloc: Global, words: &'a [String]) -> Result<Option<Command<'a>>, NoMemory>
    ensures meant { IfOk result (λ command.
        option_map meaning command ≡ command_by (map string_bytes words.entry.now) replay_usage) }
    ensures numbers { IfOk result (λ command. IfSome command HasNumbers) }
{
    match read_operands(alloc, &[IMAGE, JOURNAL], &[], words)? {
        Some(found) => Ok(Some(Command::Replay {
            image: text(&found, &IMAGE),
            journal: text(&found, &JOURNAL),
        })),
        None => Ok(None),
    }
}

/// The command `rewrite` with its words.
fn rewrite_of<'a>(alloc: Global, words: &'a [String]) -> Result<Option<Command<'a>>, NoMemory>
    ensures meant { IfOk result (λ command.
        option_map meaning command ≡ command_by (map string_bytes words.entry.now) rewrite_usage) }
    ensures numbers { IfOk result (λ command. IfSome command HasNumbers) }
{
    match read_operands(alloc, &[IMAGE, OUT], &[], words)? {
        Some(found) => Ok(Some(Command::Rewrite {
            image: text(&found, &IMAGE),
            out: text(&found, &OUT),
        })),
        None => Ok(None),
    }
}

/// The command `gen` with its words.
fn gen_of<'a>(alloc: Global, words: &'a [String]) -> Result<Option<Command<'a>>, NoMemory>
    ensures meant { IfOk result (λ command.
        option_map meaning command ≡ command_by (map string_bytes words.entry.now) gen_usage) }
    ensures numbers { IfOk result (λ command. IfSome command HasNumbers) }
{
    match read_operands(alloc, &[SEED, OUT], &[], words)? {
        Some(found) => Ok(Some(Command::Gen {
            seed: value(&found, &SEED, 0),
            out: text(&found, &OUT),
        })),
        None => Ok(None),
    }
}

/// The command `soak` with its words.
fn soak_of<'a>(alloc: Global, words: &'a [String]) -> Result<Option<Command<'a>>, NoMemory>
    ensures meant { IfOk result (λ command.
        option_map meaning command ≡ command_by (map string_bytes words.entry.now) soak_usage) }
    ensures numbers { IfOk result (λ command. IfSome command HasNumbers) }
{
    match read_operands(alloc, &[SEED, JOURNAL], &[], words)? {
        Some(found) => Ok(Some(Command::Soak {
            seed: value(&found, &SEED, 0),
            journal: text(&found, &JOURNAL),
        })),
        None => Ok(None),
    }
}

/// The command of this word, with the words after it.
fn command_named<'a>(
    alloc: Global,
    word: &str,
    words: &'a [String],
) -> Result<Option<Command<'a>>, NoMemory>
    ensures meant { IfOk result (λ command. let others = map string_bytes words.entry.now in
        option_map meaning command
        ≡ option_and_then (command_by others) (find (λ u. bytes_eq word.now u.word) usages)) }
    ensures numbers { IfOk result (λ command. IfSome command HasNumbers) }
{
    if word == "inspect" {
        return inspect_of(alloc, words);
    }
    if word == "disasm" {
        return disasm_of(alloc, words);
    }
    if word == "run" {
        return run_of(alloc, words);
    }
    if word == "replay" {
        return replay_of(alloc, words);
    }
    if word == "rewrite" {
        return rewrite_of(alloc, words);
    }
    if word == "gen" {
        return gen_of(alloc, words);
    }
    if word == "soak" {
        return soak_of(alloc, words);
    }
    Ok(None)
}

/// The command that the words mean, if they mean one. The first word is the program's name,
/// whatever it is.
///
/// Fails only where memory ran out.
#[tactic(auto, unfolding(erim_defs::specs::Output::Words::command_of))]
pub fn command_of<'a>(alloc: Global, words: &'a [String]) -> Result<Option<Command<'a>>, NoMemory>
    ensures meant { IfOk result (λ command.
        option_map meaning command ≡ command_of (map string_bytes words.entry.now)) }
    ensures numbers { IfOk result (λ command. IfSome command HasNumbers) }
{
    match words {
        [_program, command, others @ ..] => command_named(alloc, command.as_str(), others),
        _ => Ok(None),
    }
}
