//! The program `erim`: inspects images for unsafe sequences that write PKRU, and runs them on an
//! emulated machine.
//!
//! `main` gives the program's words, the system's files and standard output to
//! `erim_commands::erim`, which does all that the program does, in several threads where the words
//! say so. Where the words mean no command, it also writes a usage to standard error.
#![tactic(auto)]

use command_words::USAGE;
use erim_commands::{NOT_UNDERSTOOD, OUT_OF_MEMORY, erim};
use erim_defs::NoMemory;
use erim_io::{FileStore, OutSink};
use std::env;
use std::io::ErrorKind;
use std::process::ExitCode;
use thread_runner::NoGate;

/// The program's words, or none where one isn't text.
fn given_words(rt: &HostRuntime) -> Result<Vec<String>, NoMemory> {
    match env::args(rt) {
        Ok(words) => Ok(words.collect(rt.alloc())?),
        Err(refused) if refused.kind() == ErrorKind::OutOfMemory => Err(NoMemory),
        Err(_not_text) => Ok(Vec::new(rt.alloc())),
    }
}

fn main(rt: HostRuntime) -> ExitCode {
    let Ok(words) = given_words(&rt) else {
        return ExitCode::from(OUT_OF_MEMORY);
    };
    let mut store = FileStore::new(rt.alloc(), &rt);
    let mut out = OutSink::new(&rt);
    let status = erim(
        &rt,
        rt.alloc(),
        words.as_slice(),
        &mut store,
        &mut out,
        &NoGate,
    );
    if status == NOT_UNDERSTOOD {
        // The answer is written already, so a usage that can't be written is no failure.
        let _ = eprint!(rt; "{USAGE}");
    }
    ExitCode::from(status)
}
