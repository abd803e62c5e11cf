//! What words mean, as text: a command with its names and numbers.

use command_words::{Command, command_of};
use std::alloc::Global;
use test_rows::RowFault;

/// The words of a line; `""` is an empty word.
pub fn words_of(alloc: Global, line: &str) -> Result<Vec<String>, RowFault> {
    let mut words = Vec::new(alloc);
    for word in line.split_whitespace() {
        let word = if word == "\"\"" { "" } else { word };
        words.push(String::from_str(alloc, word)?)?;
    }
    Ok(words)
}

/// A name, which is shown as `""` where it is empty.
fn shown(name: &str) -> &str {
    if name.is_empty() { "\"\"" } else { name }
}

/// The command that words mean, with its names and numbers, or `none`.
pub fn meaning_of(alloc: Global, words: &[String]) -> Result<String, RowFault> {
    match command_of(alloc, words)? {
        Some(command) => command_text(alloc, &command),
        None => Ok(String::from_str(alloc, "none")?),
    }
}

/// A command with its names and numbers.
fn command_text(alloc: Global, command: &Command) -> Result<String, RowFault> {
    let mut text = String::new(alloc);
    match *command {
        Command::Inspect { image } => write!(text, "inspect {}", shown(image))?,
        Command::Disasm { image } => write!(text, "disasm {}", shown(image))?,
        Command::Run {
            image,
            journal,
            workers,
            steps,
            frames,
        } => {
            let (image, journal) = (shown(image), shown(journal));
            write!(text, "run {image} {journal} {workers} {steps} {frames}")?;
        }
        Command::Replay { image, journal } => {
            write!(text, "replay {} {}", shown(image), shown(journal))?;
        }
        Command::Rewrite { image, out } => {
            write!(text, "rewrite {} {}", shown(image), shown(out))?;
        }
        Command::Gen { seed, out } => write!(text, "gen {seed} {}", shown(out))?,
        Command::Soak { seed, journal } => write!(text, "soak {seed} {}", shown(journal))?,
    }
    Ok(text)
}
