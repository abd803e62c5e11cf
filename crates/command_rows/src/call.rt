//! A command of a row: what is called, and what is to come.

use crate::held::Held;
use std::alloc::Global;
use test_rows::{RowFault, word};

/// What a command is to print.
#[derive(Drop)]
pub enum Text {
    /// The row doesn't say.
    Unsaid,
    /// This and nothing else.
    Whole(String),
    /// This and more.
    Begins(String),
    /// The status and the text of the command before.
    Same,
}

/// A command of a row.
#[derive(Drop)]
pub struct Call {
    /// The line that names it.
    pub line: String,
    pub words: Vec<String>,
    pub status: Option<u8>,
    pub text: Text,
    /// What the line of the end begins with, after `end `.
    pub end: Option<String>,
    /// What the store is to hold afterwards.
    pub held: Vec<Held>,
}

/// What a command answered and printed.
#[derive(Drop)]
pub struct Answer {
    pub status: u8,
    pub text: String,
}

impl Call {
    /// A command with its options, of which nothing is expected yet.
    pub fn new(alloc: Global, line: &str) -> Result<Call, RowFault> {
        Ok(Call {
            line: String::from_str(alloc, line)?,
            words: words_of(alloc, line)?,
            status: None,
            text: Text::Unsaid,
            end: None,
            held: Vec::new(alloc),
        })
    }

    /// Takes a line that says what is to come, or answers that it is none.
    pub fn take(&mut self, alloc: Global, name: &str, line: &str) -> Result<bool, RowFault> {
        let (_name, rest) = word(line);
        match name {
            "|" => self.push_whole(alloc, after_mark(line))?,
            "^" => self.push_begin(alloc, after_mark(line))?,
            "$" => self.push_last(alloc, after_mark(line))?,
            "same" if rest.is_empty() && matches!(self.text, Text::Unsaid) => {
                self.text = Text::Same;
            }
            "status" if self.status.is_none() => self.status = Some(status_of(rest)?),
            "ends" if self.end.is_none() => self.end = Some(String::from_str(alloc, rest)?),
            _ => return self.push_held(alloc, name, rest),
        }
        Ok(true)
    }

    /// Takes a line that says what the store is to hold, or answers that it is none.
    fn push_held(&mut self, alloc: Global, name: &str, rest: &str) -> Result<bool, RowFault> {
        match Held::of(alloc, name, rest)? {
            Some(held) => {
                self.held.push(held)?;
                Ok(true)
            }
            None => Ok(false),
        }
    }

    /// Takes a line of the whole text.
    fn push_whole(&mut self, alloc: Global, line: &str) -> Result<(), RowFault> {
        self.push_last(alloc, line)?;
        self.push_last(alloc, "\n")
    }

    /// Takes what the whole text ends with, without the end of a line.
    fn push_last(&mut self, alloc: Global, text: &str) -> Result<(), RowFault> {
        if matches!(self.text, Text::Unsaid) {
            self.text = Text::Whole(String::new(alloc));
        }
        match &mut self.text {
            Text::Whole(lines) => Ok(lines.push_str(text)?),
            _ => Err(RowFault::Shape("both a whole text and another")),
        }
    }

    /// Takes a line of those with which the text begins.
    pub fn push_begin(&mut self, alloc: Global, line: &str) -> Result<(), RowFault> {
        if matches!(self.text, Text::Unsaid) {
            self.text = Text::Begins(String::new(alloc));
        }
        match &mut self.text {
            Text::Begins(lines) => {
                lines.push_str(line)?;
                Ok(lines.push('\n')?)
            }
            _ => Err(RowFault::Shape("both a whole text and another")),
        }
    }

    /// Does the row say what the command answers and prints?
    pub fn is_complete(&self) -> bool {
        match &self.text {
            Text::Same => self.status.is_none(),
            Text::Unsaid => self.status.is_some() && self.end.is_some(),
            _ => self.status.is_some(),
        }
    }

    /// Is the answer, after another one, as the row says?
    pub fn is_met(&self, came: &Answer, before: &Answer) -> bool {
        let text = came.text.as_str();
        let is_text = match &self.text {
            Text::Unsaid => true,
            Text::Whole(lines) => text == lines.as_str(),
            Text::Begins(lines) => text.starts_with(lines.as_str()),
            Text::Same => text == before.text.as_str() && came.status == before.status,
        };
        is_text && self.is_status(came.status) && self.is_end(text)
    }

    fn is_status(&self, came: u8) -> bool {
        match self.status {
            Some(status) => came == status,
            None => true,
        }
    }

    fn is_end(&self, text: &str) -> bool {
        match &self.end {
            Some(end) => has_end(text, end.as_str()),
            None => true,
        }
    }
}

/// Does a line of the text say an end that begins so?
fn has_end(text: &str, end: &str) -> bool {
    for line in text.lines() {
        if let Some(told) = line.strip_prefix("end ") {
            if told.starts_with(end) {
                return true;
            }
        }
    }
    false
}

/// What comes after the mark of an expected line and the space after it.
fn after_mark(line: &str) -> &str {
    let (_mark, rest) = line.split_once(' ').unwrap_or((line, ""));
    rest
}

fn status_of(text: &str) -> Result<u8, RowFault> {
    text.parse::<u8>().map_err(|_| RowFault::Shape("no status"))
}

/// The words of a command: those after `words`, or else the command's with its files. It is done on
/// `image`, or on `out` where the second word says so; a run saves `journal` and a replay reads it,
/// and a rewritten image is saved as `out`. A run is by one worker, if the options say no other
/// number.
fn words_of(alloc: Global, line: &str) -> Result<Vec<String>, RowFault> {
    let (command, rest) = word(line);
    let (file, options) = match word(rest) {
        ("out", options) => ("out", options),
        _ => ("image", rest),
    };
    let text = match command {
        "words" => format!(in alloc; "{rest}"),
        "run" if !options.contains("--workers") => {
            format!(in alloc; "erim run {file} journal --workers 1 {options}")
        }
        "run" | "replay" => format!(in alloc; "erim {command} {file} journal {options}"),
        "inspect" | "disasm" => format!(in alloc; "erim {command} {file} {options}"),
        "rewrite" => format!(in alloc; "erim rewrite image out {rest}"),
        "gen" => format!(in alloc; "erim gen {rest} image"),
        "soak" => format!(in alloc; "erim soak {rest} journal"),
        _ => return Err(RowFault::Shape("no such command")),
    };
    split_words(alloc, text?.as_str())
}

/// The words of a text; `""` is an empty word.
fn split_words(alloc: Global, text: &str) -> Result<Vec<String>, RowFault> {
    let mut words = Vec::new(alloc);
    for word in text.split_whitespace() {
        let word = if word == "\"\"" { "" } else { word };
        words.push(String::from_str(alloc, word)?)?;
    }
    Ok(words)
}
