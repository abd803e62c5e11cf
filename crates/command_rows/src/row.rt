//! A row: files, and commands on them with what is to come.

use crate::answers::table_of;
use crate::call::Call;
use crate::doing::printable;
use std::alloc::Global;
use test_rows::{RowFault, RowFile, bytes_of, decimal, push_bytes, word};

/// How much a command may print where a row doesn't say: an output of the greatest size, and the
/// report of it.
const ROOM: u32 = 2_097_152;

/// A row as its lines give it.
#[derive(Drop)]
pub struct Row {
    pub name: String,
    pub file: RowFile,
    /// The file of this folder that holds the image, where the lines don't give it.
    pub stored: Option<String>,
    /// The journal that is there from the start.
    pub journal: Option<Vec<u8>>,
    /// Which calls on the store fail, and which puts.
    pub failing: Vec<u32>,
    pub failing_puts: Vec<u32>,
    /// How much a command may print.
    pub room: u32,
    /// What the calls of the table are to answer.
    answers: Vec<u8>,
    pub calls: Vec<Call>,
}

impl Row {
    /// A row of which nothing is said yet.
    pub fn new(alloc: Global) -> Row {
        Row {
            name: String::new(alloc),
            file: RowFile::new(alloc),
            stored: None,
            journal: None,
            failing: Vec::new(alloc),
            failing_puts: Vec::new(alloc),
            room: ROOM,
            answers: Vec::new(alloc),
            calls: Vec::new(alloc),
        }
    }

    /// Takes a line.
    pub fn take(&mut self, alloc: Global, line: &str) -> Result<(), RowFault> {
        let (name, rest) = word(line);
        match name {
            "row" if self.name.is_empty() => Ok(self.name.push_str(rest)?),
            _ if self.name.is_empty() => Err(RowFault::Shape("no name before")),
            "also" if !self.calls.is_empty() => self.push_call(alloc, rest),
            _ if self.calls.is_empty() => self.take_first(alloc, line),
            "answers" => self.expect_answers(alloc),
            _ => self.take_expected(alloc, name, line),
        }
    }

    /// Takes a line of the files, of what fails, or the first command.
    fn take_first(&mut self, alloc: Global, line: &str) -> Result<(), RowFault> {
        let (name, rest) = word(line);
        match name {
            "image" => self.stored = Some(String::from_str(alloc, rest)?),
            "journal" => self.push_journal(alloc, rest)?,
            "fails" => push_numbers(&mut self.failing, rest)?,
            "puts" => push_numbers(&mut self.failing_puts, rest)?,
            "room" => self.room = decimal(rest).unwrap_or(0),
            "call" => self.push_table(alloc, rest)?,
            _ => {
                if !self.file.take(alloc, name, rest)? {
                    self.push_call(alloc, line)?;
                }
            }
        }
        Ok(())
    }

    /// Goes on with the journal.
    fn push_journal(&mut self, alloc: Global, rest: &str) -> Result<(), RowFault> {
        match &mut self.journal {
            Some(journal) => push_bytes(alloc, journal, rest),
            None => {
                self.journal = Some(bytes_of(alloc, rest)?);
                Ok(())
            }
        }
    }

    /// Goes on with the table of calls at the end of the last segment.
    fn push_table(&mut self, alloc: Global, calls: &str) -> Result<(), RowFault> {
        let table = table_of(alloc, calls, &mut self.answers)?;
        self.file.draft.extend_last(&table)
    }

    fn push_call(&mut self, alloc: Global, line: &str) -> Result<(), RowFault> {
        let call = Call::new(alloc, line)?;
        Ok(self.calls.push(call)?)
    }

    /// The last command is to print the answers of the table first.
    fn expect_answers(&mut self, alloc: Global) -> Result<(), RowFault> {
        let count = self.answers.len();
        let text = printable(alloc, &self.answers)?;
        let lines = format!(in alloc; "output {count}\n{}", text.as_str())?;
        match self.calls.last_mut() {
            Some(call) => call.push_begin(alloc, lines.as_str()),
            None => Ok(()),
        }
    }

    /// Takes a line that says what comes of the last command.
    fn take_expected(&mut self, alloc: Global, name: &str, line: &str) -> Result<(), RowFault> {
        let is_taken = match self.calls.last_mut() {
            Some(call) => call.take(alloc, name, line)?,
            None => false,
        };
        if is_taken {
            Ok(())
        } else {
            Err(RowFault::Shape("not understood"))
        }
    }

    /// What the row lacks, if anything.
    pub fn lacks(&self) -> Option<&'static str> {
        if self.name.is_empty() {
            return Some("no name");
        }
        if self.calls.is_empty() {
            return Some("no command");
        }
        if self.stored.is_some() != self.file.is_empty() {
            return Some("no image, or two");
        }
        if !self.calls.iter().all(|call| call.is_complete()) {
            return Some("a command without a status or a text");
        }
        None
    }
}

/// Appends the decimal numbers of a text.
fn push_numbers(numbers: &mut Vec<u32>, text: &str) -> Result<(), RowFault> {
    for word in text.split_whitespace() {
        match decimal(word) {
            Some(number) => numbers.push(number)?,
            None => return Err(RowFault::Shape("no number")),
        }
    }
    Ok(())
}
