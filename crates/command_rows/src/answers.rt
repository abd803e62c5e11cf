//! Tables of system calls: a row's program makes the calls of a table and writes out their answers.

use std::alloc::Global;
use test_rows::{RowFault, decimal, one_number};

/// How many numbers a call has in the table: its own, and RDI, RSI, RDX and R10.
const NUMBERS: usize = 5;

/// Appends 8 bytes, low byte first.
fn push_number(bytes: &mut Vec<u8>, number: Option<u64>) -> Result<(), RowFault> {
    match number {
        Some(number) => Ok(bytes.extend_from_slice(&number.to_le_bytes())?),
        None => Err(RowFault::Shape("no number")),
    }
}

/// Appends the numbers of a call; those that aren't given are 0.
fn push_call(table: &mut Vec<u8>, call: &str) -> Result<(), RowFault> {
    let mut count: usize = 0;
    for digits in call.split_whitespace() {
        push_number(table, one_number(digits))?;
        count = count.saturating_add(1);
    }
    for _number in count..NUMBERS {
        push_number(table, Some(0))?;
    }
    Ok(())
}

/// The number of an answer: in hexadecimal digits, or a minus and an error number in decimal ones.
fn answer_of(text: &str) -> Option<u64> {
    match text.strip_prefix('-') {
        Some(error) => Some(0_u64.wrapping_sub(u64::from(decimal(error)?))),
        None => one_number(text),
    }
}

/// The table of the calls of a line, `CALL = ANSWER` with commas between; the answers are appended.
pub fn table_of(alloc: Global, calls: &str, answers: &mut Vec<u8>) -> Result<Vec<u8>, RowFault> {
    let mut table = Vec::new(alloc);
    for line in calls.split(',') {
        let Some((call, answer)) = line.split_once('=') else {
            return Err(RowFault::Shape("no answer"));
        };
        push_call(&mut table, call)?;
        push_number(answers, answer_of(answer.trim()))?;
    }
    Ok(table)
}
