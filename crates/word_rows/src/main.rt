//! The program `word_rows`: asks `command_of` what the words of each row mean, and compares it with
//! the row.
//!
//! It prints a line for each file that `args` names, with the number of its rows, and above it each
//! row that means something else. Then its status is 1, as it is where a file has no rows or no
//! file is given.
#![tactic(auto)]

mod meaning;

use crate::meaning::{meaning_of, words_of};
use anyhow::{Context, Result};
use std::process::ExitCode;
use std::rt::{Env, Files};
use std::{env, fs};

/// Does the row, words and a meaning with `|` between them, mean what it says? Prints it if not.
fn check_row<R: Print + AllocGlobal>(rt: &R, row: &str) -> Result<bool> {
    let alloc = rt.alloc();
    let (line, expected) = row.split_once('|').unwrap_or((row, ""));
    let words = words_of(alloc, line)?;
    let meaning = meaning_of(alloc, words.as_slice())?;
    let is_right = meaning.as_str() == expected.trim();
    if !is_right {
        println!(rt; "{row}: means {}", meaning.as_str())?;
    }
    Ok(is_right)
}

/// Does the rows of a file; comments begin with `#`.
fn check_rows<R: Print + AllocGlobal>(rt: &R, file: &str, text: &str) -> Result<bool> {
    let mut count = 0u32;
    let mut is_right = true;
    for row in text.lines() {
        if !row.starts_with('#') {
            let is_row = check_row(rt, row)?;
            is_right = is_right && is_row;
            count = count.saturating_add(1);
        }
    }
    println!(rt; "{file}: {count} rows")?;
    Ok(is_right && count > 0)
}

/// Does the rows of each file that a word names. Answers whether there is a file and all are right.
fn check_files<R: Files + Env + Print + AllocGlobal>(rt: &R) -> Result<bool> {
    let mut count = 0u32;
    let mut is_right = true;
    for name in env::args(rt)?.skip(1) {
        let name = name.as_str();
        let text = fs::read_to_string(rt, name).context(format_args!("reading {name}"))?;
        let is_file = check_rows(rt, name, text.as_str())?;
        is_right = is_right && is_file;
        count = count.saturating_add(1);
    }
    Ok(is_right && count > 0)
}

fn main(rt: HostRuntime) -> Result<ExitCode> {
    if check_files(&rt)? {
        Ok(ExitCode::SUCCESS)
    } else {
        Ok(ExitCode::FAILURE)
    }
}
