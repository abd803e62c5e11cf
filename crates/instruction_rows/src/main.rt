//! The program `instruction_rows`: decodes and encodes the instructions of rows, and compares their
//! lines, their canonical encodings and their parts with the rows.
//!
//! Its words, which `args` has, are files, each with a table of its own (`tables`); or `longest`,
//! for the line of the greatest parts, which `stdout` has; or `random`, for 3,000 byte strings that
//! are spread like random ones, whose canonical encodings are looked at once more (`random`). With
//! `spellings` it prints those encodings, for `bench/lengths.sh`.
//!
//! It prints a line for each file, with the number of its rows, and above it each row that isn't
//! so. Then its status is 1.
#![tactic(auto)]

mod longest;
mod random;
mod reading;
mod tables;

use crate::longest::print_longest;
use crate::random::check_random;
use crate::tables::is_row;
use anyhow::{Context, Result};
use std::process::ExitCode;
use std::rt::{Env, Files};
use std::{env, fs};

/// Does the rows of a file; comments begin with `#`.
fn check_file<R: Files + Print + AllocGlobal>(rt: &R, file: &str) -> Result<bool> {
    let text = fs::read_to_string(rt, file).context(format_args!("reading {file}"))?;
    let mut count = 0u32;
    let mut is_right = true;
    for row in text.lines() {
        if row.starts_with('#') {
            continue;
        }
        count = count.saturating_add(1);
        if !is_row(rt.alloc(), file, row)? {
            println!(rt; "{file}: isn't so: {row}")?;
            is_right = false;
        }
    }
    println!(rt; "{file}: {count} rows")?;
    Ok(is_right && count > 0)
}

/// Does what a word says.
fn check_word<R: Files + Print + AllocGlobal>(rt: &R, word: &str) -> Result<bool> {
    match word {
        "longest" => print_longest(rt),
        "random" => check_random(rt, false),
        "spellings" => check_random(rt, true),
        file => check_file(rt, file),
    }
}

/// Does what each word says. Answers whether there is a word and all is right.
fn check_words<R: Files + Env + Print + AllocGlobal>(rt: &R) -> Result<bool> {
    let mut count = 0u32;
    let mut is_right = true;
    for word in env::args(rt)?.skip(1) {
        let is_word = check_word(rt, word.as_str())?;
        is_right = is_right && is_word;
        count = count.saturating_add(1);
    }
    Ok(is_right && count > 0)
}

fn main(rt: HostRuntime) -> Result<ExitCode> {
    if check_words(&rt)? {
        Ok(ExitCode::SUCCESS)
    } else {
        Ok(ExitCode::FAILURE)
    }
}
