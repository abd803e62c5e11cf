//! The program `command_rows`: does the rows of the files that it is given, each an image and
//! commands of `erim` on it with the status and the text that are to come.
//!
//! It prints a line for each file, with the number of its rows, and above it each row that isn't
//! understood, that doesn't say what is to come, or of which something else comes. Then its status
//! is 1, as it is where a file has no rows or no file is given. `data/README.txt` says how a row is
//! written, and `args` names the files.
#![tactic(auto)]

mod answers;
mod call;
mod doing;
mod held;
mod row;
mod sheet;

use crate::sheet::check_sheet;
use anyhow::{Context, Result};
use std::process::ExitCode;
use std::rt::{Env, Files};
use std::sync::Wait;
use std::thread::Threads;
use std::{env, fs};

/// Does the rows of each file that a word names. Answers whether there is a file and all are right.
fn check_files<R: Files + Env + Print + Threads + Wait + Sync + AllocGlobal>(
    rt: &R,
) -> Result<bool> {
    let mut count = 0u32;
    let mut is_right = true;
    for name in env::args(rt)?.skip(1) {
        let text = fs::read_to_string(rt, name.as_str()).context(format_args!(
            "reading {}",
            name.as_str()
        ))?;
        let is_sheet = check_sheet(rt, name.as_str(), text.as_str())?;
        is_right = is_right && is_sheet;
        count = count.saturating_add(1);
    }
    Ok(is_right && count > 0)
}

fn main(rt: HostRuntime) -> Result<ExitCode> {
    if check_files(&rt)? {
        Ok(ExitCode::SUCCESS)
    } else {
        Ok(ExitCode::FAILURE)
    }
}
