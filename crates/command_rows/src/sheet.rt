//! Does the rows of a file.

use crate::doing::do_row;
use crate::row::Row;
use anyhow::Result;
use std::alloc::Global;
use std::rt::Files;
use std::sync::Wait;
use std::thread::Threads;
use test_rows::{RowFault, word};

/// Is there no row in a stretch of lines? Comments begin with `#`.
fn is_bare(stretch: &str) -> bool {
    for line in stretch.lines() {
        if !line.trim().is_empty() && !line.starts_with('#') {
            return false;
        }
    }
    true
}

/// Reads a row, and says the line that it can't take.
fn read_row(
    alloc: Global,
    stretch: &str,
    row: &mut Row,
    told: &mut String,
) -> Result<(), RowFault> {
    for line in stretch.lines() {
        if line.is_empty() || line.starts_with('#') {
            continue;
        }
        match row.take(alloc, line) {
            Err(RowFault::Shape(what)) => {
                writeln!(told, "{what}: {line}")?;
                return Ok(());
            }
            outcome => outcome?,
        }
    }
    Ok(())
}

/// Reads a row and does it, and answers its name.
fn try_row<R: Files + Threads + Wait + Sync>(
    alloc: Global,
    rt: &R,
    stretch: &str,
    told: &mut String,
) -> Result<String, RowFault> {
    let mut row = Row::new(alloc);
    read_row(alloc, stretch, &mut row, told)?;
    let name = row.name.clone()?;
    if !told.is_empty() {
        return Ok(name);
    }
    match row.lacks() {
        Some(what) => writeln!(told, "{what}")?,
        None => tell_fault(do_row(alloc, rt, row, told), told)?,
    }
    Ok(name)
}

/// Prints a fault, unless memory ran out.
fn tell_fault(outcome: Result<(), RowFault>, told: &mut String) -> Result<(), RowFault> {
    match outcome {
        Err(RowFault::Shape(what)) => Ok(writeln!(told, "{what}")?),
        outcome => outcome,
    }
}

/// A word that stands for a text in the rows after it.
#[derive(Drop)]
struct Name {
    name: String,
    text: String,
}

/// Takes the names of a stretch of lines `let NAME TEXT`, or answers that it is none.
fn take_names(alloc: Global, stretch: &str, names: &mut Vec<Name>) -> Result<bool, RowFault> {
    let mut is_taken = false;
    for line in stretch.lines() {
        if let Some(rest) = line.strip_prefix("let ") {
            let (name, text) = word(rest);
            names.push(Name {
                name: format!(in alloc; "{{{name}}}")?,
                text: String::from_str(alloc, text)?,
            })?;
            is_taken = true;
        }
    }
    Ok(is_taken)
}

/// A text with the texts of names in their places.
fn with_names(alloc: Global, text: &str, names: &[Name]) -> Result<String, RowFault> {
    let mut text = String::from_str(alloc, text)?;
    for Name { name, text: other } in names {
        text = text.replace(alloc, name.as_str(), other.as_str())?;
    }
    Ok(text)
}

/// A row of a table: its lines, with the cells in the places of `{1}`, `{2}` and so on. A cell may
/// go on in the next line, and `;` in it ends a line of the row.
fn with_cells(alloc: Global, lines: &str, cells: &str) -> Result<String, RowFault> {
    let cells = cells.replace(alloc, "\n", " ")?;
    let cells = cells.replace(alloc, ";", "\n")?;
    let mut text = String::from_str(alloc, lines)?;
    let mut number: u32 = 1;
    for cell in cells.as_str().split('|') {
        let place = format!(in alloc; "{{{number}}}")?;
        text = text.replace(alloc, place.as_str(), cell.trim())?;
        number = number.saturating_add(1);
    }
    Ok(text)
}

/// What became of the rows of a file.
#[derive(Drop)]
struct Count {
    rows: u32,
    wrong: u32,
}

/// Does a row, and prints it if it isn't as it says.
fn check_row<R: Files + Print + Threads + Wait + Sync + AllocGlobal>(
    rt: &R,
    file: &str,
    lines: &str,
    count: &mut Count,
) -> Result<()> {
    let alloc = rt.alloc();
    let mut told = String::new(alloc);
    let name = try_row(alloc, rt, lines, &mut told)?;
    if !told.is_empty() {
        count.wrong = count.wrong.saturating_add(1);
        print!(rt; "{file}: row {}: {}", name.as_str(), told.as_str())?;
    }
    count.rows = count.rows.saturating_add(1);
    Ok(())
}

/// Does a row, or the rows of a table, whose cells follow its lines after `= `.
fn check_stretch<R: Files + Print + Threads + Wait + Sync + AllocGlobal>(
    rt: &R,
    file: &str,
    stretch: &str,
    count: &mut Count,
) -> Result<()> {
    let Some((lines, table)) = stretch.split_once("\n= ") else {
        return check_row(rt, file, stretch, count);
    };
    for cells in table.split("\n= ") {
        let row = with_cells(rt.alloc(), lines, cells)?;
        check_row(rt, file, row.as_str(), count)?;
    }
    Ok(())
}

/// Does the rows of a file, prints each that isn't as it says, and how many there are. Answers
/// whether all are right and there are some.
pub fn check_sheet<R: Files + Print + Threads + Wait + Sync + AllocGlobal>(
    rt: &R,
    file: &str,
    text: &str,
) -> Result<bool> {
    let alloc = rt.alloc();
    let mut names = Vec::new(alloc);
    let mut count = Count { rows: 0, wrong: 0 };
    for stretch in text.split("\n\n") {
        if is_bare(stretch) || take_names(alloc, stretch, &mut names)? {
            continue;
        }
        let stretch = with_names(alloc, stretch, &names)?;
        check_stretch(rt, file, stretch.as_str(), &mut count)?;
    }
    println!(rt; "{file}: {} rows", count.rows)?;
    Ok(count.wrong == 0 && count.rows > 0)
}
