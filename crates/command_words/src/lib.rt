//! The program's words: which command they mean, with its names and its numbers.
//!
//! `command_of` gives exactly the command that the definition of the same name finds in the words
//! (`erim_defs/specs/Output/Words.antt`), and each number in the range of its option. After a
//! command's word, operands and options stand in any order (`WordForms.antt`); `clap` reads them,
//! by one `clap` command for each of ours, without its help (`reading.rt`). The command's word
//! alone is compared here.
#![tactic(auto)]

mod command;
mod reading;
mod slot;
mod words;

pub use command::Command;
pub use words::{USAGE, command_of};
