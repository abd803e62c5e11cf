//! Operands and options, read by `clap`.

ghost use Rattle.std.specs.Prelude.{◌≡◌, map, false, IfOk};
ghost use Rattle.std.specs.List.{AllByRecursion};
ghost use Rattle.std.specs.Str.{IsUtf8};
ghost use Rattle.std.specs.String.{string_bytes};
ghost use Rattle.clap.specs.Words.{app_of, rule_of};
ghost use Rattle.erim_defs.specs.Output.WordForms.{Given, given_by};
ghost use Rattle.erim_defs.specs.Output.Words.{text, value};
ghost use Rattle.command_words.specs.Clap.{slot_of, form_of, IsForm, slot_rule, operand_rule};
ghost use Rattle.command_words.specs.Clap.{option_rule, with_rules, app_for, HasGiven, IsRead};

use crate::slot::{Kind, Slot};
use clap::builder::ValueParser;
use clap::error::ErrorKind;
use clap::{Arg, ArgMatches, Command};
use erim_defs::NoMemory;
use std::alloc::{AllocError, Global};

/// The argument of a slot.
fn argument<'a>(alloc: Global, slot: &Slot) -> Arg<'a>
    ensures rule { rule_of result ≡ slot_rule (slot_of slot.now) }
    ensures local { result.global ≡ false }
{
    let arg = Arg::new(alloc, slot.name);
    match slot.kind {
        Kind::Name => arg,
        Kind::Number { least, most } => arg.value_parser(ValueParser::unsigned(least, most)),
    }
}

/// The argument of an operand.
fn operand<'a>(alloc: Global, slot: &Slot) -> Arg<'a>
    ensures rule { rule_of result ≡ operand_rule (slot_of slot.now) }
    ensures local { result.global ≡ false }
{
    argument(alloc, slot).required(true)
}

/// The argument of an option.
fn option<'a>(alloc: Global, slot: &Slot) -> Arg<'a>
    ensures rule { rule_of result ≡ option_rule (slot_of slot.now) }
    ensures local { result.global ≡ false }
{
    argument(alloc, slot).long(slot.name)
}

/// The command with these operands.
fn with_operands<'a>(
    alloc: Global,
    command: Command<'a>,
    operands: &[Slot],
) -> Result<Command<'a>, AllocError>
    ensures { IfOk result (λ grown. let rules = map operand_rule (map slot_of operands.now) in
        app_of grown ≡ with_rules (app_of command.entry) rules) }
{
    let mut command = command;
    for slot in operands {
        command = command.arg(operand(alloc, slot))?;
    }
    Ok(command)
}

/// The command with these options.
fn with_options<'a>(
    alloc: Global,
    command: Command<'a>,
    options: &[Slot],
) -> Result<Command<'a>, AllocError>
    ensures { IfOk result (λ grown. let rules = map option_rule (map slot_of options.now) in
        app_of grown ≡ with_rules (app_of command.entry) rules) }
{
    let mut command = command;
    for slot in options {
        command = command.arg(option(alloc, slot))?;
    }
    Ok(command)
}

/// The `clap` command of these operands and options, without its help.
fn command_for<'a>(
    alloc: Global,
    operands: &[Slot],
    options: &[Slot],
) -> Result<Command<'a>, AllocError>
    ensures { IfOk result (λ made. app_of made ≡ app_for (form_of operands.now options.now)) }
{
    let command = Command::new(alloc, "erim")
        .no_binary_name(true)
        .disable_help_flag(true);
    let command = with_operands(alloc, command, operands)?;
    with_options(alloc, command, options)
}

/// Says that each word is text, which proofs know only of a word that was borrowed.
fn check_text(words: &[String])
    ensures { AllByRecursion IsUtf8 (map string_bytes words.now) }
{
    for word in words {
        let _text = word.as_str();
    }
}

/// What the words give for these operands and options, or none where they don't fit.
///
/// Fails only where memory ran out.
pub(crate) fn read_operands<'a>(
    alloc: Global,
    operands: &[Slot],
    options: &[Slot],
    words: &'a [String],
) -> Result<Option<ArgMatches<'a>>, NoMemory>
    requires { IsForm (form_of operands.now options.now) }
    ensures { let form = form_of operands.now options.now in
        IfOk result (IsRead (given_by form (map string_bytes words.entry.now))) }
{
    check_text(words);
    let command = command_for(alloc, operands, options)?;
    match command.try_get_matches_from(words) {
        Ok(matches) => Ok(Some(matches)),
        Err(error) => match error.kind() {
            ErrorKind::OutOfMemory => Err(NoMemory),
            _ => Ok(None),
        },
    }
}

/// The word that was given for a slot, or the empty one.
pub(crate) fn text<'a>(matches: &ArgMatches<'a>, slot: &Slot) -> &'a str
    ensures { (given : Given) → HasGiven given matches.now
        → result.now ≡ text given (slot_of slot.now) }
{
    match matches.get_str(slot.name) {
        Some(word) => word,
        None => "",
    }
}

/// The number that was given for a slot, or the one that stands for none.
///
/// A word that was given for a number is one in the slot's range, below 2^64, since other words
/// aren't taken (`proofs/FitLemmas.antt`); so a word is always read, and `number_or` of the
/// definitions never takes its other number.
pub(crate) fn value(matches: &ArgMatches, slot: &Slot, standard: u64) -> u64
    ensures { (given : Given) → HasGiven given matches.now
        → result ≡ value given (slot_of slot.now) standard }
{
    match matches.get_str(slot.name) {
        Some(word) => word.parse::<u64>().unwrap_or(standard),
        None => standard,
    }
}
