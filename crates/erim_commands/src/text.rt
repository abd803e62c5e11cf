//! The lines that the program prints where it does nothing.

ghost use Rattle.std.specs.Prelude.{◌≡◌, ◌++◌, IfOk, codes};
ghost use Rattle.std.specs.Fmt.{decimal};
ghost use Rattle.std.specs.String.{string_bytes};
ghost use Rattle.erim_defs.specs.Output.RewriteTexts.{rewrite_text, why_text};
ghost use Rattle.erim_defs.specs.Output.Texts.{error_line, fault_text, journal_fault_text};
ghost use Rattle.erim_commands.specs.CallParts.{fault_of};
ghost use Rattle.erim_commands.specs.Replies.{break_text, start_text};

use erim_defs::{ImageFault, JournalFault, NoMemory, Why};
use erim_process::StartFault;
use overlap_rewrite::RewriteFault;
use report_text::{address_text, kind_text};
use std::alloc::{AllocError, Global};
use thread_runner::ReplayFault;

/// The line that says what is wrong with one of the things of an image.
#[tactic(auto, unfolding(erim_defs::specs::Output::Texts::error_line))]
fn indexed_line(alloc: Global, thing: &str, index: u32, wrong: &str) -> Result<String, AllocError>
    ensures { IfOk result (λ text. string_bytes text
        ≡ error_line (codes "image " ++ thing.now ++ codes " " ++ decimal index ++ wrong.now)) }
{
    format!(in alloc; "erim: image {thing} {index}{wrong}\n")
}

/// The line that names the fault of an image, unless memory runs out.
#[tactic(auto, unfolding(erim_defs::specs::Output::Texts::error_line))]
fn named_fault(alloc: Global, fault: &ImageFault) -> Result<String, AllocError>
    ensures { IfOk result (λ text. string_bytes text ≡ error_line (fault_text fault.now)) }
{
    match fault {
        ImageFault::Short { at } => format!(in alloc; "erim: image short at {at}\n"),
        ImageFault::Magic => format!(in alloc; "erim: image magic\n"),
        ImageFault::Class => format!(in alloc; "erim: image class\n"),
        ImageFault::FileType => format!(in alloc; "erim: image type\n"),
        ImageFault::Machine => format!(in alloc; "erim: image machine\n"),
        ImageFault::HeaderSize => format!(in alloc; "erim: image header size\n"),
        ImageFault::TooMany { count } => format!(in alloc; "erim: image headers {count}\n"),
        ImageFault::NotStatic { index } => indexed_line(alloc, "header", *index, " not static"),
        ImageFault::SegmentRange { index } => indexed_line(alloc, "segment", *index, " range"),
        ImageFault::SharedPage { index } => indexed_line(
            alloc,
            "segment",
            *index,
            " shares a page",
        ),
        ImageFault::NoteShape { at } => format!(in alloc; "erim: image note at {at}\n"),
        ImageFault::NoteVersion => format!(in alloc; "erim: image note version\n"),
        ImageFault::BadRecord { index } => format!(in alloc; "erim: image record {index}\n"),
        ImageFault::TextNotExec { index } => indexed_line(alloc, "record", *index, " text"),
        ImageFault::DataRange { index } => indexed_line(alloc, "record", *index, " data"),
        ImageFault::EntryNotTrusted { index } => indexed_line(alloc, "record", *index, " entry"),
        ImageFault::BadFunction { index } => format!(in alloc; "erim: image function {index}\n"),
        ImageFault::EntryPoint => format!(in alloc; "erim: image entry point\n"),
        // No caller names out of memory, which has a status and no line.
        ImageFault::Memory => format!(in alloc; "erim: out of memory\n"),
    }
}

/// The line that names the fault of an image.
pub fn fault_line(alloc: Global, fault: &ImageFault) -> Result<String, NoMemory>
    ensures { IfOk result (λ text. string_bytes text ≡ error_line (fault_text fault.now)) }
{
    Ok(named_fault(alloc, fault)?)
}

/// The line that says how many frames an image needs.
#[tactic(auto, unfolding(erim_defs::specs::Output::Texts::error_line))]
fn frames_line(alloc: Global, needed: u32) -> Result<String, AllocError>
    ensures { IfOk result (λ text. string_bytes text
        ≡ error_line (start_text (StartFault.TooFewFrames needed))) }
{
    format!(in alloc; "erim: image needs {needed} frames\n")
}

/// The line that names the cause that keeps an image from starting, unless memory runs out.
#[tactic(auto, unfolding(erim_defs::specs::Output::Texts::error_line))]
fn named_start_fault(alloc: Global, fault: &StartFault) -> Result<String, AllocError>
    ensures { IfOk result (λ text. string_bytes text ≡ error_line (start_text fault.now)) }
{
    match fault {
        StartFault::TrustedUnsafe { found } => {
            let kind = kind_text(found.kind);
            let at = address_text(alloc, found.at)?;
            format!(in alloc; "erim: image trusted {kind} at {at}\n")
        }
        StartFault::TooFewFrames { needed } => frames_line(alloc, *needed),
        // As above.
        StartFault::Memory => format!(in alloc; "erim: out of memory\n"),
    }
}

/// The line that names the cause that keeps an image from starting.
pub fn start_line(alloc: Global, fault: &StartFault) -> Result<String, NoMemory>
    ensures { IfOk result (λ text. string_bytes text ≡ error_line (start_text fault.now)) }
{
    Ok(named_start_fault(alloc, fault)?)
}

/// The line that names the fault of a journal, unless memory runs out.
#[tactic(auto, unfolding(erim_defs::specs::Output::Texts::error_line))]
fn named_journal_fault(alloc: Global, fault: &JournalFault) -> Result<String, AllocError>
    ensures { IfOk result (λ text. string_bytes text ≡ error_line (journal_fault_text fault.now)) }
{
    match fault {
        JournalFault::Short { at } => format!(in alloc; "erim: journal short at {at}\n"),
        JournalFault::Magic => format!(in alloc; "erim: journal magic\n"),
        JournalFault::Budget => format!(in alloc; "erim: journal budget\n"),
        JournalFault::Frames => format!(in alloc; "erim: journal frames\n"),
        JournalFault::Count => format!(in alloc; "erim: journal count\n"),
        JournalFault::Trailing { at } => format!(in alloc; "erim: journal trailing at {at}\n"),
        JournalFault::BadEntry { index } => format!(in alloc; "erim: journal entry {index}\n"),
        // As above.
        JournalFault::Memory => format!(in alloc; "erim: out of memory\n"),
    }
}

/// The line that names the fault of a journal.
pub fn journal_fault_line(alloc: Global, fault: &JournalFault) -> Result<String, NoMemory>
    ensures { IfOk result (λ text. string_bytes text ≡ error_line (journal_fault_text fault.now)) }
{
    Ok(named_journal_fault(alloc, fault)?)
}

/// The line that says what is wrong with an entry of a journal.
#[tactic(auto, unfolding(erim_defs::specs::Output::Texts::error_line))]
fn entry_line(alloc: Global, index: u32, wrong: &str) -> Result<String, AllocError>
    ensures { IfOk result (λ text. string_bytes text
        ≡ error_line (codes "journal entry " ++ decimal index ++ wrong.now)) }
{
    format!(in alloc; "erim: journal entry {index}{wrong}\n")
}

/// The line that names the first step of a journal that can't be made, unless memory runs out.
#[tactic(auto, unfolding(erim_defs::specs::Output::Texts::error_line))]
fn named_break(alloc: Global, fault: &ReplayFault) -> Result<String, AllocError>
    ensures { IfOk result (λ text. string_bytes text ≡ error_line (break_text fault.now)) }
{
    match fault {
        ReplayFault::Start(fault) => named_start_fault(alloc, fault),
        ReplayFault::PastEnd { index } => entry_line(alloc, *index, " past end"),
        ReplayFault::PastBudget { index } => entry_line(alloc, *index, " past budget"),
        ReplayFault::NotLive { index } => entry_line(alloc, *index, " not live"),
        ReplayFault::Unfinished => format!(in alloc; "erim: journal unfinished\n"),
    }
}

/// The line that names the first step of a journal that can't be made.
pub fn break_line(alloc: Global, fault: &ReplayFault) -> Result<String, NoMemory>
    ensures { IfOk result (λ text. string_bytes text ≡ error_line (break_text fault.now)) }
{
    Ok(named_break(alloc, fault)?)
}

/// The name of a cause for which a sequence can't be rewritten.
fn why_text(why: Why) -> &'static str
    ensures { result.now ≡ why_text why }
{
    match why {
        Why::Trusted => "trusted",
        Why::Outside => "outside",
        Why::Undecoded => "undecoded",
        Why::Intended => "intended",
        Why::Call => "call",
        Why::Room => "room",
        Why::Target => "target",
        Why::Displacement => "displacement",
        Why::Immediate => "immediate",
        Why::Opcode => "opcode",
    }
}

/// The line that names a sequence that can't be rewritten.
#[tactic(auto, unfolding(erim_defs::specs::Output::Texts::error_line))]
fn cannot_line(alloc: Global, at: &str, why: &str) -> Result<String, AllocError>
    ensures { IfOk result (λ text. string_bytes text
        ≡ error_line (codes "cannot rewrite " ++ at.now ++ codes " " ++ why.now)) }
{
    format!(in alloc; "erim: cannot rewrite {at} {why}\n")
}

/// The line that names the cause for which an image isn't rewritten, unless memory runs out.
#[tactic(auto, unfolding(erim_defs::specs::Output::Texts::error_line))]
fn named_rewrite_fault(alloc: Global, fault: &RewriteFault) -> Result<String, AllocError>
    ensures { IfOk result (λ text. string_bytes text
        ≡ error_line (rewrite_text (fault_of fault.now))) }
{
    match fault {
        RewriteFault::Image(fault) => named_fault(alloc, fault),
        RewriteFault::Cannot { at, why } => {
            let at = address_text(alloc, *at)?;
            cannot_line(alloc, at.as_str(), why_text(*why))
        }
        RewriteFault::NoRoom { at } => {
            let at = address_text(alloc, *at)?;
            format!(in alloc; "erim: no room {at}\n")
        }
        // As above.
        RewriteFault::Memory => format!(in alloc; "erim: out of memory\n"),
    }
}

/// The line that names the cause for which an image isn't rewritten.
pub fn rewrite_line(alloc: Global, fault: &RewriteFault) -> Result<String, NoMemory>
    ensures { IfOk result (λ text. string_bytes text
        ≡ error_line (rewrite_text (fault_of fault.now))) }
{
    Ok(named_rewrite_fault(alloc, fault)?)
}
