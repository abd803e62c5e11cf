//! How a process ended, and how a thread escaped, as text.

ghost use Rattle.std.specs.Prelude.{◌≡◌, ◌<◌, ◌^◌, IfOk, Some};
ghost use Rattle.std.specs.String.{string_bytes};
ghost use Rattle.erim_defs.specs.Output.Report.{cause_text, end_text, escape_text};
ghost use Rattle.erim_process.specs.Ends.{IfRefused};

use crate::texts::{address_text, kind_text};
use erim_defs::page::PAGE_SIZE;
use erim_defs::{Cause, End, Escape, Found};
use std::alloc::{AllocError, Global};

fn cause_text(cause: Cause) -> &'static str
    ensures { result.now ≡ cause_text cause }
{
    match cause {
        Cause::Unmapped => "unmapped",
        Cause::Read => "read",
        Cause::Write => "write",
        Cause::Key => "key",
        Cause::Exec => "exec",
        Cause::Undefined => "undefined",
        Cause::General => "general",
    }
}

/// How a fault ended the process.
fn fault_text(
    alloc: Global,
    thread: u8,
    rip: u64,
    cause: Cause,
    addr: u64,
) -> Result<String, AllocError>
    ensures { IfOk result (λ text. string_bytes text
        ≡ end_text (Some (End.Fault thread rip cause addr))) }
{
    let cause = cause_text(cause);
    let rip = address_text(alloc, rip)?;
    let addr = address_text(alloc, addr)?;
    format!(in alloc; "fault {cause} thread {thread} rip {rip} at {addr}")
}

/// How a page that was refused ended the process.
fn refused_text(alloc: Global, page: u64, found: Found, thread: u8) -> Result<String, AllocError>
    requires { page < 2 ^ 35 }
    ensures { IfOk result (λ text. string_bytes text
        ≡ end_text (Some (End.Refused page found thread))) }
{
    let page = address_text(alloc, PAGE_SIZE * page)?;
    let kind = kind_text(found.kind);
    let at = address_text(alloc, found.at)?;
    format!(in alloc; "refused page {page} {kind} at {at} thread {thread}")
}

/// How a process ended.
pub fn end_text(alloc: Global, end: Option<End>) -> Result<String, AllocError>
    requires { IfRefused (λ page. page < 2 ^ 35) end }
    ensures { IfOk result (λ text. string_bytes text ≡ end_text end) }
{
    match end {
        None => String::from_str(alloc, "spent"),
        Some(End::Exit { code }) => format!(in alloc; "exit {code}"),
        Some(
            End::Fault {
                thread,
                rip,
                cause,
                addr,
            },
        ) => fault_text(alloc, thread, rip, cause, addr),
        Some(
            End::Refused {
                page,
                found,
                thread,
            },
        ) => refused_text(alloc, page, found, thread),
    }
}

/// How a thread escaped.
fn once_text(alloc: Global, step: u32, thread: u8, rip: u64) -> Result<String, AllocError>
    ensures { IfOk result (λ text. string_bytes text
        ≡ escape_text (Some (record { step = step; thread = thread; rip = rip }))) }
{
    let rip = address_text(alloc, rip)?;
    format!(in alloc; "step {step} thread {thread} rip {rip}")
}

/// The first escape.
pub fn escape_text(alloc: Global, escape: Option<Escape>) -> Result<String, AllocError>
    ensures { IfOk result (λ text. string_bytes text ≡ escape_text escape) }
{
    match escape {
        None => String::from_str(alloc, "none"),
        Some(Escape { step, thread, rip }) => once_text(alloc, step, thread, rip),
    }
}
