//! `rewrite`: saves an image in which no sequence is unsafe, rewritten from another.

ghost use Rattle.std.specs.Prelude.{◌≡◌, ◌≢◌, IfOk, length};
ghost use Rattle.erim_defs.specs.Output.RewriteTexts.{rewrite_text, rewrote_line};
ghost use Rattle.erim_defs.specs.Output.Words.{Rewrite};
ghost use Rattle.erim_defs.specs.Rewriting.Rewriting.{Rewritten, rewriting};
ghost use Rattle.erim_commands.specs.CallParts.{IsReplyFor, fault_of, reply_of};
ghost use Rattle.erim_commands.specs.Commands.{plan_of, rewrite_plan};
ghost use Rattle.erim_commands.specs.Delivery.{Carries, world};
ghost use Rattle.erim_commands.specs.Replies.{IsAnswer, rewrite_status, rewrite_reply, line_reply};

use crate::delivery::conclude;
use crate::loads::{line_reply, load_image};
use crate::reply::{Reply, Save, Status};
use crate::text::rewrite_line;
use elf_image::Image;
use erim_defs::NoMemory;
use erim_io::{Sink, Store};
use overlap_rewrite::{RewriteFault, Rewritten as NewImage, rewrite_image};
use std::alloc::Global;

/// The line of an image that was rewritten at a given number of sites.
#[tactic(auto, unfolding(erim_defs::specs::Output::RewriteTexts::rewrote_line))]
fn rewrote_line(alloc: Global, count: usize) -> Result<Vec<u8>, NoMemory>
    ensures { IfOk result (λ line. line.items ≡ rewrote_line count) }
{
    let line = format!(in alloc; "rewrote {count} sites\n")?;
    Ok(line.into_bytes())
}

/// The reply of an image that was rewritten, which is to be saved under the name.
fn rewrite_reply<'a>(alloc: Global, new: NewImage, out: &'a str) -> Result<Reply<'a>, NoMemory>
    ensures { IfOk result (λ reply. (r : Rewritten) → new.bytes.items ≡ r.bytes
        → length new.sites.list.items ≡ length r.regions
        → reply_of reply ≡ rewrite_reply out.now r) }
{
    let text = rewrote_line(alloc, new.sites.list.len())?;
    Ok(Reply {
        status: Status::Done,
        text,
        save: Some(Save {
            name: out,
            bytes: new.bytes,
        }),
    })
}

/// The status of a cause for which an image isn't rewritten.
fn rewrite_status(fault: &RewriteFault) -> Status
    ensures { result ≡ rewrite_status (fault_of fault.now) }
{
    match fault {
        RewriteFault::Image(_) | RewriteFault::Memory => Status::ImageRefused,
        RewriteFault::Cannot { .. } | RewriteFault::NoRoom { .. } => Status::RewriteRefused,
    }
}

/// The reply of a command whose image isn't rewritten for this cause, unless memory ran out.
fn rewrite_refusal_reply<'a>(alloc: Global, fault: &RewriteFault) -> Result<Reply<'a>, NoMemory>
    ensures { let cause = fault_of fault.now in
        IfOk result (λ reply. (fault.now ≢ RewriteFault.Memory)
        × (reply_of reply ≡ line_reply (rewrite_status cause) (rewrite_text cause))) }
{
    match fault {
        RewriteFault::Memory => Err(NoMemory),
        _ => match rewrite_line(alloc, fault) {
            Ok(line) => Ok(line_reply(rewrite_status(fault), line)),
            Err(NoMemory) => Err(NoMemory),
        },
    }
}

/// Rewrites the image, or says why that can't be done.
fn rewriting_reply<'a>(alloc: Global, image: &Image, out: &'a str) -> Result<Reply<'a>, NoMemory>
    ensures { IsReplyFor (rewrite_plan out.now (rewriting image.now)) result }
{
    match rewrite_image(alloc, image) {
        Ok(new) => rewrite_reply(alloc, new, out),
        Err(fault) => rewrite_refusal_reply(alloc, &fault),
    }
}

/// Loads an image, and saves it rewritten.
pub fn rewrite<S: Store, K: Sink>(
    alloc: Global,
    image: &str,
    name: &str,
    store: &mut S,
    out: &mut K,
) -> u8
    ensures { let old = world S.Store K.Sink store.old out.old in
        let new = world S.Store K.Sink store.new out.new in
        Carries IsAnswer (plan_of (Rewrite image.now name.now)) old new result }
{
    match load_image(alloc, image, store, out) {
        Ok(image) => conclude(store, out, rewriting_reply(alloc, &image, name)),
        Err(status) => status,
    }
}
