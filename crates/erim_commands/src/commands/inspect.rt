//! `inspect`: prints the unsafe list of an image.

ghost use Rattle.std.specs.Prelude.{◌≡◌, List, IfOk, length};
ghost use Rattle.erim_defs.specs.declared.found.Found.{Found};
ghost use Rattle.erim_defs.specs.Inspection.Unsafe.{image_list};
ghost use Rattle.erim_defs.specs.Output.Words.{Inspect};
ghost use Rattle.erim_commands.specs.CallParts.{reply_of};
ghost use Rattle.erim_commands.specs.Commands.{plan_of};
ghost use Rattle.erim_commands.specs.Delivery.{Carries, world};
ghost use Rattle.erim_commands.specs.Replies.{IsAnswer, list_status, list_reply};

use crate::delivery::conclude;
use crate::loads::load_image;
use crate::reply::{Reply, Status};
use elf_image::Image;
use erim_defs::NoMemory;
use erim_io::{Sink, Store};
use report_text::inspection;
use std::alloc::Global;

/// The unsafe list of an image, with its status.
fn list_reply<'a>(alloc: Global, image: &Image) -> Result<Reply<'a>, NoMemory>
    ensures { IfOk result (λ reply. reply_of reply ≡ list_reply (image_list image.now)) }
{
    let list = inspection(alloc, image)?;
    Ok(Reply {
        status: list_status(list.count),
        text: list.text,
        save: None,
    })
}

/// The status of a list of a given number of elements.
fn list_status(count: u64) -> Status
    ensures { (os : List Found) → length os ≡ count → result ≡ list_status os }
{
    if count == 0 {
        Status::Done
    } else {
        Status::AtFault
    }
}

/// Loads an image and prints its unsafe list.
pub fn inspect<S: Store, K: Sink>(alloc: Global, image: &str, store: &mut S, out: &mut K) -> u8
    ensures { let old = world S.Store K.Sink store.old out.old in
        let new = world S.Store K.Sink store.new out.new in
        Carries IsAnswer (plan_of (Inspect image.now)) old new result }
{
    match load_image(alloc, image, store, out) {
        Ok(image) => conclude(store, out, list_reply(alloc, &image)),
        Err(status) => status,
    }
}
