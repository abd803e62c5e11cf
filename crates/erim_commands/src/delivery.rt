//! Delivers replies: saves their files and puts their texts.

ghost use Rattle.std.specs.Prelude.{◌≡◌, codes};
ghost use Rattle.erim_defs.specs.Output.Texts.{error_line};
ghost use Rattle.erim_commands.specs.CallParts.{IsReplyFor, Puts, SavesHeld, noted_file, reply_of};
ghost use Rattle.erim_commands.specs.CallParts.{save_of};
ghost use Rattle.erim_commands.specs.Delivery.{Carries, Delivers, world};
ghost use Rattle.erim_commands.specs.Plans.{Plan};
ghost use Rattle.erim_commands.specs.Replies.{Answer, IsAnswer};

use crate::reply::{FAILED, OUT_OF_MEMORY, Reply, Save, Status, code_of};
use erim_defs::NoMemory;
use erim_io::{SaveFault, Sink, Store, put_all};

/// Puts the text, and answers the status, or 4 where a put failed.
pub fn put<K: Sink>(out: &mut K, status: u8, text: &[u8]) -> u8
    ensures { let old = K.written out.old in
        Puts status text.now old (K.written out.new) (K.faults out.old) (K.faults out.new) result }
{
    match put_all(out, text) {
        Ok(()) => status,
        Err(_failed) => FAILED,
    }
}

/// Says that the words mean no command.
pub fn not_understood<K: Sink>(out: &mut K) -> u8
    ensures { let old = K.written out.old in
        Puts 2 (error_line (codes "words not understood")) old (K.written out.new)
        (K.faults out.old) (K.faults out.new) result }
{
    put(
        out,
        code_of(Status::NotUnderstood),
        b"erim: words not understood\n",
    )
}

/// Saves the file, where there is one.
fn save<S: Store>(store: &mut S, file: &Option<Save>) -> Result<(), SaveFault>
    ensures held { SavesHeld (save_of file.now) result (S.held store.old) (S.held store.new) }
    ensures loads { S.failed_loads store.new ≡ S.failed_loads store.old }
    ensures saves { let old = S.failed_saves store.old in
        S.failed_saves store.new ≡ noted_file (save_of file.now) result old }
{
    match file {
        Some(file) => store.save(file.name, file.bytes.as_slice()),
        None => Ok(()),
    }
}

/// Saves the reply's file, and then puts its text.
fn deliver<S: Store, K: Sink>(store: &mut S, out: &mut K, reply: &Reply) -> u8
    ensures { let old = world S.Store K.Sink store.old out.old in
        Delivers (reply_of reply.now) old (world S.Store K.Sink store.new out.new) result }
{
    match save(store, &reply.save) {
        Ok(()) => put(out, code_of(reply.status), reply.text.as_slice()),
        Err(SaveFault::Failed) => put(out, FAILED, b"erim: save failed\n"),
        Err(SaveFault::Memory) => OUT_OF_MEMORY,
    }
}

/// Carries out a plan that loads nothing more: delivers its reply, where there was memory for one.
pub fn conclude<S: Store, K: Sink>(store: &mut S, out: &mut K, reply: Result<Reply, NoMemory>) -> u8
    ensures { let old = world S.Store K.Sink store.old out.old in
        let new = world S.Store K.Sink store.new out.new in
        (plan : Plan Answer) → IsReplyFor plan reply.entry → Carries IsAnswer plan old new result }
{
    match reply {
        Ok(reply) => deliver(store, out, &reply),
        Err(NoMemory) => OUT_OF_MEMORY,
    }
}
