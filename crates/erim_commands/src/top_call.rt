//! The top calls: they read the words and do their command.

ghost use Rattle.std.specs.Prelude.{map};
ghost use Rattle.std.specs.String.{string_bytes};
ghost use Rattle.erim_defs.specs.Output.Words.{command_of};
ghost use Rattle.erim_commands.specs.Commands.{plain, plan_for};
ghost use Rattle.erim_commands.specs.Delivery.{Carries, world};
ghost use Rattle.erim_commands.specs.Promises.{Promises};
ghost use Rattle.erim_commands.specs.Replies.{IsAnswer};

use crate::commands::{carry_out, carry_out_plain};
use crate::delivery::not_understood;
use crate::reply::OUT_OF_MEMORY;
use command_words::command_of;
use erim_io::{Sink, Store};
use image_gen::generated_startable;
use publish_lock::Gate;
use rewriting_laws::rewriting_is_clean;
use std::alloc::Global;
use std::sync::Wait;
use std::thread::Threads;
use thread_runner::unbroken;

/// Does the command that the words mean, if it runs nothing by workers.
fn obey_plain<S: Store, K: Sink>(alloc: Global, words: &[String], store: &mut S, out: &mut K) -> u8
    ensures { let old = world S.Store K.Sink store.old out.old in
        let new = world S.Store K.Sink store.new out.new in
        let command = plain (command_of (map string_bytes words.now)) in
        Carries IsAnswer (plan_for command) old new result }
{
    match command_of(alloc, words) {
        Ok(Some(command)) => carry_out_plain(alloc, &command, store, out),
        Ok(None) => not_understood(out),
        Err(_no_memory) => OUT_OF_MEMORY,
    }
}

/// Does the command that the words mean.
fn obey<R: Threads + Wait + Sync, S: Store, K: Sink, T: Gate>(
    rt: &R,
    alloc: Global,
    words: &[String],
    store: &mut S,
    out: &mut K,
    gate: &T,
) -> u8
    ensures { let old = world S.Store K.Sink store.old out.old in
        let new = world S.Store K.Sink store.new out.new in
        Carries IsAnswer (plan_for (command_of (map string_bytes words.now))) old new result }
{
    match command_of(alloc, words) {
        Ok(Some(command)) => carry_out(rt, alloc, &command, store, out, gate),
        Ok(None) => not_understood(out),
        Err(_no_memory) => OUT_OF_MEMORY,
    }
}

/// Does what the words say over the store and the output, and answers the program's status, as
/// `erim` does, but for `run` and `soak`: words that mean those mean no command to it.
pub fn erim_plain<S: Store, K: Sink>(
    alloc: Global,
    words: &[String],
    store: &mut S,
    out: &mut K,
) -> u8
    ensures { let old = world S.Store K.Sink store.old out.old in
        let new = world S.Store K.Sink store.new out.new in
        Promises (plain (command_of (map string_bytes words.now))) old new result }
{
    rewriting_is_clean();
    unbroken();
    generated_startable();
    obey_plain(alloc, words, store, out)
}

/// Does what the words say over the store and the output, and answers the program's status.
///
/// The first word is the program's name. `inspect IMAGE` prints the unsafe list of the image code;
/// `disasm IMAGE` prints the instructions of the executable segments' file parts;
/// `run IMAGE JOURNAL` runs the image by workers, saves the journal of the run and prints its
/// report; `replay IMAGE JOURNAL` runs it by a journal and prints the report; `rewrite IMAGE OUT`
/// saves an image in which no sequence is unsafe, rewritten from the image; `gen SEED OUT` saves
/// the image that is generated from a seed; `soak SEED JOURNAL` runs that image, saves the journal
/// of the run and prints its line.
///
/// The workers of `run` and `soak` call the gate as they take their turns.
pub fn erim<R: Threads + Wait + Sync, S: Store, K: Sink, T: Gate>(
    rt: &R,
    alloc: Global,
    words: &[String],
    store: &mut S,
    out: &mut K,
    gate: &T,
) -> u8
    ensures { let old = world S.Store K.Sink store.old out.old in
        let new = world S.Store K.Sink store.new out.new in
        Promises (command_of (map string_bytes words.now)) old new result }
{
    rewriting_is_clean();
    unbroken();
    generated_startable();
    obey(rt, alloc, words, store, out, gate)
}
