//! The commands, each in a file of its own, and the two on generated images in one.

ghost use Rattle.std.specs.Prelude.{Some};
ghost use Rattle.command_words.specs.Commands.{HasNumbers, meaning};
ghost use Rattle.erim_commands.specs.Commands.{plain, plan_for, plan_of};
ghost use Rattle.erim_commands.specs.Delivery.{Carries, world};
ghost use Rattle.erim_commands.specs.Replies.{IsAnswer};

mod disasm;
mod generated;
mod inspect;
mod replay;
mod rewrite;
mod run;

use crate::delivery::not_understood;
use command_words::Command;
use erim_io::{Sink, Store};
use publish_lock::Gate;
use std::alloc::Global;
use std::sync::Wait;
use std::thread::Threads;

/// Does a command that runs nothing by workers.
pub fn carry_out_plain<S: Store, K: Sink>(
    alloc: Global,
    command: &Command,
    store: &mut S,
    out: &mut K,
) -> u8
    ensures { let old = world S.Store K.Sink store.old out.old in
        let new = world S.Store K.Sink store.new out.new in
        Carries IsAnswer (plan_for (plain (Some (meaning command.now)))) old new result }
{
    match *command {
        Command::Inspect { image } => inspect::inspect(alloc, image, store, out),
        Command::Disasm { image } => disasm::disasm(alloc, image, store, out),
        Command::Replay { image, journal } => replay::replay(alloc, image, journal, store, out),
        Command::Rewrite { image, out: name } => rewrite::rewrite(alloc, image, name, store, out),
        Command::Gen { seed, out: name } => generated::generate(alloc, seed, name, store, out),
        Command::Run { .. } | Command::Soak { .. } => not_understood(out),
    }
}

/// Does a command.
pub fn carry_out<R: Threads + Wait + Sync, S: Store, K: Sink, T: Gate>(
    rt: &R,
    alloc: Global,
    command: &Command,
    store: &mut S,
    out: &mut K,
    gate: &T,
) -> u8
    requires { HasNumbers command.now }
    ensures { let old = world S.Store K.Sink store.old out.old in
        let new = world S.Store K.Sink store.new out.new in
        Carries IsAnswer (plan_of (meaning command.now)) old new result }
{
    match *command {
        Command::Run {
            image,
            journal,
            workers,
            steps,
            frames,
        } => run::run(
            rt, alloc, image, journal, workers, steps, frames, store, out, gate,
        ),
        Command::Soak { seed, journal } => {
            generated::soak(rt, alloc, seed, journal, store, out, gate)
        }
        _ => carry_out_plain(alloc, command, store, out),
    }
}
