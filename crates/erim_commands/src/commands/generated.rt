//! `gen` and `soak`: save the image that is generated from a seed, and run it.

ghost use Rattle.std.specs.Prelude.{◌≡◌, IfOk};
ghost use Rattle.erim_defs.specs.Machine.Replay.{IsOver};
ghost use Rattle.erim_defs.specs.Output.GeneratedImage.{seed_image};
ghost use Rattle.erim_defs.specs.Output.GeneratedTexts.{soak_line};
ghost use Rattle.erim_defs.specs.Output.Words.{Gen, Soak};
ghost use Rattle.erim_process.specs.ProcessValue.{state_of};
ghost use Rattle.erim_defs.specs.declared.limits.TheConstants.{USUAL_WORKERS};
ghost use Rattle.thread_runner.specs.Running.{AreWithin};
ghost use Rattle.erim_commands.specs.CallParts.{reply_of};
ghost use Rattle.erim_commands.specs.Commands.{plan_of, soak_setup};
ghost use Rattle.erim_commands.specs.Delivery.{Carries, world};
ghost use Rattle.erim_commands.specs.Replies.{IsAnswer, IsRunReply, gen_reply};

use crate::delivery::conclude;
use crate::reply::{Reply, Save, Status};
use crate::runs::run_reply;
use elf_image::{Image, ImageFault, read_image};
use erim_defs::NoMemory;
use erim_defs::limits::{USUAL_FRAMES, USUAL_STEPS, USUAL_WORKERS};
use erim_io::{Sink, Store};
use erim_process::{Process, Setup, StartFault};
use image_gen::{generated_startable, seed_image};
use publish_lock::Gate;
use report_text::{gen_line, soak_line};
use std::alloc::Global;
use std::sync::Wait;
use std::thread::Threads;
use thread_runner::run;

/// The image that is generated from a seed, which is to be saved under the name.
fn gen_reply<'a>(alloc: Global, seed: u64, out: &'a str) -> Result<Reply<'a>, NoMemory>
    ensures { IfOk result (λ reply. reply_of reply ≡ gen_reply seed out.now) }
{
    let bytes = seed_image(alloc, seed)?;
    let text = gen_line(alloc, seed, bytes.len() as u64)?;
    Ok(Reply {
        status: Status::Done,
        text,
        save: Some(Save { name: out, bytes }),
    })
}

/// Saves the image that is generated from a seed.
pub fn generate<S: Store, K: Sink>(
    alloc: Global,
    seed: u64,
    name: &str,
    store: &mut S,
    out: &mut K,
) -> u8
    ensures { let old = world S.Store K.Sink store.old out.old in
        let new = world S.Store K.Sink store.new out.new in
        Carries IsAnswer (plan_of (Gen seed name.now)) old new result }
{
    conclude(store, out, gen_reply(alloc, seed, name))
}

/// The image that is generated from a seed.
fn generated_image(alloc: Global, seed: u64) -> Result<Image, NoMemory>
    ensures { IfOk result (λ image. image ≡ seed_image seed) }
{
    generated_startable();
    let bytes = seed_image(alloc, seed)?;
    match read_image(alloc, bytes.as_slice()) {
        Ok(image) => Ok(image),
        Err(fault) => match fault {
            ImageFault::Memory => Err(NoMemory),
            // Every generated image is accepted.
            _ => unreachable!(),
        },
    }
}

/// Runs the image that is generated from a seed.
fn generated_run<R: Threads + Wait + Sync, T: Gate>(
    rt: &R,
    alloc: Global,
    seed: u64,
    gate: &T,
) -> Result<Process, NoMemory>
    ensures setup { IfOk result (λ process. process.setup ≡ soak_setup seed) }
    ensures over { IfOk result (λ process. IsOver (state_of process)) }
    ensures within { IfOk result (λ process. AreWithin USUAL_WORKERS process.journal) }
{
    generated_startable();
    let setup = Setup {
        image: generated_image(alloc, seed)?,
        budget: USUAL_STEPS,
        frames: USUAL_FRAMES,
    };
    match run(rt, alloc, setup, USUAL_WORKERS, gate) {
        Ok(process) => Ok(process),
        Err(fault) => match fault {
            StartFault::Memory => Err(NoMemory),
            // Every generated image starts with 20 frames or more.
            _ => unreachable!(),
        },
    }
}

/// The line of a run of the image that is generated from a seed, and its journal.
fn soak_reply<'a, R: Threads + Wait + Sync, T: Gate>(
    rt: &R,
    alloc: Global,
    seed: u64,
    journal: &'a str,
    gate: &T,
) -> Result<Reply<'a>, NoMemory>
    ensures { IfOk result (λ reply.
        IsRunReply (λ entries s. soak_line seed s) journal.now USUAL_WORKERS (soak_setup seed)
        (reply_of reply)) }
{
    let process = generated_run(rt, alloc, seed, gate)?;
    let text = soak_line(alloc, seed, &process)?;
    run_reply(alloc, &process, journal, USUAL_WORKERS, text)
}

/// Runs the image that is generated from a seed by the usual number of workers, and saves the
/// journal of the run.
pub fn soak<R: Threads + Wait + Sync, S: Store, K: Sink, T: Gate>(
    rt: &R,
    alloc: Global,
    seed: u64,
    journal: &str,
    store: &mut S,
    out: &mut K,
    gate: &T,
) -> u8
    ensures { let old = world S.Store K.Sink store.old out.old in
        let new = world S.Store K.Sink store.new out.new in
        Carries IsAnswer (plan_of (Soak seed journal.now)) old new result }
{
    conclude(store, out, soak_reply(rt, alloc, seed, journal, gate))
}
