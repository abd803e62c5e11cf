//! Runs by several workers: the generated program, whose output every schedule gives, and threads
//! that race with mapping calls.

ghost use Rattle.std.specs.Prelude.{◌≤◌};

use crate::laying::image;
use elf_image::read_image;
use erim_defs::End;
use erim_process::{Process, Setup};
use image_gen::make_image;
use journal_bytes::{read_journal, write_journal};
use std::alloc::Global;
use std::process::Abort;
use std::sync::Wait;
use std::thread::Threads;
use thread_runner::{NoGate, replay, run};

/// The most steps of a run.
const STEPS: u32 = 100_000;

/// The program that `make_image` generates, for a number of threads, each of which goes as many
/// rounds through the gate.
fn generated(rt: &impl Abort, alloc: Global, threads: u32, rounds: u32) -> Setup
    requires some_threads { 1 ≤ threads }
    requires few_threads { threads ≤ 8 }
    requires some_rounds { 1 ≤ rounds }
    requires few_rounds { rounds ≤ 1000 }
{
    let bytes = make_image(alloc, threads, rounds).ok().expect(rt, "bytes");
    Setup {
        image: read_image(alloc, &bytes).ok().expect(rt, "image"),
        budget: STEPS,
        frames: 64,
    }
}

/// The run of a setup by a number of workers, whose saved journal is replayed to the same end.
fn run_of<R: Abort + Threads + Wait + Sync>(
    rt: &R,
    alloc: Global,
    setup: Setup,
    workers: u8,
) -> Process
    requires some { 1 ≤ workers }
    requires few { workers ≤ 8 }
{
    let copy = setup.copy().ok().expect(rt, "copy");
    let process = run(rt, alloc, setup, workers, &NoGate)
        .ok()
        .expect(rt, "run");
    let bytes = write_journal(alloc, process.journal(), copy.budget, copy.frames);
    let journal = read_journal(alloc, &bytes.ok().expect(rt, "bytes"))
        .ok()
        .expect(rt, "journal");
    let again = replay(alloc, copy, &journal).ok().expect(rt, "replay");
    assert!(rt; again.output() == process.output(), "the output, replayed");
    assert!(rt; again.end() == process.end(), "the end, replayed");
    assert!(rt; again.steps() == process.steps(), "the steps, replayed");
    process
}

/// No step is left to worker 0.
fn check_workers(rt: &impl Abort, process: &Process, workers: u8) {
    for entry in process.journal() {
        assert!(rt;
            entry.worker > 0 && entry.worker <= u16::from(workers),
            "an entry's worker"
        );
    }
}

#[test]
fn generated_programs(rt: HostRuntime) {
    for workers in 1..9 {
        for threads in [1, 3, 8] {
            let setup = generated(&rt, rt.alloc(), threads, 20);
            let process = run_of(&rt, rt.alloc(), setup, workers);
            let count = u64::from(20 * threads).to_le_bytes();
            assert!(&rt; process.output() == count.as_slice(), "{workers} {threads}");
            assert!(&rt;
                process.end() == Some(End::Exit { code: 0 }),
                "{workers} {threads}"
            );
            check_workers(&rt, &process, workers);
        }
    }
}

/// Two threads. The first maps a page at 0x10000, writes there and unmaps it, twenty times, and
/// then ends the process; the second hands a byte of the page to the call write over and over, which
/// is refused where the page isn't mapped.
const RACING: &str = "\
page 401000 rx BF000F050031F6B8380000000F0585C07438BD14000000
more BF00000100BE00100000BA0300000041BA32000000B8090000000F0540882FB80B0000000F05FFCD75D6
more 31FFB8E70000000F05
more BF01000000BE00000100BA01000000B8010000000F05EBE8";

#[test]
fn racing_calls(rt: HostRuntime) {
    for _ in 0..50 {
        let setup = Setup {
            image: image(&rt, rt.alloc(), RACING),
            budget: STEPS,
            frames: 64,
        };
        let process = run_of(&rt, rt.alloc(), setup, 2);
        assert!(&rt; process.end() == Some(End::Exit { code: 0 }));
        check_workers(&rt, &process, 2);
    }
}
