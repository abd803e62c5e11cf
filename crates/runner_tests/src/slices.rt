//! Runs in time slices: programs of several threads, with one step and with 64 in a row, and one
//! thread that makes four steps, since its first one publishes its page.
//!
//! What the programs print and how many steps each thread makes are by a model of its own
//! (`bench/threads.py`), which reads their assembly.

ghost use Rattle.std.specs.Prelude.{◌<◌};

use crate::laying::{LEAVING, setup};
use erim_defs::{End, Entry};
use erim_process::Process;
use std::alloc::Global;
use std::process::Abort;
use test_rows::bytes_of;
use thread_runner::{finish, run_serial};

/// What runs; its code at 0x401000 and its data at 0x404000; then for 1 and for 64 steps in a row
/// the output, the status of its exit (`-` for a fault), and how many steps each thread makes.
const PROGRAMS: &str = "\
two threads add up to 200 with a locked counter
| bb01000000bf000f050031f6b8380000000f0585c07404ffcb75eabd64000000f0ff042500404000ffcd75f4
f0ff0c2508404000751fbf01000000be00404000ba08000000b8010000000f0531ffb8e70000000f05bf0700
0000b83c0000000f05 | 00000000 00000000 02
| 1 c800000000000000 0 321 308
| 64 c800000000000000 0 316 313;
sixteen threads add up to 320 with a locked counter
| bb0f000000bf000f050031f6b8380000000f0585c07404ffcb75eabd14000000f0ff042500404000ffcd75f4
f0ff0c2508404000751fbf01000000be00404000ba08000000b8010000000f0531ffb8e70000000f05bf0700
0000b83c0000000f05 | 00000000 00000000 10
| 1 4001000000000000 0 193 68 68 68 68 68 68 68 68 68 68 68 68 68 68 68
| 64 4001000000000000 0 193 68 68 68 68 68 68 68 68 68 68 68 68 68 68 68;
four threads under a lock of their own, made of xchg
| bb03000000bf000f050031f6b8380000000f0585c07404ffcb75eabd19000000b80100000087042510404000
85c075f08b0c250040400083c103890c2500404000c704251040400000000000ffcd75d0f0ff0c2508404000
7516bf01000000be00404000ba08000000b8010000000f05bf09000000b83c0000000f05 | 00000000 00000000 04
| 1 2c01000000000000 9 707 650 662 674
| 64 2c01000000000000 9 671 510 574 638;
a producer and a consumer of five numbers, who yield
| bf000f050031f6b8380000000f0585c07438bd05000000bb000000008b04250040400085c07509b818000000
0f05ebec01c3c704250040400000000000ffcd75db89dfb8e70000000f05bd0a0000008b04250040400085c0
7409b8180000000f05ebec892c2500404000ffc5ebe1 | -
| 1 - 60 77 72
| 64 - 60 335 320;
one thread, whose page is written, executed, written and executed again
| 31ffbe00100000ba0700000041ba22000000b8090000000f05c600c3ffd0c600c3ffd031ffb8e70000000f05 | -
| 1 - 0 19
| 64 - 0 19;
four threads on one stack write out their numbers
| bb03000000bf000f050031f6b8380000000f0585c07404ffcb75eabd03000000b8ba0000000f0583c04050bf
010000004889e6ba01000000b8010000000f054883c408ffcd75d9b8ba0000000f0589c7b83c0000000f05 | -
| 1 424244434342444343434141 1 68 44 44 44
| 64 414141424242434343444444 1 68 44 44 44;
the sixteenth clone answers EAGAIN
| bb10000000bf000f0500b8380000000f0585c0740d89c7ffcb75eab8e70000000f05b83c0000000f05 | -
| 1 - 245 132 4 4 4 4 4 4 4 4 4 4 4 4 4 4 4
| 64 - 245 132 4 4 4 4 4 4 4 4 4 4 4 4 4 4 4;
a stack that isn't mapped: the new thread faults at its first push
| bf000f0500be00005000b8380000000f0585c07409b8180000000f05ebf750 | -
| 1 - - 7 3
| 64 - - 64 3";

/// The process of these lines after a run in time slices of a given number of steps.
fn run_of(rt: &impl Abort, alloc: Global, lines: &str, quantum: u32) -> Process
    requires { 0 < quantum }
{
    let setup = setup(rt, alloc, lines, 10_000);
    run_serial(alloc, setup, quantum).ok().expect(rt, lines)
}

/// How many steps a thread made.
fn steps_of(process: &Process, thread: u16) -> usize {
    process
        .journal()
        .iter()
        .filter(|entry| entry.thread == thread)
        .count()
}

/// The status with which a process ended by its own call.
fn exit_code(process: &Process) -> Option<u8> {
    match process.end() {
        Some(End::Exit { code }) => Some(code),
        _ => None,
    }
}

/// Runs the image of these lines as a row says, and looks for the row's output, its end and the
/// steps of each thread.
fn check_run(rt: &impl Abort, alloc: Global, lines: &str, row: &str) {
    let mut words = row.split_whitespace();
    let quantum = words.next().expect(rt, row).parse().expect(rt, row);
    assert!(rt; quantum > 0, "{row}");
    let output = words.next().expect(rt, row);
    let output = bytes_of(alloc, output).ok().expect(rt, row);
    let code = words.next().expect(rt, row).parse().ok();
    let process = run_of(rt, alloc, lines, quantum);
    assert!(rt; process.output() == output.as_slice(), "{row}: the output");
    assert!(rt; exit_code(&process) == code, "{row}: the end");
    let mut thread = 0;
    for steps in words {
        let steps = steps.parse::<usize>().expect(rt, row);
        assert!(rt;
            steps_of(&process, thread) == steps,
            "{row}: thread {thread}"
        );
        thread = thread.wrapping_add(1);
    }
    let count = u16::from(process.thread_count());
    assert!(rt; count == thread, "{row}: the threads");
}

/// Runs the program of a row both ways.
fn check_row(rt: &impl Abort, alloc: Global, row: &str) {
    let mut cells = row.split('|').skip(1);
    let code = cells.next().expect(rt, row).trim();
    let data = cells.next().expect(rt, row).trim();
    let code = code.replace(alloc, "\n", "").expect(rt, row);
    let data = data.strip_prefix("-").unwrap_or(data);
    let lines = format!(in alloc; "page 401000 rx {code}\npage 404000 rw {data}").expect(rt, row);
    for numbers in cells {
        check_run(rt, alloc, lines.as_str(), numbers);
    }
}

#[test]
fn programs(rt: HostRuntime) {
    for row in PROGRAMS.split(";\n") {
        check_row(&rt, rt.alloc(), row);
    }
}

/// One step of thread 0.
fn step_by(worker: u16) -> Entry {
    Entry {
        worker,
        thread: 0,
        count: 1,
    }
}

#[test]
fn one_thread(rt: HostRuntime) {
    for quantum in [1, 2, 64] {
        let process = run_of(&rt, rt.alloc(), LEAVING, quantum);
        let entries = [step_by(0); 4];
        assert!(rt; process.journal() == entries.as_slice(), "{quantum}");
    }
}

#[test]
fn after_a_step_of_another_worker(rt: HostRuntime) {
    let setup = setup(&rt, rt.alloc(), LEAVING, 100);
    let mut process = Process::start(rt.alloc(), setup)
        .ok()
        .expect(&rt, "process");
    process.step_now(3, 0);
    finish(&mut process);
    let entries = [step_by(3), step_by(0), step_by(0), step_by(0)];
    assert!(rt; process.journal() == entries.as_slice());
}
