//! Threads that race with calls on the page of another's check, step by step and in every order.

use elf_image::read_image;
use erim_defs::{End, Found, SeqKind};
use erim_process::{Process, Setup, Stepped};
use std::alloc::Global;
use std::process::Abort;
use test_rows::image_bytes;

/// Two threads: the first makes the second, which goes through a gate in outside trusted text, with
/// the check after it, on the page at 0x403000. The first calls on that page meanwhile.
const RACING: &str = "\
page 401000 rx BF000F0500B8380000000F0585C00F84EC1F0000BF00304000BE00100000 CALL 0F05
page 403000 rx 31C931D2 VALUE 0F01EF 3D545555557407B8E70000000F05 EBFE";

/// The same with the check on a page of its own, at 0x404000, which may be written and executed.
/// The first thread takes that page's execution away, writes its first byte, and asks for execution
/// again.
const TAKING: &str = "\
page 401000 rx BF000F0500B8380000000F0585C00F84E02F0000BF00404000BE00100000BA03000000B80A000000
more 0F05 C607 BYTE BA05000000B80A0000000F05
page 403000 rx +FF4 31C931D2B8505555550F01EF
page 404000 rwx 3D545555557407B8E70000000F05";

/// The same, where the page of the check may be written and executed. The first thread writes
/// there.
const WRITING: &str = "\
page 401000 rx BF000F0500B8380000000F0585C00F84EC1F0000C604250033400001
page 403000 rwx 31C931D2 VALUE 0F01EF 3D545555557407B8E70000000F05 EBFE";

/// RAX, munmap and mprotect, whose protection bits are 0 in RDX.
const MUNMAP: &str = "B80B000000";

const MPROTECT: &str = "B80A000000";

/// What the second thread gives PKRU: open, or closed.
const OPENING: &str = "B850555555";

const CLOSING: &str = "B854555555";

/// The process of an image of these lines, with few steps and pages. It has the setup of which a
/// copy was made before.
fn started(rt: &impl Abort, alloc: Global, lines: &str) -> Process {
    let bytes = image_bytes(alloc, lines).ok().expect(rt, lines);
    let setup = Setup {
        image: read_image(alloc, &bytes).ok().expect(rt, lines),
        budget: 64,
        frames: 64,
    };
    let copy = setup.copy().expect(rt, lines);
    let process = Process::start(alloc, setup).ok().expect(rt, lines);
    assert!(rt; process.same_setup(&copy), "{lines}");
    process
}

/// The two threads where the second stands before its check, after the gate.
fn racing(rt: &impl Abort, alloc: Global, call: &str, value: &str) -> Process {
    let lines = RACING.replace(alloc, "CALL", call).expect(rt, call);
    before_check(rt, alloc, lines.as_str(), value)
}

/// The same, over the image of these lines.
fn before_check(rt: &impl Abort, alloc: Global, lines: &str, value: &str) -> Process {
    let lines = lines.replace(alloc, "VALUE", value).expect(rt, value);
    let mut process = started(rt, alloc, lines.as_str());
    make(rt, &mut process, 0, 4);
    make(rt, &mut process, 1, 7);
    process
}

/// Makes a given number of steps of a thread.
fn make(rt: &impl Abort, process: &mut Process, thread: u8, steps: u8) {
    for _ in 0..steps {
        assert!(rt; process.step_now(0, thread) == Stepped::Made);
    }
}

/// RAX of the first thread.
fn answer(rt: &impl Abort, process: &Process) -> u64 {
    assert!(rt; process.thread_count() > 0);
    process.thread(0).regs[0]
}

/// Is the page of the check published?
fn is_published(process: &Process) -> bool {
    process.rights(0x403).is_some_and(|rights| rights.exec)
}

#[test]
fn pins_the_page_of_a_check(rt: HostRuntime) {
    let alloc = rt.alloc();
    for call in [MUNMAP, MPROTECT] {
        let mut open = racing(&rt, alloc, call, OPENING);
        make(&rt, &mut open, 0, 6);
        assert!(&rt; answer(&rt, &open) == 0_u64.wrapping_sub(11) && is_published(&open));
        let mut closed = racing(&rt, alloc, call, CLOSING);
        make(&rt, &mut closed, 0, 6);
        assert!(&rt; answer(&rt, &closed) == 0 && !is_published(&closed));
    }
}

/// Where the first thread stands, and what is at the place that it writes.
fn written(rt: &impl Abort, process: &Process) -> (u64, u64) {
    assert!(rt; process.thread_count() > 0 && process.rights(0x403).is_some());
    (process.thread(0).rip, process.word(0x403300))
}

#[test]
fn takes_no_check_back(rt: HostRuntime) {
    let mut open = before_check(&rt, rt.alloc(), WRITING, OPENING);
    make(&rt, &mut open, 0, 3);
    assert!(rt; is_published(&open) && written(&rt, &open) == (0x401014, 0) && open.steps() == 14);
    let mut closed = before_check(&rt, rt.alloc(), WRITING, CLOSING);
    make(&rt, &mut closed, 0, 2);
    assert!(rt; is_published(&closed));
    make(&rt, &mut closed, 0, 1);
    assert!(rt; !is_published(&closed) && written(&rt, &closed) == (0x401014, 0));
    make(&rt, &mut closed, 0, 1);
    assert!(rt; !is_published(&closed) && written(&rt, &closed) == (0x40101C, 1));
}

/// Makes six steps of the first thread and four of the second, in the order of the bits of a
/// number. The second stands in its check until it ends the process, and the page stays published.
fn race(rt: &impl Abort, process: &mut Process, order: u16) {
    for place in 0..10_u16 {
        let second = order >> place & 1 == 1;
        let stepped = process.step_now(0, u8::from(second));
        let ended = process.end().is_some();
        assert!(rt;
            stepped == Stepped::Made || (ended && stepped == Stepped::Ended),
            "{order}"
        );
        assert!(rt; process.thread_count() > 1, "{order}");
        let rip = process.thread(1).rip;
        assert!(rt; (0x40300C..=0x40301A).contains(&rip), "{order}: at {place}");
        assert!(rt; is_published(process), "{order}: at {place}");
    }
    assert!(rt; process.end() == Some(End::Exit { code: 0 }), "{order}");
    assert!(rt; process.escape().is_none(), "{order}");
}

#[test]
fn races_in_every_order(rt: HostRuntime) {
    for order in 0..1024_u16 {
        if order.count_ones() == 4 {
            for call in [MUNMAP, MPROTECT] {
                race(&rt, &mut racing(&rt, rt.alloc(), call, OPENING), order);
            }
            let mut writing = before_check(&rt, rt.alloc(), WRITING, OPENING);
            race(&rt, &mut writing, order);
        }
    }
}

/// The process where the second thread stands in its check, and the first has written this byte
/// into the check's page while it wasn't published.
fn taking(rt: &impl Abort, alloc: Global, byte: &str) -> Process {
    let lines = TAKING.replace(alloc, "BYTE", byte).expect(rt, byte);
    let mut process = started(rt, alloc, lines.as_str());
    make(rt, &mut process, 0, 4);
    make(rt, &mut process, 1, 8);
    make(rt, &mut process, 0, 7);
    let taken = process
        .rights(0x404)
        .is_some_and(|rights| !rights.exec && rights.write);
    assert!(rt; answer(rt, &process) == 0 && taken, "{byte}");
    make(rt, &mut process, 0, 4);
    assert!(rt; answer(rt, &process) == 0, "{byte}");
    process
}

#[test]
fn publishes_a_check_again(rt: HostRuntime) {
    let mut same = taking(&rt, rt.alloc(), "3D");
    make(&rt, &mut same, 1, 5);
    assert!(rt; same.end() == Some(End::Exit { code: 0 }));
    let mut other = taking(&rt, rt.alloc(), "90");
    make(&rt, &mut other, 1, 1);
    let found = Found {
        at: 0x403FFD,
        len: 3,
        kind: SeqKind::Wrpkru,
    };
    let end = End::Refused {
        page: 0x404,
        found,
        thread: 1,
    };
    assert!(rt; other.end() == Some(end));
}
