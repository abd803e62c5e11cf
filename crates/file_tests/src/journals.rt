//! One journal, written and read. Its bytes are from the format.

use journal_bytes::{Entry, read_journal, write_journal};
use std::test::*;

/// Four steps of thread 0 by worker 0, with a budget of 1,000,000 steps and 1,024 frames.
const BYTES: [u8; 28] = [
    0x45, 0x52, 0x49, 0x4D, 0x4A, 0x4E, 0x4C, 0x31, 0x40, 0x42, 0x0F, 0x00, 0x00, 0x04, 0x00, 0x00,
    0x01, 0x00, 0x00, 0x00, 0x00, 0x00, 0x00, 0x00, 0x04, 0x00, 0x00, 0x00,
];

const STEPS: Entry = Entry {
    worker: 0,
    thread: 0,
    count: 4,
};

#[test]
fn written(rt: HostRuntime) {
    let bytes = write_journal(rt.alloc(), &[STEPS], 1_000_000, 1024)
        .ok()
        .expect(&rt, "memory");
    assert!(rt; bytes.as_slice() == BYTES.as_slice());
}

#[test]
fn read(rt: HostRuntime) {
    let journal = read_journal(rt.alloc(), &BYTES)
        .ok()
        .expect(&rt, "a journal");
    assert_eq!(rt; journal.budget, 1_000_000);
    assert_eq!(rt; journal.frames, 1024);
    assert!(rt; journal.entries.as_slice() == [STEPS].as_slice());
}
