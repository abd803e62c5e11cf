//! Two workers work beside each other: each comes to its second turn while the other is held before
//! its own.

use erim_commands::erim;
use erim_io::{MemSink, MemStore, Store};
use image_gen::make_image;
use journal_bytes::{Journal, read_journal};
use publish_lock::Gate;
use std::alloc::Global;
use std::hint;
use std::process::Abort;
use std::sync::atomic::{AtomicU64, Ordering};

/// Looks that a worker has at the other's count before it gives up.
const LOOKS: u32 = 50_000_000;

/// Counts the turns of two workers, and holds each before its second until the other has come to
/// its own.
#[derive(Drop)]
struct Meeting {
    turns: [AtomicU64; 2],
    late: AtomicU64,
}

impl Meeting {
    fn new() -> Meeting {
        Meeting {
            turns: [AtomicU64::new(0), AtomicU64::new(0)],
            late: AtomicU64::new(0),
        }
    }

    /// Waits until the counter is 2 or more, for a number of looks.
    fn hold(&self, counter: &AtomicU64) {
        for _ in 0..LOOKS {
            if counter.load(Ordering::SeqCst) >= 2 {
                return;
            }
            hint::spin_loop();
        }
        self.late.store(1, Ordering::SeqCst);
    }
}

impl Gate for Meeting {
    fn before_commit(&self, worker: u16) {
        let (own, other) = if worker == 1 { (0, 1) } else { (1, 0) };
        if self.turns[own].fetch_add(1, Ordering::SeqCst) == 1 {
            self.hold(&self.turns[other]);
        }
    }
}

/// The words, each after a space.
fn words_of(rt: &impl Abort, alloc: Global, text: &str) -> Vec<String> {
    let mut words = Vec::new(alloc);
    for word in text.split(' ') {
        let word = word.to_string(alloc).expect(rt, text);
        assert!(rt; words.push(word).is_ok());
    }
    words
}

/// A store that holds the program of four threads that `make_image` generates, as `image`.
fn store(rt: &impl Abort, alloc: Global) -> MemStore {
    let bytes = make_image(alloc, 4, 100).ok().expect(rt, "bytes");
    let name = "image".to_string(alloc).expect(rt, "name");
    let files = vec![in alloc; (name, bytes)].ok().expect(rt, "files");
    MemStore::new(alloc, files, Vec::new(alloc))
}

/// The journal that a store holds.
fn journal(rt: &impl Abort, alloc: Global, store: &mut MemStore) -> Journal {
    let mut bytes = Vec::new(alloc);
    assert!(rt; store.load("journal", 1_000_000, &mut bytes).is_ok());
    read_journal(alloc, &bytes).ok().expect(rt, "journal")
}

#[test]
fn two_workers_meet(rt: HostRuntime) {
    let alloc = rt.alloc();
    let words = words_of(&rt, alloc, "erim run image journal --workers 2");
    let mut store = store(&rt, alloc);
    let mut out = MemSink::new(alloc, Vec::new(alloc), 1000)
        .ok()
        .expect(&rt, "out");
    let gate = Meeting::new();
    let status = erim(&rt, alloc, words.as_slice(), &mut store, &mut out, &gate);
    assert!(&rt; status == 0, "status {status}");
    assert!(&rt; gate.late.load(Ordering::SeqCst) == 0, "the workers met");
    let journal = journal(&rt, alloc, &mut store);
    let has = |worker: u16| journal.entries.iter().any(|entry| entry.worker == worker);
    assert!(&rt;
        has(1) && has(2) && !has(0),
        "entries of both workers alone"
    );
}
