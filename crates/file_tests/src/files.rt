//! Stores and sinks over the system's files, and over readers and writers that fail.

use erim_io::{
    Failed, FileStore, LoadFault, OutSink, SaveFault, Store, put_all, put_to, read_within,
    write_whole,
};
use std::alloc::Global;
use std::io::{self, ErrorKind, Read, Write};
use std::process::Abort;
use std::rt::Files;
use std::{env, fs};

/// Loads a file, and looks for these bytes or this fault.
fn check_load<S: Store>(
    rt: &impl Abort,
    alloc: Global,
    store: &mut S,
    name: &str,
    limit: u64,
    want: Result<&[u8], LoadFault>,
) {
    let mut into = Vec::new(alloc);
    let told = match store.load(name, limit, &mut into) {
        Ok(()) => Ok(into.as_slice()),
        Err(fault) => Err(fault),
    };
    assert!(rt; told == want, "{name} within {limit}");
}

/// Saves bytes over a file with others, and loads what stands there: within its length, and within
/// one byte less. Where memory runs out, the file is as it was: shown with each allocation refused
/// in turn, by `rt try --test --fail-alloc 1..`.
fn check_saved<R: Files + Abort>(rt: &R, alloc: Global, name: &str, old: &[u8], new: &[u8]) {
    fs::write(rt, name, old).expect(rt, "a file");
    let mut store = FileStore::new(alloc, rt);
    let held = match store.save(name, new) {
        Ok(()) => new,
        Err(_) => old,
    };
    let length = held.len() as u64;
    check_load(rt, alloc, &mut store, name, length, Ok(held));
    let too_large = Err(LoadFault::TooLarge { length });
    check_load(
        rt,
        alloc,
        &mut store,
        name,
        length.saturating_sub(1),
        too_large,
    );
    assert!(rt; store.failed_loads().is_empty());
    fs::remove_file(rt, name).expect(rt, "no file");
}

/// A shorter file in place of a longer one, and one above 64 KiB.
#[test]
fn files_are_saved_whole(rt: HostRuntime) {
    let mut path = env::temp_dir(&rt).expect(&rt, "a folder");
    path.push("erim_file_tests").expect(&rt, "memory");
    let name = path.as_path().to_str().expect(&rt, "text");
    check_saved(&rt, rt.alloc(), name, b"a longer text", b"abc");
    let mut bytes = Vec::new(rt.alloc());
    for i in 0..70_001u32 {
        bytes.push((i % 251) as u8).expect(&rt, "memory");
    }
    check_saved(&rt, rt.alloc(), name, b"old", &bytes);
}

/// Interrupted once, then two bytes at a time, and at last an error.
#[derive(Drop)]
struct Faulty {
    calls: u8,
}

impl Read for Faulty {
    fn read(&mut self, buf: &mut [u8]) -> io::Result<usize> {
        self.calls = self.calls.saturating_add(1);
        match self.calls {
            1 => Err(io::Error::from(ErrorKind::Interrupted)),
            2 | 3 => Ok(buf.len().min(2)),
            _ => Err(io::Error::from(ErrorKind::Other)),
        }
    }
}

#[test]
fn a_read_that_fails_is_told(rt: HostRuntime) {
    let mut into = Vec::new(rt.alloc());
    let answer = read_within(Faulty { calls: 0 }, 3, &mut into);
    assert!(rt; answer == Err(LoadFault::TooLarge { length: 4 }));
    let mut into = Vec::new(rt.alloc());
    let answer = read_within(Faulty { calls: 0 }, 4, &mut into);
    assert!(rt; answer == Err(LoadFault::Failed));
}

/// One byte at a time, so many of them.
#[derive(Drop)]
struct Dripping {
    left: u8,
}

impl Read for Dripping {
    fn read(&mut self, buf: &mut [u8]) -> io::Result<usize> {
        match buf {
            [first, ..] if self.left > 0 => {
                *first = self.left;
                self.left -= 1;
                Ok(1)
            }
            _ => Ok(0),
        }
    }
}

#[test]
fn bytes_that_drip_are_read_to_the_end(rt: HostRuntime) {
    let mut into = Vec::new(rt.alloc());
    assert!(rt; read_within(Dripping { left: 3 }, 3, &mut into) == Ok(()));
    assert!(rt; into.as_slice() == [3, 2, 1].as_slice());
    let mut into = Vec::new(rt.alloc());
    let answer = read_within(Dripping { left: 4 }, 3, &mut into);
    assert!(rt; answer == Err(LoadFault::TooLarge { length: 4 }));
}

/// Takes a given number of bytes, two at a time, and then none.
#[derive(Drop)]
struct Narrow {
    room: usize,
}

impl Write for Narrow {
    fn write(&mut self, buf: &[u8]) -> io::Result<usize> {
        let count = buf.len().min(2).min(self.room);
        self.room -= count;
        Ok(count)
    }

    fn flush(&mut self) -> io::Result<()> {
        Ok(())
    }
}

/// Puts bytes, and looks for the answer and the count of faults.
fn check_put<W: Write>(
    rt: &impl Abort,
    out: &mut W,
    faults: &mut u64,
    bytes: &[u8],
    want: Result<usize, Failed>,
    count: u64,
) {
    assert!(rt; put_to(out, faults, bytes) == want);
    assert!(rt; *faults == count);
}

#[test]
fn a_full_writer_fails_and_is_counted(rt: HostRuntime) {
    assert!(rt; write_whole(&mut Narrow { room: 5 }, b"abcde") == Ok(()));
    assert!(rt; write_whole(&mut Narrow { room: 4 }, b"abcde") == Err(SaveFault::Failed));
    let mut out = Narrow { room: 3 };
    let mut faults = 0;
    check_put(&rt, &mut out, &mut faults, b"abc", Ok(2), 0);
    check_put(&rt, &mut out, &mut faults, b"abc", Ok(1), 0);
    check_put(&rt, &mut out, &mut faults, b"", Ok(0), 0);
    check_put(&rt, &mut out, &mut faults, b"abc", Err(Failed), 1);
    check_put(&rt, &mut out, &mut faults, b"", Ok(0), 1);
    check_put(&rt, &mut out, &mut faults, b"a", Err(Failed), 2);
}

/// Linux's device of which every write fails for want of room (full(4)).
const FULL: &str = "/dev/full";

/// A load of a file that isn't there, and a save and a put to a full device.
#[test]
fn what_fails_is_told(rt: HostRuntime) {
    let mut store = FileStore::new(rt.alloc(), &rt);
    let nowhere = Err(LoadFault::Failed);
    check_load(
        &rt,
        rt.alloc(),
        &mut store,
        "no such folder/no file",
        9,
        nowhere,
    );
    assert!(rt; store.failed_loads().len() == 1);
    assert!(rt; store.save(FULL, b"abc") == Err(SaveFault::Failed));
    assert!(rt; store.failed_saves().len() == 1);
    let mut out = fs::OpenOptions::new()
        .write(true)
        .open(&rt, FULL)
        .expect(&rt, "the device");
    let mut faults = 0;
    check_put(&rt, &mut out, &mut faults, b"abc", Err(Failed), 1);
}

#[test]
fn standard_output_takes_all(rt: HostRuntime) {
    let mut sink = OutSink::new(&rt);
    assert!(rt; put_all(&mut sink, b"to standard output\n") == Ok(()));
}
