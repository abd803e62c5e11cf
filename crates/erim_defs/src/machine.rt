//! What the machine is made of: rights of pages, threads, faults, ends, and the entries of a
//! journal.

ghost use Rattle.std.specs.Prelude.{◌≡◌, ◌<◌};
ghost use Rattle.erim_defs.specs.Machine.Pages.{asks_exec, asks_write, published_rights};
ghost use Rattle.erim_defs.specs.Machine.Pages.{taken_back_rights};
ghost use Rattle.erim_defs.specs.Machine.Step.{is_write_fault};
ghost use Rattle.erim_defs.specs.Machine.Start.{unpublished_rights};

use crate::found::Found;
use crate::pkru::opens_write;

/// The rights of a mapped page. `asked` is below 8 and `key` below 16.
#[derive(Clone, Copy, PartialEq, Eq)]
pub struct Rights {
    /// May it be read?
    pub read: bool,
    /// May it be written?
    pub write: bool,
    /// Is it published, so that its bytes can be fetched?
    pub exec: bool,
    /// The protection bits that were last asked: PROT_READ 1, PROT_WRITE 2, PROT_EXEC 4.
    pub asked: u8,
    /// Its protection key.
    pub key: u8,
}

impl Rights {
    /// Does the page ask PROT_WRITE, bit 1?
    pub fn asks_write(&self) -> bool
        ensures { result ≡ asks_write self.now.asked }
    {
        self.asked / 2 % 2 == 1
    }

    /// Does the page ask PROT_EXEC, bit 2?
    pub fn asks_exec(&self) -> bool
        ensures { result ≡ asks_exec self.now.asked }
    {
        self.asked / 4 % 2 == 1
    }

    /// The rights of a page that asks these protection bits, below 8, and isn't published.
    pub fn unpublished_rights(asked: u8, key: u8) -> Rights
        ensures { result ≡ unpublished_rights asked key }
    {
        Rights {
            read: asked != 0,
            write: asked / 2 % 2 == 1,
            exec: false,
            asked,
            key,
        }
    }

    /// May a thread with this PKRU write the page, but for its publication?
    pub fn is_write_fault(&self, pkru: u32) -> bool
        requires { self.now.key < 16 }
        ensures { result ≡ is_write_fault self.now pkru }
    {
        self.exec && self.asks_write() && opens_write(pkru, self.key)
    }

    /// The rights of the page once a write took its publication back.
    pub fn taken_back_rights(&self) -> Rights
        ensures { result ≡ taken_back_rights self.now }
    {
        Rights {
            exec: false,
            write: true,
            ..*self
        }
    }

    /// The rights of the page once it is published: it can be fetched, and isn't writable.
    pub fn published_rights(&self) -> Rights
        ensures { result ≡ published_rights self.now }
    {
        Rights {
            exec: true,
            write: false,
            ..*self
        }
    }
}

/// Which protection keys are allocated: key k where bit k is set. Keys are below 16.
#[derive(Clone, Copy, PartialEq, Eq)]
pub struct Keys {
    pub taken: u16,
}

/// The flags that instructions compute (SDM volume 1, "EFLAGS register").
#[derive(Clone, Copy, PartialEq, Eq)]
pub struct Flags {
    pub cf: bool,
    pub pf: bool,
    pub zf: bool,
    pub sf: bool,
    pub of: bool,
}

/// A result, and the flags after it.
#[derive(Clone, Copy, PartialEq, Eq)]
pub struct Outcome {
    pub value: u64,
    pub flags: Flags,
}

/// A thread. Registers are RAX RCX RDX RBX RSP RBP RSI RDI R8 to R15.
#[derive(Clone, Copy, PartialEq, Eq)]
pub struct Thread {
    pub regs: [u64; 16],
    pub rip: u64,
    pub flags: Flags,
    /// What its protection keys permit (SDM volume 3A, "Protection keys").
    pub pkru: u32,
    /// The last WRPKRU or XRSTOR that it executed, as long as it is open and not at home; a new
    /// thread has its maker's.
    pub origin: Option<Found>,
    /// Has it not ended yet?
    pub live: bool,
}

/// Why an instruction, an access or a fetch faults.
#[derive(Clone, Copy, PartialEq, Eq)]
pub enum Cause {
    /// No page is mapped there, or it is no user address.
    Unmapped,
    /// The page may not be read.
    Read,
    /// The page may not be written.
    Write,
    /// PKRU forbids it.
    Key,
    /// The page may not be fetched from.
    Exec,
    /// The bytes are no instruction.
    Undefined,
    /// The instruction's own conditions don't hold.
    General,
}

/// Why an access stops.
#[derive(Clone, Copy, PartialEq, Eq)]
pub enum Access {
    /// It faults, at this address.
    Fault { cause: Cause, addr: u64 },
    /// The memory doesn't hold this page.
    Missing { page: u64 },
}

/// How a process ends.
#[derive(Clone, Copy, PartialEq, Eq)]
pub enum End {
    /// By its own call.
    Exit {
        code: u8,
    },
    /// By a fault of a thread at this RIP. `addr` is the address that faulted.
    Fault {
        thread: u8,
        rip: u64,
        cause: Cause,
        addr: u64,
    },
    /// A page wasn't published, for this first unsafe sequence.
    Refused {
        page: u64,
        found: Found,
        thread: u8,
    },
}

/// The first step by which a thread that was open and at home is open and not at home, but for the
/// steps of instructions that write PKRU.
#[derive(Clone, Copy, PartialEq, Eq)]
pub struct Escape {
    /// The step, counted from 1.
    pub step: u32,
    pub thread: u8,
    /// Where the thread stood afterwards.
    pub rip: u64,
}

/// A given number of steps of a thread, made by a worker.
#[derive(Clone, Copy, PartialEq, Eq)]
pub struct Entry {
    pub worker: u16,
    pub thread: u16,
    pub count: u32,
}
