//! The isolation invariant of the machine, and laws of every run beside it.
//!
//! Each function here is a law: it does nothing, and its contract is proved. `always_kept` says
//! that every state of every run of an image that can be started keeps `IsKept` of `erim_defs`; the
//! others say what that gives until the first escape: where an open thread stands, that only the
//! text of a domain touches its pages, what a new thread is, which pages are published, and which
//! are refused. `erim_process` carries them into the contract of
//! `Process::setup`, and `erim_plain` into the clause of `run`. They rest on two laws of decoding,
//! of `encoding_laws`: one encoding, prefix-free.
#![tactic(auto)]

ghost use Rattle.erim_defs.specs.Machine.Isolation.{AlwaysKept};
ghost use Rattle.isolation.specs.Laws.{ChecksLaw, KeyLaw, LawfulLaw, CloneLaw, OpenLaw, PlainLaw};
ghost use Rattle.isolation.specs.Laws.{PublishLaw, RefuseLaw, StartLaw, TouchLaw};

/// The isolation invariant holds in every state of every run.
pub fn always_kept()
    ensures { AlwaysKept }
{}

/// What is found of a setup without running it makes it one that can be started.
pub fn checked_is_startable()
    ensures { StartLaw }
{}

/// At the start, trusted data and trusted heaps are mapped with the key of their record, which is a
/// domain.
pub fn trusted_pages_have_their_key()
    ensures { KeyLaw }
{}

/// A trust note of version 1 means one domain, of key 1.
pub fn version_1_has_one_domain()
    ensures { PlainLaw }
{}

/// Before an escape, each step of a thread that is open and not at home is an exec fault, the next
/// instruction of its check, or the end of the process. A thread is at home in the text of a domain
/// where it opens no other.
pub fn checks_on()
    ensures { ChecksLaw }
{}

/// Before an escape, only a thread that opens a domain and stands in its text touches its memory.
/// Reading the pages of an integrity domain isn't touching.
pub fn only_owners_touch()
    ensures { TouchLaw }
{}

/// A thread comes to open a domain only by a WRPKRU or an XRSTOR that occurs in the code, and then
/// stands at an entry, where that is enough, or before the check.
pub fn opening_takes_a_sequence()
    ensures { OpenLaw }
{}

/// A thread is made by the system call clone alone. It stands where its maker stands, and opens
/// what its maker opens; before an escape it is closed or at home, and has no origin.
pub fn clone_keeps_rights()
    ensures { CloneLaw }
{}

/// A page becomes published exactly at an exec fault on a page that asks to be executed, where
/// nothing unsafe stands in the code with that page.
pub fn publication_is_exact()
    ensures { PublishLaw }
{}

/// A run ends as refused exactly at such an exec fault, for the first that is unsafe in the code
/// with that page.
pub fn refusal_is_exact()
    ensures { RefuseLaw }
{}

/// The laws of `only_owners_touch`, `checks_on`, `opening_takes_a_sequence`, `clone_keeps_rights`,
/// `publication_is_exact` and `refusal_is_exact`, all of them of each step of each run from a setup
/// that can be started.
pub fn steps_are_lawful()
    ensures { LawfulLaw }
{}
