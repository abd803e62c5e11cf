//! Ledgers of the workers' steps, and of the marks.

ghost use Rattle.std.specs.Prelude.{◌≡◌, ◌+◌, ◌<◌, ◌^◌, ℕ};

use std::marker::Brand;
use std::sync::ledger::{Book, Ledger, Share};

/// The ledger of the marks, with the number of workers.
pub trait Crew: Ledger {
    ghost workers: { ℕ };
}

impl Crew for Brand {
    ghost workers = { 0 };
}

/// The share of the worker of this number in its ledger.
#[derive(Drop)]
pub enum Held<
    L1: Ledger,
    L2: Ledger,
    L3: Ledger,
    L4: Ledger,
    L5: Ledger,
    L6: Ledger,
    L7: Ledger,
    L8: Ledger,
> {
    One(Share<L1>),
    Two(Share<L2>),
    Three(Share<L3>),
    Four(Share<L4>),
    Five(Share<L5>),
    Six(Share<L6>),
    Seven(Share<L7>),
    Eight(Share<L8>),
}

/// Adds steps to a share, to its book and to the number that repeats the share.
pub fn add_steps<L: Ledger>(book: &mut Book<L>, share: &mut Share<L>, made: &mut u32, steps: u32)
    requires parts { 0 < share.old.parts }
    requires made { made.old ≡ share.old.amount }
    requires fits { book.old.total + steps < 2 ^ 32 }
    ensures total { book.new.total ≡ book.old.total + steps }
    ensures amount { share.new.amount ≡ share.old.amount + steps }
    ensures parts { share.new.parts ≡ share.old.parts }
    ensures made { made.new ≡ share.new.amount }
{
    book.add(share, u64::from(steps));
    book.audit(share);
    *made += steps;
}
