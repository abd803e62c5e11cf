//! A worker's seat.

ghost use Rattle.std.specs.Prelude.{◌≡◌, ◌≢◌, ◌↔◌, ◌<◌, ◌≤◌, IsTrue, ℕ};

use crate::ledgers::{Crew, Held};
use std::marker::Model;
use std::sync::ledger::{Ledger, Share};

/// A worker's seat. Contracts see it as the worker's number, the steps of its turns and its mark,
/// which isn't 0 only where the process is over.
#[derive(Drop)]
pub struct Seat<
    L1: Ledger,
    L2: Ledger,
    L3: Ledger,
    L4: Ledger,
    L5: Ledger,
    L6: Ledger,
    L7: Ledger,
    L8: Ledger,
    O: Crew,
> {
    pub(crate) held: Held<L1, L2, L3, L4, L5, L6, L7, L8>,
    pub(crate) mark: Share<O>,
    pub(crate) steps: u32,
    pub(crate) is_over: bool,
    /// The thread that it stepped last.
    pub(crate) thread: u8,
}

impl<
    L1: Ledger,
    L2: Ledger,
    L3: Ledger,
    L4: Ledger,
    L5: Ledger,
    L6: Ledger,
    L7: Ledger,
    L8: Ledger,
    O: Crew,
> Model for Seat<L1, L2, L3, L4, L5, L6, L7, L8, O> {
    ghost use Rattle.publish_lock.specs.SeatValue.{SeatValue};
    ghost use Rattle.std.specs.Prelude.{◌≡◌, ◌≤◌};

    ghost Value = { SeatValue };

    ghost use Rattle.publish_lock.specs.Held.{number_of, amount_of, parts_of, mark_of};

    ghost view = { λ s. record {
      number = number_of s.held;
      steps = amount_of s.held;
      mark = s.mark.amount;
    } };

    ghost invariant = { λ s. (parts_of s.held ≡ 1) × (s.mark.parts ≡ 1)
        × (s.steps ≡ amount_of s.held) × (s.mark.amount ≡ mark_of s.is_over)
        × (number_of s.held ≤ O.workers) };
}

impl<
    L1: Ledger,
    L2: Ledger,
    L3: Ledger,
    L4: Ledger,
    L5: Ledger,
    L6: Ledger,
    L7: Ledger,
    L8: Ledger,
    O: Crew,
> Seat<L1, L2, L3, L4, L5, L6, L7, L8, O> {
    /// The worker's number.
    pub fn number(&self) -> u16
        ensures value { result ≡ self.now.number }
        ensures some { 0 < self.now.number }
        ensures few { self.now.number ≤ 8 }
        ensures among { self.now.number ≤ O.workers }
    {
        match &self.held {
            Held::One(_) => 1,
            Held::Two(_) => 2,
            Held::Three(_) => 3,
            Held::Four(_) => 4,
            Held::Five(_) => 5,
            Held::Six(_) => 6,
            Held::Seven(_) => 7,
            Held::Eight(_) => 8,
        }
    }

    /// The steps that its turns made.
    pub fn steps(&self) -> u32
        ensures { result ≡ self.now.steps }
    {
        self.steps
    }

    /// Did a turn find the process over?
    pub fn over(&self) -> bool
        ensures { IsTrue result ↔ (self.now.mark ≢ 0) }
    {
        self.is_over
    }
}
