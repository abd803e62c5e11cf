//! The books of the workers' ledgers, whose totals are the steps of the workers.

ghost use Rattle.std.specs.Prelude.{◌≡◌, ◌+◌, ◌<◌, ◌^◌, ◌∷◌, [], length};
ghost use Rattle.publish_lock.specs.Held.{amount_of, number_of, parts_of};
ghost use Rattle.publish_lock.specs.Totals.{total_of, with_steps};

use crate::ledgers::{Held, add_steps};
use std::marker::Model;
use std::sync::ledger::{Book, Ledger};

/// A book for each worker. Contracts see them as the list of their totals, by the workers' numbers.
#[derive(Drop)]
pub struct Books<
    L1: Ledger,
    L2: Ledger,
    L3: Ledger,
    L4: Ledger,
    L5: Ledger,
    L6: Ledger,
    L7: Ledger,
    L8: Ledger,
> {
    one: Book<L1>,
    two: Book<L2>,
    three: Book<L3>,
    four: Book<L4>,
    five: Book<L5>,
    six: Book<L6>,
    seven: Book<L7>,
    eight: Book<L8>,
}

impl<
    L1: Ledger,
    L2: Ledger,
    L3: Ledger,
    L4: Ledger,
    L5: Ledger,
    L6: Ledger,
    L7: Ledger,
    L8: Ledger,
> Model for Books<L1, L2, L3, L4, L5, L6, L7, L8> {
    ghost use Rattle.std.specs.Prelude.{ℕ, List, [], ◌∷◌};

    ghost Value = { List ℕ };

    ghost view = { λ b. b.one.total ∷ b.two.total ∷ b.three.total ∷ b.four.total
        ∷ b.five.total ∷ b.six.total ∷ b.seven.total ∷ b.eight.total ∷ [] };
}

impl<
    L1: Ledger,
    L2: Ledger,
    L3: Ledger,
    L4: Ledger,
    L5: Ledger,
    L6: Ledger,
    L7: Ledger,
    L8: Ledger,
> Books<L1, L2, L3, L4, L5, L6, L7, L8> {
    /// Books that were just opened, in the order of the workers' numbers.
    pub fn new(
        one: Book<L1>,
        two: Book<L2>,
        three: Book<L3>,
        four: Book<L4>,
        five: Book<L5>,
        six: Book<L6>,
        seven: Book<L7>,
        eight: Book<L8>,
    ) -> Books<L1, L2, L3, L4, L5, L6, L7, L8>
        ensures { result ≡ one.total ∷ two.total ∷ three.total ∷ four.total
            ∷ five.total ∷ six.total ∷ seven.total ∷ eight.total ∷ [] }
    {
        Books {
            one,
            two,
            three,
            four,
            five,
            six,
            seven,
            eight,
        }
    }

    /// Adds steps to a worker's share, to its total and to the number that repeats the share.
    pub fn add(
        &mut self,
        held: &mut Held<L1, L2, L3, L4, L5, L6, L7, L8>,
        made: &mut u32,
        steps: u32,
    )
        requires parts { 0 < parts_of held.old }
        requires made { made.old ≡ amount_of held.old }
        requires fits { total_of self.old (number_of held.old) + steps < 2 ^ 32 }
        ensures totals { self.new ≡ with_steps self.old (number_of held.old) steps }
        ensures count { length self.new ≡ 8 }
        ensures number { number_of held.new ≡ number_of held.old }
        ensures amount { amount_of held.new ≡ amount_of held.old + steps }
        ensures parts { parts_of held.new ≡ parts_of held.old }
        ensures made { made.new ≡ amount_of held.new }
    {
        match held {
            Held::One(share) => add_steps(&mut self.one, share, made, steps),
            Held::Two(share) => add_steps(&mut self.two, share, made, steps),
            Held::Three(share) => add_steps(&mut self.three, share, made, steps),
            Held::Four(share) => add_steps(&mut self.four, share, made, steps),
            Held::Five(share) => add_steps(&mut self.five, share, made, steps),
            Held::Six(share) => add_steps(&mut self.six, share, made, steps),
            Held::Seven(share) => add_steps(&mut self.seven, share, made, steps),
            Held::Eight(share) => add_steps(&mut self.eight, share, made, steps),
        }
    }

    /// Looks what the only share of a worker says of its total.
    pub fn audit(&mut self, held: Held<L1, L2, L3, L4, L5, L6, L7, L8>)
        requires ledgers { (L1.parts ≡ 1) × (L2.parts ≡ 1) × (L3.parts ≡ 1) × (L4.parts ≡ 1)
            × (L5.parts ≡ 1) × (L6.parts ≡ 1) × (L7.parts ≡ 1) × (L8.parts ≡ 1) }
        requires parts { parts_of held ≡ 1 }
        ensures total { total_of self.old (number_of held) ≡ amount_of held }
        ensures same { self.new ≡ self.old }
    {
        match held {
            Held::One(mut share) => self.one.audit(&mut share),
            Held::Two(mut share) => self.two.audit(&mut share),
            Held::Three(mut share) => self.three.audit(&mut share),
            Held::Four(mut share) => self.four.audit(&mut share),
            Held::Five(mut share) => self.five.audit(&mut share),
            Held::Six(mut share) => self.six.audit(&mut share),
            Held::Seven(mut share) => self.seven.audit(&mut share),
            Held::Eight(mut share) => self.eight.audit(&mut share),
        }
    }
}
