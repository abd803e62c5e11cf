//! A process that workers share.

ghost use Rattle.std.specs.Prelude.{◌≡◌, ◌≢◌, ◌+◌, ◌<◌, ◌≤◌, true, [], length, min, sum};
ghost use Rattle.std.specs.Prelude.{slice_index, All, IfOk, OnOk};
ghost use Rattle.erim_defs.specs.Machine.ReplayFaults.{is_over};
ghost use Rattle.erim_process.specs.ProcessValue.{state_of};
ghost use Rattle.publish_lock.specs.Held.{amount_of, number_of, parts_of};
ghost use Rattle.publish_lock.specs.Rules.{are_of_workers, counts_of, mark_after, steps_of_turn};
ghost use Rattle.publish_lock.specs.Seats.{are_new};

use crate::advancing::Turn;
use crate::books::Books;
use crate::counting::{count_steps, note_started};
use crate::gates::Gate;
use crate::ledgers::{Crew, Held};
use crate::lock::Locked;
use crate::seats::Seat;
use erim_defs::NoMemory;
use erim_process::Process;
use std::alloc::Global;
use std::sync::ledger::{Blank, Ledger, Share};
use std::sync::{Mutex, Wait};

/// A process that workers share.
#[derive(Drop)]
pub struct Shared<
    L1: Ledger,
    L2: Ledger,
    L3: Ledger,
    L4: Ledger,
    L5: Ledger,
    L6: Ledger,
    L7: Ledger,
    L8: Ledger,
    O: Crew,
> {
    lock: Mutex<Locked<L1, L2, L3, L4, L5, L6, L7, L8, O>>,
}

/// What a shared process leaves: the process, and how many steps each worker made, by its number.
#[derive(Drop)]
pub struct Closed {
    pub process: Process,
    pub counts: [u32; 9],
}

impl<
    L1: Ledger,
    L2: Ledger,
    L3: Ledger,
    L4: Ledger,
    L5: Ledger,
    L6: Ledger,
    L7: Ledger,
    L8: Ledger,
    O: Crew,
> Shared<L1, L2, L3, L4, L5, L6, L7, L8, O> {
    /// Shares a process that was just started among 1 to 8 workers, and gives their seats by rising
    /// number. Each blank becomes a ledger, in order those of the workers 1 to 8 and that of the
    /// marks.
    pub fn new(
        alloc: Global,
        one: Blank,
        two: Blank,
        three: Blank,
        four: Blank,
        five: Blank,
        six: Blank,
        seven: Blank,
        eight: Blank,
        marks: Blank,
        process: Process,
        workers: u8,
    ) -> Result<
        (
            Shared<L1, L2, L3, L4, L5, L6, L7, L8, O>,
            Vec<Seat<L1, L2, L3, L4, L5, L6, L7, L8, O>>,
        ),
        NoMemory,
    >
        requires one_name { one.name ≡ L1.name }
        requires one_parts { (one.parts ≡ L1.parts) × (one.parts ≡ 1) }
        requires two_name { two.name ≡ L2.name }
        requires two_parts { (two.parts ≡ L2.parts) × (two.parts ≡ 1) }
        requires three_name { three.name ≡ L3.name }
        requires three_parts { (three.parts ≡ L3.parts) × (three.parts ≡ 1) }
        requires four_name { four.name ≡ L4.name }
        requires four_parts { (four.parts ≡ L4.parts) × (four.parts ≡ 1) }
        requires five_name { five.name ≡ L5.name }
        requires five_parts { (five.parts ≡ L5.parts) × (five.parts ≡ 1) }
        requires six_name { six.name ≡ L6.name }
        requires six_parts { (six.parts ≡ L6.parts) × (six.parts ≡ 1) }
        requires seven_name { seven.name ≡ L7.name }
        requires seven_parts { (seven.parts ≡ L7.parts) × (seven.parts ≡ 1) }
        requires eight_name { eight.name ≡ L8.name }
        requires eight_parts { (eight.parts ≡ L8.parts) × (eight.parts ≡ 1) }
        requires marks_name { marks.name ≡ O.name }
        requires marks_parts { (marks.parts ≡ O.parts) × (marks.parts ≡ 8) }
        requires started { process.journal ≡ [] }
        requires some_workers { 1 ≤ workers }
        requires few_workers { workers ≤ 8 }
        requires crew { workers ≡ O.workers }
        ensures count { IfOk result (λ shared. length shared.1.items ≡ workers) }
        ensures seats { IfOk result (λ shared. are_new 1 shared.1.items ≡ true) }
    {
        let (one, one_share) = one.open::<L1>();
        let (two, two_share) = two.open::<L2>();
        let (three, three_share) = three.open::<L3>();
        let (four, four_share) = four.open::<L4>();
        let (five, five_share) = five.open::<L5>();
        let (six, six_share) = six.open::<L6>();
        let (seven, seven_share) = seven.open::<L7>();
        let (eight, eight_share) = eight.open::<L8>();
        let (marks, mut mark) = marks.open::<O>();
        let seats = take_seats(
            alloc,
            one_share,
            two_share,
            three_share,
            four_share,
            five_share,
            six_share,
            seven_share,
            eight_share,
            &mut mark,
            workers,
        )?;
        note_started(&process);
        let lock = Mutex::new(Locked {
            process,
            workers,
            books: Books::new(one, two, three, four, five, six, seven, eight),
            marks,
        });
        Ok((Shared { lock }, seats))
    }

    /// A turn of the seat's worker: calls the gate, takes the lock, and makes one step under the
    /// seat's number, of the next of the worker's threads, or of any where it has none. `Over`
    /// comes only where the process has ended or is spent.
    pub fn turn<R: Wait, T: Gate>(
        &self,
        rt: &R,
        seat: &mut Seat<L1, L2, L3, L4, L5, L6, L7, L8, O>,
        gate: &T,
    ) -> Turn
        ensures number { seat.new.number ≡ seat.old.number }
        ensures steps { seat.new.steps ≡ seat.old.steps + steps_of_turn result }
        ensures mark { seat.new.mark ≡ mark_after result seat.old.mark }
        ensures some { result ≢ Turn.Made 0 }
    {
        gate.before_commit(seat.number());
        self.lock.lock(rt).take_turn(seat)
    }

    /// Gives the process back, and looks what the seats say of it.
    pub fn close(self, seats: Vec<Seat<L1, L2, L3, L4, L5, L6, L7, L8, O>>) -> Closed
        requires parts { (L1.parts ≡ 1) × (L2.parts ≡ 1) × (L3.parts ≡ 1) × (L4.parts ≡ 1)
            × (L5.parts ≡ 1) × (L6.parts ≡ 1) × (L7.parts ≡ 1) × (L8.parts ≡ 1) }

        // The counts are the journal's steps by worker, and together the steps of the process.
        ensures counts { result.counts ≡ counts_of result.process.journal }
        ensures summed { sum result.counts ≡ (state_of result.process).steps }

        // Each seat's steps are those under its number, and its mark isn't 0 only where the process
        // is over.
        ensures steps { All (λ seat.
            slice_index result.counts seat.number ≡ seat.steps) seats.items }
        ensures marks { All (λ seat. seat.mark ≢ 0
            → is_over (state_of result.process) ≡ true) seats.items }

        // No entry is of worker 0 or of one above the number of workers.
        ensures named { are_of_workers O.workers result.process.journal ≡ true }
    {
        let Shared { lock } = self;
        let mut locked = lock.into_inner();
        let counts = count_steps(&locked.process);
        locked.audit_all(&counts, seats);
        let Locked {
            process,
            workers: _,
            books: _,
            marks: _,
        } = locked;
        Closed { process, counts }
    }
}

/// Gives the workers their seats, by rising number.
fn take_seats<
    L1: Ledger,
    L2: Ledger,
    L3: Ledger,
    L4: Ledger,
    L5: Ledger,
    L6: Ledger,
    L7: Ledger,
    L8: Ledger,
    O: Crew,
>(
    alloc: Global,
    one: Share<L1>,
    two: Share<L2>,
    three: Share<L3>,
    four: Share<L4>,
    five: Share<L5>,
    six: Share<L6>,
    seven: Share<L7>,
    eight: Share<L8>,
    mark: &mut Share<O>,
    workers: u8,
) -> Result<Vec<Seat<L1, L2, L3, L4, L5, L6, L7, L8, O>>, NoMemory>
    requires one { (one.parts ≡ 1) × (one.amount ≡ 0) }
    requires two { (two.parts ≡ 1) × (two.amount ≡ 0) }
    requires three { (three.parts ≡ 1) × (three.amount ≡ 0) }
    requires four { (four.parts ≡ 1) × (four.amount ≡ 0) }
    requires five { (five.parts ≡ 1) × (five.amount ≡ 0) }
    requires six { (six.parts ≡ 1) × (six.amount ≡ 0) }
    requires seven { (seven.parts ≡ 1) × (seven.amount ≡ 0) }
    requires eight { (eight.parts ≡ 1) × (eight.amount ≡ 0) }
    requires left { 8 ≤ mark.old.parts }
    requires none { mark.old.amount ≡ 0 }
    requires few_workers { workers ≤ 8 }
    requires crew { workers ≡ O.workers }
    ensures count { IfOk result (λ seats. length seats.items ≡ workers) }
    ensures seats { IfOk result (λ seats. are_new 1 seats.items ≡ true) }
{
    let mut seats = Vec::with_capacity(alloc, 8)?;
    hand_out(&mut seats, Held::One(one), 1, mark, workers)?;
    hand_out(&mut seats, Held::Two(two), 2, mark, workers)?;
    hand_out(&mut seats, Held::Three(three), 3, mark, workers)?;
    hand_out(&mut seats, Held::Four(four), 4, mark, workers)?;
    hand_out(&mut seats, Held::Five(five), 5, mark, workers)?;
    hand_out(&mut seats, Held::Six(six), 6, mark, workers)?;
    hand_out(&mut seats, Held::Seven(seven), 7, mark, workers)?;
    hand_out(&mut seats, Held::Eight(eight), 8, mark, workers)?;
    Ok(seats)
}

/// Gives the next worker its seat, where there is such a worker.
#[tactic(auto, using(crate::proofs::SeatLemmas::new_more))]
fn hand_out<
    L1: Ledger,
    L2: Ledger,
    L3: Ledger,
    L4: Ledger,
    L5: Ledger,
    L6: Ledger,
    L7: Ledger,
    L8: Ledger,
    O: Crew,
>(
    seats: &mut Vec<Seat<L1, L2, L3, L4, L5, L6, L7, L8, O>>,
    held: Held<L1, L2, L3, L4, L5, L6, L7, L8>,
    number: u8,
    mark: &mut Share<O>,
    workers: u8,
) -> Result<(), NoMemory>
    requires held { (parts_of held ≡ 1) × (amount_of held ≡ 0) }
    requires left { 0 < mark.old.parts }
    requires none { mark.old.amount ≡ 0 }
    requires number { number ≡ number_of held }
    requires workers { workers ≡ O.workers }
    requires count { length seats.old.items + 1 ≡ min (number_of held) (workers + 1) }
    requires seats { are_new 1 seats.old.items ≡ true }
    ensures left { mark.old.parts ≤ mark.new.parts + 1 }
    ensures none { mark.new.amount ≡ 0 }
    ensures count { OnOk result (length seats.new.items ≡ min (number_of held) workers) }
    ensures seats { OnOk result (are_new 1 seats.new.items ≡ true) }
{
    if number <= workers {
        seats.push(new_seat(held, mark))?;
    }
    Ok(())
}

/// A seat that has made no step.
fn new_seat<
    L1: Ledger,
    L2: Ledger,
    L3: Ledger,
    L4: Ledger,
    L5: Ledger,
    L6: Ledger,
    L7: Ledger,
    L8: Ledger,
    O: Crew,
>(
    held: Held<L1, L2, L3, L4, L5, L6, L7, L8>,
    mark: &mut Share<O>,
) -> Seat<L1, L2, L3, L4, L5, L6, L7, L8, O>
    requires held { (parts_of held ≡ 1) × (amount_of held ≡ 0) }
    requires left { 0 < mark.old.parts }
    requires none { mark.old.amount ≡ 0 }
    requires among { number_of held ≤ O.workers }
    ensures number { result.number ≡ number_of held }
    ensures steps { result.steps ≡ 0 }
    ensures mark { result.mark ≡ 0 }
    ensures left { mark.new.parts + 1 ≡ mark.old.parts }
    ensures none { mark.new.amount ≡ 0 }
{
    Seat {
        held,
        mark: mark.split_off(1, 0),
        steps: 0,
        is_over: false,
        thread: 15,
    }
}
