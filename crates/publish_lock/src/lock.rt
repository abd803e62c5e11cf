//! The value behind the lock.

ghost use Rattle.std.specs.Prelude.{◌≡◌, ◌≢◌, ◌+◌, ◌<◌, true, length, slice_index, All};
ghost use Rattle.erim_defs.specs.Machine.ReplayFaults.{is_over};
ghost use Rattle.erim_process.specs.ProcessValue.{state_of};
ghost use Rattle.publish_lock.specs.Rules.{are_of_workers, counts_of, is_marked};
ghost use Rattle.publish_lock.specs.Rules.{is_summed, mark_after, steps_of_turn};
ghost use Rattle.publish_lock.specs.Totals.{are_counted};

use crate::advancing::{Turn, advance};
use crate::books::Books;
use crate::choice::next_thread;
use crate::counting::note_few;
use crate::ledgers::Crew;
use crate::seats::Seat;
use erim_process::Process;
use std::sync::ledger::{Book, Ledger};

/// The process, the total of each worker's steps, and the total of the marks.
#[derive(Drop)]
pub struct Locked<
    L1: Ledger,
    L2: Ledger,
    L3: Ledger,
    L4: Ledger,
    L5: Ledger,
    L6: Ledger,
    L7: Ledger,
    L8: Ledger,
    O: Crew,
> {
    pub process: Process,
    pub workers: u8,
    pub books: Books<L1, L2, L3, L4, L5, L6, L7, L8>,
    pub marks: Book<O>,
    ghost some: { 0 < workers },
    ghost named: { are_of_workers O.workers process.journal ≡ true },
    ghost summed: { is_summed process.journal (state_of process) ≡ true },
    ghost count: { length books ≡ 8 },
    ghost counted: { are_counted 1 books process.journal ≡ true },
    ghost marked: { is_marked marks.total (state_of process) ≡ true },
}

impl<
    L1: Ledger,
    L2: Ledger,
    L3: Ledger,
    L4: Ledger,
    L5: Ledger,
    L6: Ledger,
    L7: Ledger,
    L8: Ledger,
    O: Crew,
> Locked<L1, L2, L3, L4, L5, L6, L7, L8, O> {
    /// A turn of the seat's worker: of the next of its threads, or of any where it has none.
    #[tactic(auto, using(crate::proofs::TotalLemmas::total_fits, crate::proofs::TotalLemmas::counted_more))]
    pub fn take_turn(&mut self, seat: &mut Seat<L1, L2, L3, L4, L5, L6, L7, L8, O>) -> Turn
        ensures number { seat.new.number ≡ seat.old.number }
        ensures steps { seat.new.steps ≡ seat.old.steps + steps_of_turn result }
        ensures mark { seat.new.mark ≡ mark_after result seat.old.mark }
        ensures some { result ≢ Turn.Made 0 }
    {
        let number = seat.number();
        let thread = next_thread(&self.process, seat.thread, number, self.workers);
        let Locked {
            process,
            workers: _,
            books,
            marks,
        } = self;
        let turn = advance(process, number, thread);
        seat.thread = thread;
        note_few(process, number);
        match turn {
            Turn::Made { steps } => books.add(&mut seat.held, &mut seat.steps, steps),
            Turn::Over => {
                if !seat.is_over {
                    marks.add(&mut seat.mark, 1);
                    seat.is_over = true;
                }
            }
        }
        turn
    }

    /// Looks what a seat's shares say of the process.
    #[tactic(auto, using(crate::proofs::TotalLemmas::seat_counted))]
    fn audit(&mut self, counts: &[u32; 9], seat: Seat<L1, L2, L3, L4, L5, L6, L7, L8, O>)
        requires parts { (L1.parts ≡ 1) × (L2.parts ≡ 1) × (L3.parts ≡ 1) × (L4.parts ≡ 1)
            × (L5.parts ≡ 1) × (L6.parts ≡ 1) × (L7.parts ≡ 1) × (L8.parts ≡ 1) }
        requires counts { counts.now ≡ counts_of self.old.process.journal }
        ensures steps { slice_index counts.now seat.number ≡ seat.steps }
        ensures mark { seat.mark ≢ 0 → is_over (state_of self.old.process) ≡ true }
        ensures process { self.new.process ≡ self.old.process }
    {
        let Seat {
            held,
            mut mark,
            steps: _,
            is_over: _,
            thread: _,
        } = seat;
        self.marks.audit(&mut mark);
        self.books.audit(held);
    }

    /// Looks what the shares of all seats say of the process.
    pub fn audit_all(
        &mut self,
        counts: &[u32; 9],
        mut seats: Vec<Seat<L1, L2, L3, L4, L5, L6, L7, L8, O>>,
    )
        requires parts { (L1.parts ≡ 1) × (L2.parts ≡ 1) × (L3.parts ≡ 1) × (L4.parts ≡ 1)
            × (L5.parts ≡ 1) × (L6.parts ≡ 1) × (L7.parts ≡ 1) × (L8.parts ≡ 1) }
        requires counts { counts.now ≡ counts_of self.old.process.journal }
        ensures steps { All (λ seat. slice_index counts.now seat.number ≡ seat.steps) seats.items }
        ensures marks { All (λ seat. seat.mark ≢ 0
            → is_over (state_of self.old.process) ≡ true) seats.items }
        ensures process { self.new.process ≡ self.old.process }
    {
        if let Some(seat) = seats.pop() {
            self.audit(counts, seat);
            self.audit_all(counts, seats);
        }
    }
}
