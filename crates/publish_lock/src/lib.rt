//! A process that several workers step, one at a time, behind a lock.
//!
//! `Shared::new` takes a process that was just started and gives each worker a seat. A `turn` of a
//! seat takes the lock and makes one step under the seat's number, or answers that the process is
//! over; `advance` is what it does to the process. `close` gives the process back, with the number
//! of steps of each worker.
//!
//! The value behind the lock always keeps (`specs/Rules.antt`): each entry of the journal is of one
//! of the workers, the journal's steps are the process's, the steps of each worker are the total of
//! a ledger of that worker's own, and where the total of a ninth ledger, of marks, isn't 0 the
//! process is over. A seat holds the shares of its worker in both. A share and its total rise only
//! together, under the lock: so the steps that a seat's turns made are exactly the steps that the
//! journal has under its number.
#![tactic(auto)]

mod advancing;
mod books;
mod choice;
mod counting;
mod crossing;
mod gates;
mod ledgers;
mod lock;
mod seats;
mod sharing;

pub use advancing::{Turn, advance};
pub use crossing::seats_cross;
pub use gates::Gate;
pub use ledgers::Crew;
pub use seats::Seat;
pub use sharing::{Closed, Shared};
