//! A journal that was read.

use erim_defs::Entry;
use std::marker::Model;

/// The steps of a run, with the budget of steps and the frames that it had.
#[derive(Drop)]
pub struct Journal {
    pub budget: u32,
    pub frames: u32,
    pub entries: Vec<Entry>,
}

impl Model for Journal {
    ghost use Rattle.erim_defs.specs.Output.Journal.{JournalValue};

    ghost Value = { JournalValue };

    ghost view = { λ j.
        record { budget = j.budget; frames = j.frames; entries = j.entries.items } };
}
