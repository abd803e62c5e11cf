//! What a command may be given: its operands and options.

/// What a word has to be.
#[derive(Clone, Copy)]
pub(crate) enum Kind {
    /// Anything.
    Name,
    /// An optional `+` and decimal digits, of a number in this range.
    Number { least: u64, most: u64 },
}

/// An operand or an option.
#[derive(Clone, Copy)]
pub(crate) struct Slot {
    /// The operand's name, or the option's without its dashes.
    pub name: &'static str,
    pub kind: Kind,
}
