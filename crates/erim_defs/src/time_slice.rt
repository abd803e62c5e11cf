//! The time slices of threads that are stepped in turn.

/// Which thread makes a step, and how many more it may make in a row.
#[derive(Clone, Copy, PartialEq, Eq)]
pub struct TimeSlice {
    pub thread: u8,
    /// The steps after this one that are its own.
    pub left: u32,
}
