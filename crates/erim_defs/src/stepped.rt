//! What a step answers.

/// What a step answers.
#[derive(Clone, Copy, PartialEq, Eq)]
pub enum Stepped {
    /// One step was made.
    Made,
    /// The process has ended.
    Ended,
    /// It hasn't, and its budget is spent.
    Spent,
    /// Neither, and there is no such live thread.
    NotLive,
}
