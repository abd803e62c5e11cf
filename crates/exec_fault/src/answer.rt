//! What is decided at an exec fault.

use erim_defs::Found;

/// What is decided on a page that a thread wants to execute.
#[derive(Clone, Copy)]
pub enum Verdict {
    /// Nothing unsafe stands in the code with the page.
    Publish,
    /// The first that does.
    Refuse { found: Found },
}
