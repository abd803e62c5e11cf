//! Tests of stores and sinks over real files and faulty readers and writers, and of the bytes of
//! one journal.
#![tactic(auto)]

#[cfg(test)]
mod files;
#[cfg(test)]
mod journals;
