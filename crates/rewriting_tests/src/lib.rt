//! Tests of the library calls of rewriting: what rows of commands can't show (`command_rows`).
#![tactic(auto)]

#[cfg(test)]
mod sites;
