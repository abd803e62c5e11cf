//! Tests of processes, step by step: what rows of commands can't show (`command_rows`).
#![tactic(auto)]

#[cfg(test)]
mod races;
