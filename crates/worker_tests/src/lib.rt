//! Tests of `run` whose workers are held between their turns, by a gate.
#![tactic(auto)]

#[cfg(test)]
mod meeting;
