//! Tests of runs in time slices and by workers: what rows of commands can't show (`command_rows`).
//! Images are laid out from lines (`laying`).
#![tactic(auto)]

#[cfg(test)]
mod laying;
#[cfg(test)]
mod slices;
#[cfg(test)]
mod turns;
#[cfg(test)]
mod workers;
