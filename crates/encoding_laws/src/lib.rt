//! Lemmas on the encoding of instructions that several crates cite: that one reading is all that
//! bytes have, what a spelling ends with, and which bytes the checks and the sequences are.
//!
//! It has no function. `x86_decode`, `x86_encode` and `isolation` cite its `proofs/`; they stand in
//! a crate of their own so that a lemma on ModRM proves neither images nor pages anew.
#![tactic(auto)]
