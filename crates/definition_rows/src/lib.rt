//! Rows of the definitions of `erim_defs`, computed: what each definition gives on small arguments.
//! Values are from the standards, from the rules' own text and by hand; a row often names the slip
//! that it catches.
//!
//! It has no function and nothing stands on it, so that one more row proves nothing else anew. Each
//! file of `proofs/` has the rows of one subject; `SmallMachine` has the small image and the small
//! states that those of the machine share, `DomainImages` the images of domains.
#![tactic(auto)]
