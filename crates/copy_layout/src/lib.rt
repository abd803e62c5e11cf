//! The layout of copies: where the copy of each region of an image lies, and which bytes the new
//! segment has.
//!
//! `lay_copies` lays the copies one after the other from the first free page on, each after the
//! fewest NOPs with which no sequence that writes PKRU touches it or the jump to it; or it names
//! the first region that has no copy. It meets `laid_copies` of `erim_defs`, and the segment is
//! `segment_bytes` of the copies. `Layout` holds both, and `LayoutFault` says why there is none.
//! `new_base`, `file_place` and `in_note` are for who writes the file. In the files: `base` finds
//! the first free page, `elsewhere` asks whether a region's bytes lie elsewhere in the file too,
//! `region_bytes` has what stands at a region, `patch` lays that over the old code, `near` picks
//! the patches near some addresses, `segment_bytes` has the bytes of the new segment, `trial` is
//! what a candidate is tried among, `front` and `sight` look for sequences there, `placing` tries
//! the NOPs, and `layout` goes over the regions.
#![tactic(auto)]

mod base;
mod elsewhere;
mod front;
mod layout;
mod near;
mod patch;
mod placing;
mod region_bytes;
mod segment_bytes;
mod sight;
mod trial;

pub use base::new_base;
pub use elsewhere::{file_place, in_note};
pub use layout::{Layout, LayoutFault, first_at, lay_copies};
