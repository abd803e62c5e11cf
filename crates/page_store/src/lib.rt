//! The pages of a process: their rights and bytes, and the accesses that they allow.
//!
//! `Memory` is what an instruction sees (`load`, `store`, `fetch`), and `Pages` adds what a process
//! does to its pages (`map_zero`, `set_rights`, `copy_page`). The contracts of both speak of what a
//! memory says of each page, `seen`, by the definitions `stop`, `word` and `code_bytes` of
//! `erim_defs`. `PageList` implements both over a list of pages; `erim_process` steps on any
//! `Pages`. The laws `noted` and `few` say that every address counts, and that mapped pages and
//! free frames are together at most 8,192; `whole_fetch` says what a memory that holds every page
//! fetches.
#![tactic(auto)]

mod copy;
mod fetch_law;
mod memory;
mod page_list;

pub use copy::PageCopy;
pub use fetch_law::whole_fetch;
pub use memory::{Memory, Pages};
pub use page_list::PageList;
