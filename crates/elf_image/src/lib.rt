//! Reads ELF-64 images: bytes become an `Image`, or the first fault that they have.
//!
//! `read_image` is the one way in. The commands that inspect, list and run a program call it on the
//! bytes of a file, and the crates below them take the image's segments and its trusted part, which
//! are known to lie where they may. The fault is `first_fault` of `erim_defs`' `Image`, and an
//! image lists what `segments`, `image_trust`, `image_data`, `data_keys`, `image_heaps` and
//! `image_functions` there say of its bytes. A trust note of version 1 has one domain, with key 1;
//! one of version 2 has several, with keys 1 to 4. The faults are asked in rows, as the definition
//! has them: of the file header (`image_reader`), of program headers (`header`, `headers`), of
//! notes (`note`, `notes`), of records (`record`, `records`, `pages`) and of functions
//! (`functions`). What is accepted is kept (`image`, `lists`, `domains`); all memory is asked for
//! after the last fault.
#![tactic(auto)]

mod domains;
mod field;
mod functions;
mod header;
mod headers;
mod image;
mod image_reader;
mod lists;
mod note;
mod notes;
mod pages;
mod record;
mod records;

pub use erim_defs::{ImageFault, Segment, Span, Trust};
pub use header::Header;
pub use image::Image;
pub use image_reader::read_image;
