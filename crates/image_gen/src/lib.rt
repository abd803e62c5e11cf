//! Lays out images: the file of a program that is given in parts, with a trust note of its
//! trusted part and a functions note; and the images that `gen` and `soak` generate.
//!
//! `make_image` makes the image of a given number of threads that go a given number of rounds each
//! (`generated`), as `generated_image` of `erim_defs`' `GeneratedImage`; `generated_startable` is the
//! law that each is accepted and can be started. It lays its parts by `lay_image`, as do tests that
//! need an image, whose result is `laid_image` of `LayImage`, byte for byte. The file header, the
//! program headers (`header`), the notes (`note`) and the whole file (`image`) are appended one
//! after another, through fields of 2, 4 and 8 bytes (`field`). `push_program_header`, `push_at`
//! and `multiple_from` are also for who adds a segment to a file.
#![tactic(auto)]

mod field;
mod generated;
mod header;
mod image;
mod note;
mod part;
mod seed;

pub use field::{multiple_from, push_at};
pub use generated::{generated_startable, make_image};
pub use header::{NewHeader, push_program_header};
pub use image::lay_image;
pub use part::{Mark, Part};
pub use seed::{seed_image, seed_rounds, seed_threads};
