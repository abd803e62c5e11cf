//! The image code: the bytes of all pages that executable segments touch.
//!
//! `ImageCode::lay` lays the code of an image out once; `next_unsafe` then finds its unsafe
//! sequences one after the other, `byte_at` has its bytes, and `on_text` has the part of it on
//! trusted text, of which the same is asked. The inspection walks over all of them, and the start
//! of a process asks for the first of each. They meet `image_code`, `trusted_code` and `unsafe_at`
//! of `erim_defs`.
#![tactic(auto)]

mod code;
mod ranges;
mod segment_bytes;
mod stretch;
mod texts;

pub use code::ImageCode;
