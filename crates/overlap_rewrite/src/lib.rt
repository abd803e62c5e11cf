//! Rewrites an image so that nothing of its code is unsafe: `rewrite_image` of an image, `rewrite`
//! of the bytes of one.
//!
//! Both meet `rewriting` of `erim_defs`, out of memory aside, and say besides that what they answer
//! is accepted and has an empty unsafe list. In the files: `jumps` puts the regions' bytes into the
//! file, `bytes` puts bytes in place of others, `header` appends the new program header, and `file`
//! makes the new file of them. `causes` tests what leaves a whole image without room, with the
//! check of the new file, and `rewriting` does it all.
#![tactic(auto)]

mod bytes;
mod causes;
mod file;
mod header;
mod jumps;
mod rewriting;

pub use rewriting::{RewriteFault, Rewritten, rewrite, rewrite_image};
