//! The commands of `erim`, and the top call `erim` that does what the program's words say.
//!
//! The program gives its words, a store of files, an output and a gate to `erim`, which does all
//! that the program does; tests call it over files and output in memory. `run` and `soak` do their
//! work in several threads; `erim_plain` has all the others and needs none. Each command has a plan
//! of what it loads and what it answers (`specs/Commands.antt`), and both ensure that the plan of
//! the words' command was carried out, and what each status says of files and output
//! (`specs/Promises.antt`). A reply's file is saved before its text is put (`specs/Delivery.antt`).
//! What `rewrite` saves is accepted and has nothing unsafe, which `rewriting_laws` says of every
//! answer of the definition. That each generated image is accepted and can be started is a law of
//! `image_gen`, and when a replay isn't broken is one of `thread_runner`.
//!
//! `commands.rt` chooses the command, and each file of `commands/` has one, or two on generated
//! images; `runs.rt` is what those that run processes share. `loads.rt` loads what they read,
//! `text.rt` has the lines where they do nothing, and `reply.rt` with `delivery.rt` what they
//! answer and how it is delivered.
#![tactic(auto)]

mod commands;
mod delivery;
mod loads;
mod reply;
mod runs;
mod text;
mod top_call;

pub use reply::{NOT_UNDERSTOOD, OUT_OF_MEMORY};
pub use top_call::{erim, erim_plain};
