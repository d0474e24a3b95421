//! The whole program over any shelf of files and any two sinks: its words, its lines, its statuses, and [`run`].
#![tactic(auto)]

mod document;
mod lines;
mod program;
mod words;

pub use program::{run, without_words};
pub use words::{NoWords, own_words};
