//! Definitions of macros: their forms, and how they are read.
#![tactic(auto)]

mod commands;
mod head;
mod parts;

pub use commands::read_definition;
use tk_store::Macro;

/// The commands that define macros.
#[derive(Clone, Copy, PartialEq, Eq)]
pub enum DefinitionWord {
    /// `\def`
    Def,
    /// `\edef`
    Edef,
    /// `\newcommand` and `\renewcommand`: both define a word whether or not it is known.
    NewCommand,
}

/// What a definition says: what a word stands for from then on.
#[derive(Drop)]
pub struct Definition {
    /// The number of the word.
    pub word: u32,
    pub value: Macro,
}
