//! Macros by their words and keys by their paths, in levels: what is set at a level ends with it. And the bodies of
//! macros, as they are written and as they are kept.
#![tactic(auto)]

ghost use Rattle.std.specs.Prelude.{◌≡◌, IfOk};

mod body;
mod steps;
mod store;
mod tables;

pub use body::{Body, digit_of};
use std::alloc::AllocError;
pub use steps::Steps;
pub use store::Store;
use tk_native::Native;

/// What a word stands for: a body, in which arguments take the places of parameters.
#[derive(Drop)]
pub struct Macro {
    /// How many arguments it takes.
    pub args: u8,
    /// The tokens. `Arg(n)` in it is the place of the argument n, from 1 on.
    pub body: Body,
}

/// What a key does with a value.
#[derive(Drop)]
pub enum Run {
    /// A key that is there from the beginning.
    Native(Native),
    /// The value chooses a key below this one, which runs.
    Choice,
    /// The word with that number stands for the value from then on.
    StoreIn(u32),
    /// A text that is run, in which so many arguments take the places of parameters.
    Code(u8, Body),
}

/// Whether a key needs a value.
#[derive(Drop)]
pub enum Need {
    /// A value may be there or not.
    Free,
    /// A value has to be there.
    Required,
    /// No value may be there.
    Forbidden,
    /// This value is taken where none is there.
    Default(Body),
}

/// What stands at the full path of a key.
#[derive(Drop)]
pub struct Entry {
    pub run: Option<Run>,
    /// The value that is stored.
    pub value: Option<Body>,
    pub need: Need,
}

impl Run {
    /// The same run. The tokens of code are shared.
    pub fn copy(&self) -> Result<Run, AllocError>
        ensures { IfOk result (λ run. run ≡ self.now) }
    {
        Ok(match self {
            Run::Native(key) => Run::Native(*key),
            Run::Choice => Run::Choice,
            Run::StoreIn(word) => Run::StoreIn(*word),
            Run::Code(args, body) => Run::Code(*args, body.copy()?),
        })
    }
}

impl Need {
    /// The same need. The tokens of a default value are shared.
    pub fn copy(&self) -> Result<Need, AllocError>
        ensures { IfOk result (λ need. need ≡ self.now) }
    {
        Ok(match self {
            Need::Free => Need::Free,
            Need::Required => Need::Required,
            Need::Forbidden => Need::Forbidden,
            Need::Default(body) => Need::Default(body.copy()?),
        })
    }
}

impl Entry {
    /// The same entry. Its tokens are shared.
    pub fn copy(&self) -> Result<Entry, AllocError>
        ensures { IfOk result (λ entry. entry ≡ self.now) }
    {
        Ok(Entry {
            run: match &self.run {
                Some(run) => Some(run.copy()?),
                None => None,
            },
            value: match &self.value {
                Some(body) => Some(body.copy()?),
                None => None,
            },
            need: self.need.copy()?,
        })
    }
}
