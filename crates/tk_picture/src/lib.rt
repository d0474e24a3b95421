//! Pictures: what the tokens of a source draw.
#![tactic(auto)]

ghost use Rattle.std.specs.Prelude.{◌≡◌};

mod commands;
mod laws;
mod picture;

pub use laws::{
    a_drawing_fits_a_document, a_fault_stands_in_its_source, a_source_has_one_outcome,
    commands_are_never_stuck, commands_are_their_step, each_source_has_an_outcome,
};
pub use picture::compile;
use tk_item::Drawing;
use tk_token::{Code, Fault};

/// What is asked of a source.
#[derive(Clone, Copy, PartialEq, Eq)]
pub struct Asked {
    /// The most units that its run may pay: for calls of macros, the code of keys, and the lines of grids.
    pub budget: u64,
}

/// What a source draws, and what it costs.
#[derive(Drop)]
pub struct Compiled {
    pub drawing: Drawing,
    /// The units that were paid.
    pub units: u64,
}

/// The fault of a form that isn't built.
fn unbuilt(at: u32) -> Fault
    ensures { result ≡ record { code = Code.Unbuilt; at = at } }
{
    Fault::new(Code::Unbuilt, at)
}
