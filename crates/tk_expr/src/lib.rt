//! Expressions: the value of a text in the grammar of TikZ's arithmetic (the PGF manual, section Mathematical
//! Expressions), and the pairs of coordinates.
#![tactic(auto)]

mod evaluation;
mod frames;
mod laws;
mod machine;
mod number;
mod operators;
mod pairs;
mod pieces;
mod plain;
mod settle;
mod steps;
mod values;

pub use evaluation::eval;
pub use laws::{
    a_fault_of_a_pair_stands_in_its_text, a_fault_of_a_vector_stands_at_its_place,
    a_fault_stands_in_its_text, a_text_has_one_answer, a_value_is_in_range,
    evaluated_is_the_answer,
};
pub use pairs::{length_along, pair, vector};
use tk_num::Scaled;
pub use values::placed;

/// The units of the font, in scaled points.
#[derive(Clone, Copy, PartialEq, Eq)]
pub struct FontUnits {
    pub em: Scaled,
    pub ex: Scaled,
}

/// What an expression stands for: its number in 65536ths, and whether a unit stands anywhere in its text.
#[derive(Clone, Copy, PartialEq, Eq)]
pub struct Value {
    pub number: Scaled,
    pub unit: bool,
}

/// The numbers of a coordinate: `x,y`, or an angle with the two radii.
#[derive(Clone, Copy, PartialEq, Eq)]
pub enum ValuePair {
    Plane(Value, Value),
    Polar(Scaled, Value, Value),
}
