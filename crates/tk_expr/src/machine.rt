//! The machine that reads an expression piece by piece, in one pass and without a tree.
//!
//! An operator waits with its left operand until its right operand is whole: in `1+2*3` the sum waits with 1, then the
//! product with 2, and where the pieces run out the product settles first, then the sum. A tighter operator that waits
//! is settled when a looser one is read, so that at most one of each level waits. What waits outside a parenthesis is
//! kept in the frame of that parenthesis.

use crate::frames::Frames;
use crate::number::Decimal;
use crate::operators::{Operator, Signs};
use crate::pieces::{Mark, Most, One, Two};
use crate::values::Found;

/// An operator with its left operand, which waits for the right one.
#[derive(Clone, Copy)]
pub struct Waiting {
    pub left: Found,
    pub operator: Operator,
    pub at: u32,
}

/// The operators and signs of one expression that wait for their right operand, at most one of each level.
#[derive(Clone, Copy, Default)]
pub struct Pending {
    /// The signs of an exponent.
    pub exponent: Signs,
    pub power: Option<Waiting>,
    /// The signs before a power.
    pub signs: Signs,
    pub product: Option<Waiting>,
    pub sum: Option<Waiting>,
    pub comparison: Option<Waiting>,
    pub conjunction: Option<Waiting>,
    pub disjunction: Option<Waiting>,
}

/// What an open parenthesis belongs to; `at` is the place of a function's name.
#[derive(Clone, Copy)]
pub enum Bracket {
    Plain,
    /// A function of one argument.
    Only(One, u32),
    /// A function of two arguments, within the first.
    First(Two, u32),
    /// A function of two arguments, within the second.
    Second(Two, u32, Found),
    /// A function of one or more arguments, with what the earlier ones came to.
    Each(Most, Option<Found>),
}

/// What is open.
#[derive(Clone, Copy)]
pub enum OpenFrame {
    /// A `?` with its condition, before the `:`.
    Then(Found),
    /// A parenthesis, with what waits outside it.
    Inside(Bracket, Pending),
    /// A `?` with its condition and the value before the `:`, behind it.
    Else(Found, Found),
}

/// What was read last, and so what may come next.
#[derive(Clone, Copy)]
pub enum Mode {
    /// An operand is wanted.
    Wanted,
    /// `<` or `>`, which a `=` directly behind it changes.
    Ordered,
    /// The first half of an operator; the other half has to follow directly.
    Half(Mark),
    /// The name of a function; its parenthesis has to follow.
    Named(Bracket),
    /// The point of a decimal without a digit so far, at its place.
    Dot(u32),
    /// A decimal, of which more may follow.
    Number(Decimal),
    /// A decimal and a gap.
    Measured(Decimal),
    /// Any other operand.
    After(Found),
}

/// What was read last; what waits in the innermost expression; what is open, innermost first; and whether a unit was
/// read.
#[derive(Drop)]
pub struct ExprState {
    pub mode: Mode,
    pub pending: Pending,
    pub frames: Frames,
    pub unit: bool,
}
