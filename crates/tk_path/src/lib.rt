//! Paths: what their operations draw.
#![tactic(auto)]

mod coordinate;
mod drawer;
mod keys;
mod laws;
mod measures;
mod operations;
mod outlines;
mod path;
mod targets;
mod words;

pub use drawer::{Drawer, Flow};
pub use keys::Style;
pub use laws::{operations_are_never_stuck, operations_are_their_step};
