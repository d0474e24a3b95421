//! The path that is being read, and what its circles, arcs and grids are measured by (the PGF manual, section "Syntax for
//! Path Specifications").
#![tactic(auto)]

mod current_path;
mod measures;

pub use current_path::{CurrentPath, Goal, Mesh};
pub use measures::{ArcMeasures, ArcText, Measures, Radii, Sweep, arc_in, radii_in};
