//! Pieces of paths: circles, arcs, rectangles and grids, and the places on what a path drew last (the PGF manual,
//! sections "Syntax for Path Specifications" and "Placing Nodes on a Line or Curve Explicitly").
#![tactic(auto)]

mod arcs;
mod circles;
mod grids;
mod laws;
mod lists;
mod numbers;
mod places;
mod rectangles;
mod segments;

pub use arcs::{arc, push_arc};
pub use circles::{circle, push_circle};
pub use grids::{grid, push_grid};
pub use laws::{
    arcs_have_few_pieces, arcs_run_from_angle_to_angle, multiples_lie_between,
    small_angles_have_tangents,
};
pub use rectangles::{push_rectangle, rectangle};
pub use segments::on_segment;
use tk_item::Point;

/// What a path drew last, on which a node may be placed.
#[derive(Clone, Copy, PartialEq, Eq)]
pub enum Last {
    /// Nothing that has places, as before the first operation or after a circle: each place is that point.
    Nowhere(Point),
    /// A line, by its two ends.
    Line(Point, Point),
    /// A line to a corner and one from there, by their ends.
    Corner(Point, Point, Point),
    /// A curve: its first end, its two control points, and its other end.
    Curve(Point, Point, Point, Point),
}
