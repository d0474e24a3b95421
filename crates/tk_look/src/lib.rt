//! Looks: how paths and nodes are painted and placed, colours by their texts, and what the keys that are there from the
//! beginning make of a look (the PGF manual, sections "Actions on Paths", "Transformations" and "Nodes and Edges").
#![tactic(auto)]

mod colours;
mod dashes;
mod graphics;
mod initial;
mod keys;
mod laws;
mod lengths;
mod names;
mod steps;
mod strokes;
mod values;
mod words;

pub use colours::colour;
pub use keys::apply;
pub use laws::{a_look_stays_in_its_ranges, a_matrix_is_that_of_its_steps};
pub use lengths::{LineWidth, MiterLimit, Position};
pub use names::NodeName;
pub use strokes::{look_fill, look_reach, look_stroke};
use tk_affine::{Anchor, Matrix, Shape};
use tk_expr::Value;
use tk_item::{Cap, Dashes, Join, Rgb, Rule};
use tk_num::Scaled;
pub use values::anchor_in_text;

/// How what follows is painted and placed. Lengths are in scaled points, angles in 65536ths of a degree, and a `Value`
/// without a unit counts vectors of the picture.
#[derive(Drop)]
pub struct Look {
    /// The name that a node gets.
    pub name: Option<NodeName>,
    /// Whether a path is drawn.
    pub draw_on: bool,
    /// Whether it is filled.
    pub fill_on: bool,
    /// The colour of lines.
    pub draw: Rgb,
    /// The colour of fills.
    pub fill: Rgb,
    /// The colour of text.
    pub text: Rgb,
    pub line_width: LineWidth,
    pub line_cap: Cap,
    pub line_join: Join,
    pub miter_limit: MiterLimit,
    pub dash_pattern: Dashes,
    pub dash_phase: Scaled,
    pub fill_rule: Rule,
    /// The length of the vector to the right that numbers without a unit count.
    pub x: Scaled,
    /// The same of the vector upward.
    pub y: Scaled,
    pub x_radius: Value,
    pub y_radius: Value,
    pub start_angle: Option<Scaled>,
    pub end_angle: Option<Scaled>,
    pub delta_angle: Option<Scaled>,
    /// The distance of the lines of a grid from left to right.
    pub xstep: Value,
    /// The same from below to above.
    pub ystep: Value,
    pub shape: Shape,
    /// What a node has between its text and its border, on the left and on the right.
    pub inner_xsep: Scaled,
    /// The same above and below.
    pub inner_ysep: Scaled,
    /// What a node has between its border and its anchors, on the left and on the right; where it isn't set, half the
    /// line width.
    pub outer_xsep: Option<Scaled>,
    /// The same above and below.
    pub outer_ysep: Option<Scaled>,
    pub minimum_width: Scaled,
    pub minimum_height: Scaled,
    /// The anchor of a node that is put at its place.
    pub anchor: Anchor,
    /// Where on a line a node stands: 0 is its beginning, 65536 its end.
    pub pos: Option<Position>,
    /// Whether a node is turned with its line.
    pub sloped: bool,
}

/// Where and how what follows is drawn.
#[derive(Drop)]
pub struct GraphicsState {
    /// What the steps of the transformation so far make.
    pub matrix: Matrix,
    pub look: Look,
}
