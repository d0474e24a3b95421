//! Coordinates: from their texts to points (the PGF manual, section "Specifying Coordinates").
#![tactic(auto)]

mod corners;
mod laws;
mod points;

pub use corners::{CornerSign, corner_between};
pub use laws::{
    a_fault_of_a_coordinate_stands_in_its_text, a_point_is_its_step, a_point_is_never_stuck,
    corners_lie_straight_where_nothing_is_moved,
};
pub use points::resolve;
use tk_item::Point;
use tk_shape::NodeRecord;

/// What the text of a coordinate stands for.
#[derive(Clone, Copy, PartialEq, Eq)]
pub struct TextTarget {
    /// Where it lies, in scaled points.
    pub point: Point,
    /// The node that the text names; none, since names of nodes aren't built.
    pub node: Option<NodeRecord>,
}
