//! Nodes as a picture keeps them: their shapes, anchors and borders, and their names (the PGF manual, section "Nodes and
//! Edges"). Only a name that is given takes memory.
#![tactic(auto)]

mod anchors;
mod borders;
mod laws;
mod nodes;

pub use anchors::{anchor_point, at_angle, local_anchor, toward};
pub use laws::{
    a_coordinate_is_one_point, borders_lie_within_the_halves, the_last_node_of_a_name_is_found,
};
pub use nodes::Nodes;
use tk_affine::Matrix;
pub use tk_affine::{Anchor, Shape};
use tk_num::Scaled;

/// What a picture keeps of a node, by which its anchors and the points of its border are found. Lengths are in scaled
/// points and lie along the node's own axes, from its centre.
#[derive(Clone, Copy, PartialEq, Eq)]
pub struct NodeRecord {
    pub shape: Shape,
    /// It takes the node's own axes to the picture, its centre to the place of its shift.
    pub matrix: Matrix,
    /// How far the anchors on the right lie from the centre; of a circle it is the radius on which all but `base` lie.
    pub half_width: Scaled,
    /// The same of those above.
    pub half_height: Scaled,
    /// How far above the centre the base line of its text lies.
    pub base: Scaled,
}
