//! Matrices of the plane: the steps that make them, images and inverse images of points, corners and
//! directions along their axes, and turns into a direction. Nothing here takes memory.
#![tactic(auto)]

mod directions;
mod faults;
mod images;
mod inverses;
mod laws;
mod numbers;
mod steps;

pub use directions::{along, whole_length};
pub use faults::answer_at;
pub use images::{apply, apply_vector};
pub use inverses::{corner, inverse_apply, ray};
pub use laws::{steps_go_on, unmoved_is_neutral, unmoved_points_stay};
pub use numbers::{difference, point, share, signed_by};
pub use steps::{concat, identity};
use tk_num::Scaled;

/// A linear part and a shift. The image of (x,y) is (a*x + c*y + tx, b*x + d*y + ty), where `a` to `d`
/// count 65536ths and `tx` and `ty` scaled points.
#[derive(Clone, Copy, PartialEq, Eq)]
pub struct Matrix {
    pub a: Scaled,
    pub b: Scaled,
    pub c: Scaled,
    pub d: Scaled,
    pub tx: Scaled,
    pub ty: Scaled,
}

/// One step of a transformation. `Shift` has scaled points, `Rotate` an angle of 65536ths of a degree,
/// anticlockwise, `Scale` and `Slant` factors of 65536ths, that of x first. `Slant` takes (x,y) to
/// (x + f*y, y + g*x), where f is its first factor and g its second. `Cm` takes each point to its image
/// under the matrix.
#[derive(Clone, Copy, PartialEq, Eq)]
pub enum Step {
    Shift(Scaled, Scaled),
    Rotate(Scaled),
    Scale(Scaled, Scaled),
    Slant(Scaled, Scaled),
    Cm(Matrix),
}

/// The step that moves nothing.
impl Default for Step {
    ghost use Rattle.std.specs.Prelude.{◌≡◌, pos};
    ghost use Rattle.tk_affine.specs.declared.Step.TheVariants.{Shift};

    ghost is_default = { λ s. s ≡ Shift (pos 0) (pos 0) };

    fn default() -> Step {
        Step::Shift(Scaled::default(), Scaled::default())
    }
}

/// Why there is no point or matrix to give: a number of it is out of range, or the inverse that is needed
/// is that of a matrix whose determinant is 0.
#[derive(Clone, Copy, PartialEq, Eq)]
pub enum AffFault {
    TooLarge,
    Singular,
}

/// The shape of a node.
#[derive(Clone, Copy, PartialEq, Eq)]
pub enum Shape {
    Rectangle,
    Circle,
    Coordinate,
}

/// A place of a node. `Angle` is the place of its border in a direction of 65536ths of a degree.
#[derive(Clone, Copy, PartialEq, Eq)]
pub enum Anchor {
    Center,
    North,
    South,
    East,
    West,
    NorthEast,
    NorthWest,
    SouthEast,
    SouthWest,
    Base,
    Angle(Scaled),
}
