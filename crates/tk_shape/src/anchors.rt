//! Anchors of nodes, and the points of their borders.

ghost use Rattle.std.specs.Prelude.{◌≡◌, ◌≤◌, pos, unsigned_abs};
ghost use Rattle.tk_num.specs.Number.{product};
ghost use Rattle.tk_num.specs.Angle.{sine, cosine};
ghost use Rattle.tk_shape.specs.Borders as borders;
ghost use Rattle.tk_shape.specs.Anchors as spec;

use crate::NodeRecord;
use crate::borders::border;
use tk_affine::{AffFault, Anchor, Shape, apply, ray};
use tk_item::Point;
use tk_num::{Scaled, cos, mul, sin};

/// A point.
fn xy(x: Scaled, y: Scaled) -> Point
    ensures { result ≡ spec.xy x y }
{
    Point { x, y }
}

/// The centre.
fn origin() -> Point
    ensures { result ≡ borders.origin }
{
    xy(Scaled::default(), Scaled::default())
}

/// How far a diagonal anchor of a circle lies to the right: 46341/65536 of the radius, for sqrt(1/2).
fn diagonal_part(radius: Scaled) -> Scaled
    ensures { result ≡ product radius (pos 46341) }
{
    match mul(radius, Scaled::within(46_341)) {
        Ok(part) => part,
        Err(_) => radius,
    }
}

/// The diagonal anchor of a node, to the right and up.
fn corner(node: &NodeRecord) -> Point
    ensures { result ≡ spec.corner node.now }
{
    match node.shape {
        Shape::Rectangle => xy(node.half_width, node.half_height),
        Shape::Circle => {
            let part = diagonal_part(node.half_width);
            xy(part, part)
        }
        Shape::Coordinate => origin(),
    }
}

/// Where a ray meets the border, along the node's own axes.
fn ray_end(node: &NodeRecord, u: i64, v: i64) -> Result<Point, AffFault>
    requires u { unsigned_abs u ≤ 4611686009837453316 }
    requires v { unsigned_abs v ≤ 4611686009837453316 }
    ensures { result ≡ spec.ray_end u v node.now }
{
    border(node.shape, node.half_width, node.half_height, u, v)
}

/// Where an anchor lies in a node that has a size.
fn anchor_within(node: &NodeRecord, anchor: Anchor) -> Result<Point, AffFault>
    ensures { result ≡ spec.anchor_within anchor node.now }
{
    let nothing = Scaled::default();
    let (x, y) = (node.half_width, node.half_height);
    let corner = corner(node);
    match anchor {
        Anchor::Center => Ok(origin()),
        Anchor::North => Ok(xy(nothing, y)),
        Anchor::South => Ok(xy(nothing, y.negated())),
        Anchor::East => Ok(xy(x, nothing)),
        Anchor::West => Ok(xy(x.negated(), nothing)),
        Anchor::NorthEast => Ok(corner),
        Anchor::NorthWest => Ok(xy(corner.x.negated(), corner.y)),
        Anchor::SouthEast => Ok(xy(corner.x, corner.y.negated())),
        Anchor::SouthWest => Ok(xy(corner.x.negated(), corner.y.negated())),
        Anchor::Base => Ok(xy(nothing, node.base)),
        Anchor::Angle(angle) => ray_end(node, cos(angle).sp(), sin(angle).sp()),
    }
}

/// Where an anchor lies along the node's own axes, seen from its centre: `NorthEast` of a rectangle with the halves 4 and 2
/// is (4,2), that of a circle with the radius 65536 is (46341,46341), and each anchor of a coordinate is (0,0). TooLarge
/// where it is no point, as can be where a half is negative. It doesn't look at the matrix.
#[tactic(auto, unfolding(crate::specs::Anchors::local_anchor))]
pub fn local_anchor(node: &NodeRecord, anchor: Anchor) -> Result<Point, AffFault>
    ensures { result ≡ spec.local_anchor anchor node.now }
{
    match node.shape {
        Shape::Coordinate => Ok(origin()),
        Shape::Rectangle | Shape::Circle => anchor_within(node, anchor),
    }
}

/// Where an anchor lies in the picture: the image of its place along the node's own axes. TooLarge where it is no point.
///
/// The anchor `North` of a node with the height half 2, under a scaling by 3 and a shift by (1,0), is (1,6).
#[tactic(auto, unfolding(crate::specs::Anchors::anchor_of))]
pub fn anchor_point(node: &NodeRecord, anchor: Anchor) -> Result<Point, AffFault>
    ensures { result ≡ spec.anchor_of anchor node.now }
{
    let place = local_anchor(node, anchor)?;
    apply(node.matrix, place)
}

/// Where a ray toward (u,v), along the node's own axes, meets the border.
#[tactic(auto, unfolding(crate::specs::Anchors::border_of_ray))]
fn border_of_ray(node: &NodeRecord, u: i64, v: i64) -> Result<Point, AffFault>
    requires u { unsigned_abs u ≤ 4611686009837453316 }
    requires v { unsigned_abs v ≤ 4611686009837453316 }
    ensures { result ≡ spec.border_of_ray u v node.now }
{
    let place = ray_end(node, u, v)?;
    apply(node.matrix, place)
}

/// The point of the border at an angle of 65536ths of a degree, anticlockwise from the node's own first axis; the centre of a
/// coordinate. TooLarge where it is no point.
///
/// At 90 degrees it is the middle of the upper side of a rectangle, and so the same as `North`.
pub fn at_angle(node: &NodeRecord, angle: Scaled) -> Result<Point, AffFault>
    ensures { result ≡ spec.border_of_ray (cosine angle) (sine angle) node.now }
{
    border_of_ray(node, cos(angle).sp(), sin(angle).sp())
}

/// The point of the border on the way from the centre to `p`; the centre where `p` is the centre, and for a coordinate.
/// Singular where the node's axes lie on one line, but not for a coordinate; else TooLarge where it is no point.
///
/// Of a rectangle with the halves 4 and 2, with its centre at (10,0) and not turned, toward (18,4) it is the corner (14,2).
#[tactic(auto, unfolding(crate::specs::Anchors::border_toward))]
pub fn toward(node: &NodeRecord, p: Point) -> Result<Point, AffFault>
    ensures { result ≡ spec.border_toward p node.now }
{
    match node.shape {
        Shape::Coordinate => Ok(xy(node.matrix.tx, node.matrix.ty)),
        Shape::Rectangle | Shape::Circle => {
            let (u, v) = ray(node.matrix, p)?;
            border_of_ray(node, u, v)
        }
    }
}
