//! Where rays from the centre meet the borders of nodes.

ghost use Rattle.std.specs.Prelude.{◌≡◌, ◌+◌, ◌≤◌, ◌*ℤ◌, pos, unsigned_abs};
ghost use Rattle.tk_affine.specs.Inverses as inverses;
ghost use Rattle.tk_shape.specs.Borders as spec;

use tk_affine::{AffFault, Shape, point, share, whole_length};
use tk_item::Point;
use tk_num::Scaled;

/// A half, negated where the ray goes the other way.
fn signed_by(u: i64, half: Scaled) -> i64
    ensures value { result ≡ inverses.signed_by u half }
    ensures within { unsigned_abs result ≤ 1073741823 }
{
    tk_affine::signed_by(u, half.sp())
}

/// A half, as often as a ray is wide or high.
fn stretched(half: Scaled, n: i64) -> i128
    ensures { result ≡ half *ℤ pos (unsigned_abs n) }
{
    i128::from(half.sp()) * i128::from(n.unsigned_abs())
}

/// A ray leads to the right or the left side of a rectangle, or to a corner.
fn meets_side(x: Scaled, y: Scaled, u: i64, v: i64) -> bool
    ensures { result ≡ spec.meets_side x y u v }
{
    u != 0 && stretched(x, v) <= stretched(y, u)
}

/// Where a ray that leads somewhere meets a rectangle.
fn rectangle_border(x: Scaled, y: Scaled, u: i64, v: i64) -> Result<Point, AffFault>
    requires u { unsigned_abs u ≤ 4611686009837453316 }
    requires v { unsigned_abs v ≤ 4611686009837453316 }
    ensures { result ≡ spec.checked (spec.rectangle_border x y u v) }
{
    if meets_side(x, y, u, v) {
        let side = signed_by(u, x);
        return point(i128::from(side), share(side, v, u));
    }
    if v == 0 {
        return point(i128::from(signed_by(u, x)), 0);
    }
    let side = signed_by(v, y);
    point(share(side, u, v), i128::from(side))
}

/// Where a ray that leads somewhere meets a circle.
fn circle_border(radius: Scaled, u: i64, v: i64) -> Result<Point, AffFault>
    requires u { unsigned_abs u ≤ 4611686009837453316 }
    requires v { unsigned_abs v ≤ 4611686009837453316 }
    requires some { 1 ≤ unsigned_abs u + unsigned_abs v }
    ensures { result ≡ spec.checked (spec.circle_border radius u v) }
{
    let length = whole_length(u, v) as i64;
    point(share(radius.sp(), u, length), share(radius.sp(), v, length))
}

/// Where a ray that leads somewhere meets the border.
fn border_at(shape: Shape, x: Scaled, y: Scaled, u: i64, v: i64) -> Result<Point, AffFault>
    requires u { unsigned_abs u ≤ 4611686009837453316 }
    requires v { unsigned_abs v ≤ 4611686009837453316 }
    requires some { 1 ≤ unsigned_abs u + unsigned_abs v }
    ensures { result ≡ spec.checked (spec.border_at shape x y u v) }
{
    match shape {
        Shape::Rectangle => rectangle_border(x, y, u, v),
        Shape::Circle => circle_border(x, u, v),
        Shape::Coordinate => point(0, 0),
    }
}

/// Where a ray toward (u,v) meets the border of a node with the halves `x` and `y`, along the node's own axes; one toward
/// (0,0) leads to the centre. TooLarge where that is no point.
#[tactic(auto, unfolding(crate::specs::Borders::border))]
pub(crate) fn border(shape: Shape, x: Scaled, y: Scaled, u: i64, v: i64) -> Result<Point, AffFault>
    requires u { unsigned_abs u ≤ 4611686009837453316 }
    requires v { unsigned_abs v ≤ 4611686009837453316 }
    ensures { result ≡ spec.checked (spec.border shape x y u v) }
{
    if u.unsigned_abs() + v.unsigned_abs() == 0 {
        return point(0, 0);
    }
    border_at(shape, x, y, u, v)
}
