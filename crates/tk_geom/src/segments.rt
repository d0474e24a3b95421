//! Places on what a path drew last.

ghost use Rattle.std.specs.Prelude.{◌≡◌, ◌≤◌, ◌*◌, ◌^◌, ◌*ℤ◌, ◌+ℤ◌, ◌-ℤ◌, int_div, pos, unsigned_abs, IfOk};
ghost use Rattle.tk_num.specs.Number.{one};
ghost use Rattle.tk_geom.specs.Segments as spec;

use crate::Last;
use tk_affine::{AffFault, difference, point};
use tk_item::Point;
use tk_num::{ONE, Scaled};

/// The coordinates of the four points of a curve on one axis.
#[derive(Clone, Copy)]
struct Axis {
    a: Scaled,
    b: Scaled,
    c: Scaled,
    d: Scaled,
}

/// Where `t` 65536ths of the way from a coordinate on lead.
fn advanced(from: Scaled, way: i64, t: i64) -> i64
    requires way { unsigned_abs way ≤ 2147483646 }
    requires t { unsigned_abs t ≤ 1114112 }
    ensures { result ≡ from +ℤ int_div (way *ℤ t) (pos one) }
{
    from.sp() + way * t / ONE
}

/// The point of two coordinates, with a direction; TooLarge where a coordinate is out of range.
fn waypoint_at(x: i128, y: i128, dx: i64, dy: i64) -> Result<(Point, i64, i64), AffFault>
    requires dx { unsigned_abs dx ≤ 2 ^ 40 }
    requires dy { unsigned_abs dy ≤ 2 ^ 40 }
    ensures value { result ≡ spec.waypoint_at x y dx dy }
    ensures short { IfOk result spec.IsShort }
{
    match point(x, y) {
        Ok(place) => Ok((place, dx, dy)),
        Err(fault) => Err(fault),
    }
}

/// At `t` on the line from `p` to `q`.
fn on_line(p: &Point, q: &Point, t: i64) -> Result<(Point, i64, i64), AffFault>
    requires { unsigned_abs t ≤ 1114112 }
    ensures value { result ≡ spec.on_line p.now q.now t }
    ensures short { IfOk result spec.IsShort }
{
    let (dx, dy) = (difference(q.x, p.x), difference(q.y, p.y));
    let (x, y) = (advanced(p.x, dx, t), advanced(p.y, dy, t));
    waypoint_at(i128::from(x), i128::from(y), dx, dy)
}

/// At `t` on the line to a corner and on.
fn on_corner(p: &Point, corner: &Point, q: &Point, t: i64) -> Result<(Point, i64, i64), AffFault>
    requires { unsigned_abs t ≤ 524288 }
    ensures value { result ≡ spec.on_corner p.now corner.now q.now t }
    ensures short { IfOk result spec.IsShort }
{
    if t < 32_768 {
        on_line(p, corner, 2 * t)
    } else {
        on_line(corner, q, 2 * t - ONE)
    }
}

/// x*y.
fn product_of_two(x: Scaled, y: Scaled) -> i64
    requires x { unsigned_abs x ≤ 589824 }
    requires y { unsigned_abs y ≤ 589824 }
    ensures value { result ≡ x *ℤ y }
    ensures within { unsigned_abs result ≤ 347892350976 }
{
    x.sp() * y.sp()
}

/// x*y*z.
fn product_of_three(x: Scaled, y: Scaled, z: Scaled) -> i64
    requires x { unsigned_abs x ≤ 589824 }
    requires y { unsigned_abs y ≤ 589824 }
    requires z { unsigned_abs z ≤ 589824 }
    ensures value { result ≡ x *ℤ y *ℤ z }
    ensures within { unsigned_abs result ≤ 205195258022068224 }
{
    product_of_two(x, y) * z.sp()
}

/// A number of times x*y*z, for a coordinate.
fn cubic_term(times: i64, x: Scaled, y: Scaled, z: Scaled, coordinate: Scaled) -> i128
    requires times { unsigned_abs times ≤ 3 }
    requires x { unsigned_abs x ≤ 589824 }
    requires y { unsigned_abs y ≤ 589824 }
    requires z { unsigned_abs z ≤ 589824 }
    ensures value { result ≡ times *ℤ (x *ℤ y *ℤ z) *ℤ coordinate }
    ensures most { unsigned_abs result ≤ 2 ^ 92 }
{
    i128::from(times * product_of_three(x, y, z)) * i128::from(coordinate.sp())
}

/// A number of times x*y, for the way from a coordinate to another.
fn quadratic_term(times: i64, x: Scaled, y: Scaled, from: Scaled, to: Scaled) -> i128
    requires times { unsigned_abs times ≤ 2 }
    requires x { unsigned_abs x ≤ 589824 }
    requires y { unsigned_abs y ≤ 589824 }
    ensures value { result ≡ times *ℤ (x *ℤ y) *ℤ (to -ℤ from) }
    ensures most { unsigned_abs result ≤ 695784701952 * 2147483646 }
{
    i128::from(times * product_of_two(x, y)) * i128::from(difference(to, from))
}

/// The coordinate at `t` of a curve, where `u` is left of the way.
fn cubic(u: Scaled, t: Scaled, axis: &Axis) -> i128
    requires u { unsigned_abs u ≤ 589824 }
    requires t { unsigned_abs t ≤ 589824 }
    ensures { result ≡ spec.cubic u t axis.now.a axis.now.b axis.now.c axis.now.d }
{
    let first = cubic_term(1, u, u, u, axis.a);
    let second = cubic_term(3, u, u, t, axis.b);
    let third = cubic_term(3, u, t, t, axis.c);
    let fourth = cubic_term(1, t, t, t, axis.d);
    (first + second + third + fourth) / 281_474_976_710_656
}

/// A third of how fast the coordinate of a curve changes at `t`, where `u` is left of the way.
fn heading(u: Scaled, t: Scaled, axis: &Axis) -> i64
    requires u { unsigned_abs u ≤ 589824 }
    requires t { unsigned_abs t ≤ 589824 }
    ensures value { result ≡ spec.heading u t axis.now.a axis.now.b axis.now.c axis.now.d }
    ensures short { unsigned_abs result ≤ 2 ^ 40 }
{
    let first = quadratic_term(1, u, u, axis.a, axis.b);
    let second = quadratic_term(2, u, t, axis.b, axis.c);
    let third = quadratic_term(1, t, t, axis.c, axis.d);
    ((first + second + third) / 4_294_967_296) as i64
}

/// At `t` on a curve, by the coordinates of its points on each axis, where `u` is left of the way.
fn on_axes(u: Scaled, t: Scaled, x: &Axis, y: &Axis) -> Result<(Point, i64, i64), AffFault>
    requires u { unsigned_abs u ≤ 589824 }
    requires t { unsigned_abs t ≤ 589824 }
    ensures value { result ≡ spec.waypoint_at
        (spec.cubic u t x.now.a x.now.b x.now.c x.now.d)
        (spec.cubic u t y.now.a y.now.b y.now.c y.now.d)
        (spec.heading u t x.now.a x.now.b x.now.c x.now.d)
        (spec.heading u t y.now.a y.now.b y.now.c y.now.d) }
    ensures short { IfOk result spec.IsShort }
{
    waypoint_at(
        cubic(u, t, x),
        cubic(u, t, y),
        heading(u, t, x),
        heading(u, t, y),
    )
}

/// At `t` on a curve.
fn on_curve(
    a: &Point,
    b: &Point,
    c: &Point,
    d: &Point,
    t: Scaled,
) -> Result<(Point, i64, i64), AffFault>
    requires { unsigned_abs t ≤ 524288 }
    ensures value { result ≡ spec.on_curve a.now b.now c.now d.now t }
    ensures short { IfOk result spec.IsShort }
{
    let x = Axis {
        a: a.x,
        b: b.x,
        c: c.x,
        d: d.x,
    };
    let y = Axis {
        a: a.y,
        b: b.y,
        c: c.y,
        d: d.y,
    };
    on_axes(Scaled::within(ONE - t.sp()), t, &x, &y)
}

/// The point at `t` on what a path drew last, and the direction in which the path goes there, as the two numbers of a
/// vector within 2^40. `t` counts 65536ths of the way and is within 524288, that is, 8; below 0 and above 65536 it
/// leads beyond an end. TooLarge where the point is out of range. This takes no memory.
///
/// On a line from p to q the point is p + (q-p)*t/65536, the quotient cut toward zero, and the direction q - p. A
/// corner has its first leg at 2t for t below a half, else its second at 2t - 1. On a curve with the points a to d and
/// u = 65536 - t the point is (u^3*a + 3*u^2*t*b + 3*u*t^2*c + t^3*d)/2^48, cut toward zero, and the direction
/// (u^2*(b-a) + 2*u*t*(c-b) + t^2*(d-c))/2^32, likewise. Where there is nothing that has places the direction is (0,0).
///
/// Half way on the line from (0,0) to (10,20) is (5,10), in the direction (10,20).
#[tactic(auto, unfolding(crate::specs::Segments::place_on))]
pub fn on_segment(last: &Last, t: Scaled) -> Result<(Point, i64, i64), AffFault>
    requires { unsigned_abs t ≤ 524288 }
    ensures gives { result ≡ spec.place_on last.now t }
    ensures short { IfOk result spec.IsShort }
{
    match last {
        Last::Nowhere(p) => Ok((*p, 0, 0)),
        Last::Line(p, q) => on_line(p, q, t.sp()),
        Last::Corner(p, corner, q) => on_corner(p, corner, q, t.sp()),
        Last::Curve(a, b, c, d) => on_curve(a, b, c, d, t),
    }
}
