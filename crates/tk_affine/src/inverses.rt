//! Inverse images, and corners and directions along the axes of a matrix.

ghost use Rattle.std.specs.Prelude.{◌≡◌, ◌≤◌, ◌^◌, ◌+ℤ◌, unsigned_abs, IfOk};
ghost use Rattle.tk_affine.specs.Inverses.{determinant, along_first, along_second, inverse_image, corner_of, ray_to};
ghost use Rattle.tk_affine.specs.Inverses.{IsRay};

use crate::numbers::{difference, difference_of_products, point, share, signed_by};
use crate::{AffFault, Matrix};
use tk_item::Point;
use tk_num::{ONE, Scaled};

/// a*d - b*c, which is 0 where all images lie on one line.
fn determinant(m: &Matrix) -> i64
    ensures value { result ≡ determinant m.now }
    ensures within { unsigned_abs result ≤ 4611686009837453316 }
{
    difference_of_products(m.a, m.d.sp(), m.b, m.c.sp())
}

/// d*x - c*y; over the determinant it is how often the first axis (a,b) goes into (x,y).
fn along_first(m: &Matrix, x: i64, y: i64) -> i64
    requires x { unsigned_abs x ≤ 2147483646 }
    requires y { unsigned_abs y ≤ 2147483646 }
    ensures value { result ≡ along_first m.now x y }
    ensures within { unsigned_abs result ≤ 4611686009837453316 }
{
    difference_of_products(m.d, x, m.c, y)
}

/// a*y - b*x; over the determinant it is how often the second axis (c,d) goes into (x,y).
fn along_second(m: &Matrix, x: i64, y: i64) -> i64
    requires x { unsigned_abs x ≤ 2147483646 }
    requires y { unsigned_abs y ≤ 2147483646 }
    ensures value { result ≡ along_second m.now x y }
    ensures within { unsigned_abs result ≤ 4611686009837453316 }
{
    difference_of_products(m.a, y, m.b, x)
}

/// The point whose image is `p`: with (dx,dy) = p minus the shift and D = a*d - b*c it is
/// (65536*(d*dx - c*dy)/D, 65536*(a*dy - b*dx)/D), each quotient cut toward zero. Singular where D is 0,
/// else TooLarge where a coordinate is out of range.
///
/// Under a scaling by 2 and a shift by (1,0), that is (131072, 0, 0, 131072, 1, 0), the point (7,10) is the
/// image of (3,5).
#[tactic(auto, unfolding(crate::specs::Inverses::inverse_image))]
pub fn inverse_apply(m: Matrix, p: Point) -> Result<Point, AffFault>
    ensures gives { result ≡ inverse_image m p }
{
    let whole = determinant(&m);
    if whole == 0 {
        return Err(AffFault::Singular);
    }
    let (dx, dy) = (difference(p.x, m.tx), difference(p.y, m.ty));
    let x = share(ONE, along_first(&m, dx, dy), whole);
    let y = share(ONE, along_second(&m, dx, dy), whole);
    point(x, y)
}

/// A coordinate that is moved by so much.
fn moved(from: Scaled, by: i128) -> i128
    requires { unsigned_abs by ≤ 2 ^ 92 }
    ensures { result ≡ from +ℤ by }
{
    i128::from(from.sp()) + by
}

/// The point with the x of `q` and the y of `p`, along the axes of the matrix: with (dx,dy) = q - p,
/// N = d*dx - c*dy and D = a*d - b*c it is (p.x + a*N/D, p.y + b*N/D), each quotient cut toward zero. Singular
/// where D is 0, else TooLarge where a coordinate is out of range.
///
/// Without a turn, as under `identity`, the corner of (1,2) and (5,9) is (5,2).
#[tactic(auto, unfolding(crate::specs::Inverses::corner_of))]
pub fn corner(m: Matrix, p: Point, q: Point) -> Result<Point, AffFault>
    ensures gives { result ≡ corner_of m p q }
{
    let whole = determinant(&m);
    if whole == 0 {
        return Err(AffFault::Singular);
    }
    let part = along_first(&m, difference(q.x, p.x), difference(q.y, p.y));
    let x = moved(p.x, share(m.a.sp(), part, whole));
    let y = moved(p.y, share(m.b.sp(), part, whole));
    point(x, y)
}

/// The direction along the axes of the matrix in which `p` lies, seen from the image of (0,0), which is the shift: with
/// (dx,dy) = p minus the shift it is (d*dx - c*dy, a*dy - b*dx), both negated where D = a*d - b*c is negative. Over |D|
/// these are how often each axis goes into (dx,dy). Singular where D is 0.
///
/// Under a turn by 90 degrees, that is (0, 65536, -65536, 0, 0, 0), the point (0,1) lies in the direction (65536,0).
#[tactic(auto, unfolding(crate::specs::Inverses::ray_to))]
pub fn ray(m: Matrix, p: Point) -> Result<(i64, i64), AffFault>
    ensures gives { result ≡ ray_to m p }
    ensures within { IfOk result IsRay }
{
    let whole = determinant(&m);
    if whole == 0 {
        return Err(AffFault::Singular);
    }
    let dx = difference(p.x, m.tx);
    let dy = difference(p.y, m.ty);
    let u = signed_by(whole, along_first(&m, dx, dy));
    let v = signed_by(whole, along_second(&m, dx, dy));
    Ok((u, v))
}
