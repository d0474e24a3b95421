//! Images of points and vectors.

ghost use Rattle.std.specs.Prelude.{◌≡◌, ◌≤◌, unsigned_abs};
ghost use Rattle.tk_affine.specs.Images.{across, upward, image, vector_image};

use crate::numbers::{point, sum_of_products};
use crate::{AffFault, Matrix};
use tk_item::Point;
use tk_num::ONE;

/// How far to the right a vector goes.
fn across(m: &Matrix, p: &Point) -> i64
    ensures value { result ≡ across m.now p.now }
    ensures within { unsigned_abs result ≤ 35184372088832 }
{
    sum_of_products(m.a, p.x, m.c, p.y) / ONE
}

/// How far up a vector goes.
fn upward(m: &Matrix, p: &Point) -> i64
    ensures value { result ≡ upward m.now p.now }
    ensures within { unsigned_abs result ≤ 35184372088832 }
{
    sum_of_products(m.b, p.x, m.d, p.y) / ONE
}

/// The image of a point: ((a*x + c*y)/65536 + tx, (b*x + d*y)/65536 + ty), each quotient cut toward zero.
/// TooLarge where a coordinate is out of range.
///
/// Under a scaling by 2 and a shift by (1,0), that is (131072, 0, 0, 131072, 1, 0), the point (3,5) goes to
/// (7,10).
pub fn apply(m: Matrix, p: Point) -> Result<Point, AffFault>
    ensures gives { result ≡ image m p }
{
    let x = across(&m, &p) + m.tx.sp();
    let y = upward(&m, &p) + m.ty.sp();
    point(i128::from(x), i128::from(y))
}

/// The image of a vector, as `apply` without the shift: under the matrix of its example the vector (3,5) goes
/// to (6,10). TooLarge where a coordinate is out of range.
#[tactic(auto, unfolding(crate::specs::Images::vector_image))]
pub fn apply_vector(m: Matrix, p: Point) -> Result<Point, AffFault>
    ensures gives { result ≡ vector_image m p }
{
    point(i128::from(across(&m, &p)), i128::from(upward(&m, &p)))
}
