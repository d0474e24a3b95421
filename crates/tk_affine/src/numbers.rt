//! Products and quotients within 64 and 128 bits.

ghost use Rattle.std.specs.Prelude.{◌≡◌, ◌≤◌, ◌^◌, if◌then◌else◌, ◌+ℤ◌, ◌-ℤ◌, ◌*ℤ◌, int_div, unsigned_abs};
ghost use Rattle.tk_num.specs.Number.{IsScaled, is_scaled};
ghost use Rattle.tk_affine.specs.Images.{point_at};
ghost use Rattle.tk_affine.specs.Inverses.{signed_by};

use crate::AffFault;
use tk_item::Point;
use tk_num::Scaled;

/// The number of so many 65536ths; None where it is out of range.
fn in_range(sp: i128) -> Option<Scaled>
    ensures { result ≡ (if is_scaled sp then Some sp else None) }
{
    Scaled::new(i64::try_from(sp).ok()?)
}

/// The point of two numbers of scaled points; TooLarge where one is out of range.
pub fn point(x: i128, y: i128) -> Result<Point, AffFault>
    ensures { result ≡ point_at x y }
{
    match (in_range(x), in_range(y)) {
        (Some(x), Some(y)) => Ok(Point { x, y }),
        _ => Err(AffFault::TooLarge),
    }
}

/// x - y, which may be out of range.
pub fn difference(x: Scaled, y: Scaled) -> i64
    ensures value { result ≡ x -ℤ y }
    ensures within { unsigned_abs result ≤ 2147483646 }
{
    x.sp() - y.sp()
}

/// a*x + b*y, exactly.
pub(crate) fn sum_of_products(a: Scaled, x: Scaled, b: Scaled, y: Scaled) -> i64
    ensures value { result ≡ a *ℤ x +ℤ b *ℤ y }
    ensures within { unsigned_abs result ≤ 2305843004918726658 }
{
    a.sp() * x.sp() + b.sp() * y.sp()
}

/// a*x - b*y, exactly.
pub(crate) fn difference_of_products(a: Scaled, x: i64, b: Scaled, y: i64) -> i64
    requires x { unsigned_abs x ≤ 2147483646 }
    requires y { unsigned_abs y ≤ 2147483646 }
    ensures value { result ≡ a *ℤ x -ℤ b *ℤ y }
    ensures within { unsigned_abs result ≤ 4611686009837453316 }
{
    a.sp() * x - b.sp() * y
}

/// r*n/d, cut toward zero: 2*7/4 is 3, and 2*-7/4 is -3.
pub fn share(r: i64, n: i64, d: i64) -> i128
    requires r { unsigned_abs r ≤ 1073741823 }
    requires n { unsigned_abs n ≤ 4611686009837453316 }
    requires d { 1 ≤ unsigned_abs d }
    ensures value { result ≡ int_div (r *ℤ n) d }
    ensures within { unsigned_abs result ≤ 2 ^ 92 }
{
    i128::from(r) * i128::from(n) / i128::from(d)
}

/// x, negated where u is negative, whatever the sign of x itself.
pub fn signed_by(u: i64, x: i64) -> i64
    requires { unsigned_abs x ≤ 4611686009837453316 }
    ensures value { result ≡ signed_by u x }
    ensures within { unsigned_abs result ≤ 4611686009837453316 }
{
    if u < 0 { -x } else { x }
}
