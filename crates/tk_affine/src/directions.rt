//! Turns into a direction.

ghost use Rattle.std.specs.Prelude.{◌≡◌, ◌≤◌, ◌^◌, ◌+◌, unsigned_abs};
ghost use Rattle.tk_num.specs.Number.{IsScaled};
ghost use Rattle.tk_affine.specs.Directions.{whole_length, component_of, turn_along};

use crate::Matrix;
use crate::steps::{identity, turned};
use tk_num::{ONE, Scaled};

/// The length of a vector, the root of x*x + y*y cut downward: that of (3,4) is 5, and that of (1,1) is 1. Each number is
/// as wide as those of `ray`.
pub fn whole_length(x: i64, y: i64) -> u64
    requires x { unsigned_abs x ≤ 4611686009837453316 }
    requires y { unsigned_abs y ≤ 4611686009837453316 }
    ensures value { result ≡ whole_length x y }
    ensures x { unsigned_abs x ≤ result }
    ensures y { unsigned_abs y ≤ result }
    ensures most { result ≤ unsigned_abs x + unsigned_abs y }
{
    let (x, y) = (u128::from(x.unsigned_abs()), u128::from(y.unsigned_abs()));
    (x * x + y * y).isqrt() as u64
}

/// A part of a length, in 65536ths.
fn component_of(part: i64, length: u64) -> Scaled
    requires some { 1 ≤ length }
    requires part { unsigned_abs part ≤ length }
    requires most { length ≤ 2 ^ 41 }
    ensures { result ≡ component_of part length }
{
    Scaled::within(ONE * part / length as i64)
}

/// The turn that takes (1,0) into the direction of (dx,dy): with n the root of dx*dx + dy*dy, cut downward, it is
/// (C, S, -S, C, 0, 0), where C is 65536*dx/n and S is 65536*dy/n, cut toward zero. It turns nothing where n is
/// 0. `dx` and `dy` are within 2^40.
///
/// Along (3,4), whose length is 5, it is (39321, 52428, -52428, 39321, 0, 0).
#[tactic(auto, unfolding(crate::specs::Directions::turn_along))]
pub fn along(dx: i64, dy: i64) -> Matrix
    requires dx { unsigned_abs dx ≤ 2 ^ 40 }
    requires dy { unsigned_abs dy ≤ 2 ^ 40 }
    ensures gives { result ≡ turn_along dx dy }
{
    let length = whole_length(dx, dy);
    if length == 0 {
        return identity();
    }
    turned(component_of(dx, length), component_of(dy, length))
}
