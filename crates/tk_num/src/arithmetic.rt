//! Sums, products, quotients and roots of scaled numbers.

ghost use Rattle.std.specs.Prelude.{◌≡◌, ℕ, ◌+ℤ◌, ◌-ℤ◌, ◌*◌, ◌≤◌, int_div, unsigned_abs, IfOk};
ghost use Rattle.tk_num.specs.Number.{one, scaled, product, quotient, square_root, floor_root, IsFloorRoot};

use crate::{NumFault, ONE, Scaled};

/// The number of `sp` 65536ths; TooLarge where it is out of range.
pub(crate) fn in_range(sp: i64) -> Result<Scaled, NumFault>
    ensures { result ≡ scaled sp }
{
    Scaled::new(sp).ok_or(NumFault::TooLarge)
}

/// The quotient of two whole numbers, cut toward zero.
pub(crate) fn cut(dividend: i64, divisor: i64) -> i64
    requires small { unsigned_abs dividend ≤ 4611686018427387904 }
    requires divisor { 1 ≤ unsigned_abs divisor }
    ensures value { result ≡ int_div dividend divisor }
    ensures small { unsigned_abs result ≤ unsigned_abs dividend }
{
    dividend / divisor
}

/// The sum; TooLarge where it is out of range.
pub fn add(x: Scaled, y: Scaled) -> Result<Scaled, NumFault>
    ensures { result ≡ scaled (x +ℤ y) }
{
    in_range(x.sp() + y.sp())
}

/// The difference; TooLarge where it is out of range.
pub fn sub(x: Scaled, y: Scaled) -> Result<Scaled, NumFault>
    ensures { result ≡ scaled (x -ℤ y) }
{
    in_range(x.sp() - y.sp())
}

/// The product, cut toward zero; TooLarge where it is out of range.
pub fn mul(x: Scaled, y: Scaled) -> Result<Scaled, NumFault>
    ensures { result ≡ scaled (product x y) }
{
    in_range(x.sp() * y.sp() / ONE)
}

/// The quotient, cut toward zero; DivZero where `y` is 0, else TooLarge where it is out of range.
pub fn div(x: Scaled, y: Scaled) -> Result<Scaled, NumFault>
    ensures { result ≡ quotient x y }
{
    if y.sp() == 0 {
        return Err(NumFault::DivZero);
    }
    in_range(cut(x.sp() * ONE, y.sp()))
}

/// The square root, cut downward; Domain where `x` is negative.
pub fn root(x: Scaled) -> Result<Scaled, NumFault>
    ensures gives { result ≡ square_root x }
    ensures floor { IfOk result (λ r. IsFloorRoot (unsigned_abs x * one) (unsigned_abs r)) }
{
    if x.sp() < 0 {
        return Err(NumFault::Domain);
    }
    in_range((x.sp() as u64 * ONE as u64).isqrt() as i64)
}

/// The root that is cut downward is the greatest whole number whose square is at most the number.
pub fn root_is_floor()
    ensures { (n : ℕ) → IsFloorRoot n (floor_root n) }
{}
