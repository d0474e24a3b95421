//! What operators, signs and functions make of numbers.

ghost use Rattle.std.specs.Prelude.{◌≡◌, ◌*◌, ◌+◌, ◌/◌, ◌≤◌, ℤ, pos, neg_ℤ, ◌+ℤ◌, ◌-ℤ◌, ◌≤ℤ◌, unsigned_abs};
ghost use Rattle.tk_num.specs.Number.{IsScaled, IsWhole, IsFraction, scaled, floor_root};
ghost use Rattle.tk_expr.specs.Values as spec;

use crate::FontUnits;
use crate::operators::Operator;
use crate::pieces::{Most, One, Two};
use tk_num::{NumFault, ONE, Scaled, Unit, add, cos, div, mul, root, sin, sub, tan, with_unit};
use tk_token::{Code, Fault};

/// A number, or the first fault that was met on the way to it.
pub type Found = Result<Scaled, Fault>;

/// The number of so many 65536ths; TooLarge where it is out of range.
#[inline(always)]
fn in_range(sp: i64) -> Result<Scaled, NumFault>
    ensures { result ≡ scaled sp }
{
    Scaled::new(sp).ok_or(NumFault::TooLarge)
}

fn code_of(fault: NumFault) -> Code
    ensures { result ≡ spec.code_of fault }
{
    match fault {
        NumFault::TooLarge => Code::TooLarge,
        NumFault::DivZero => Code::DivZero,
        NumFault::Domain => Code::Domain,
    }
}

/// A number that stands at a place, or its fault there: `TooLarge`, `DivZero` or `Domain`.
#[inline(always)]
pub fn placed(at: u32, number: Result<Scaled, NumFault>) -> Result<Scaled, Fault>
    ensures { result ≡ spec.placed at number }
{
    match number {
        Ok(number) => Ok(number),
        Err(fault) => Err(Fault {
            code: code_of(fault),
            at,
        }),
    }
}

/// One for true, 0 for false.
#[inline(always)]
pub(crate) fn truth(holds: bool) -> Scaled
    ensures { result ≡ spec.truth holds }
{
    if holds {
        Scaled::within(ONE)
    } else {
        Scaled::within(0)
    }
}

/// A number is true where it isn't 0.
#[inline(always)]
pub(crate) fn is_true(x: Scaled) -> bool
    ensures { result ≡ spec.is_true x }
{
    x.sp() != 0
}

/// As many products by `x` as the exponent says, from one on.
#[tactic(auto, unfolding(crate::specs::Values::power))]
fn power(x: Scaled, exponent: u32) -> Result<Scaled, NumFault>
    ensures { result ≡ spec.power x exponent }
{
    let mut product = Scaled::within(ONE);
    for _ in 0..exponent {
        product = mul(product, x)?;
    }
    Ok(product)
}

/// `x` to a whole exponent in 65536ths; a negative one gives one by the power.
fn whole_power(x: Scaled, y: i64) -> Result<Scaled, NumFault>
    requires { IsScaled y }
    ensures { result ≡ spec.whole_power x y }
{
    let exponent = (y.unsigned_abs() / ONE as u64) as u32;
    if y < 0 {
        return div(Scaled::within(ONE), power(x, exponent)?);
    }
    power(x, exponent)
}

/// `x` to the exponent `y`; Domain where that isn't whole.
fn raised(x: Scaled, y: Scaled) -> Result<Scaled, NumFault>
    ensures { result ≡ spec.raised x y }
{
    if y.sp().unsigned_abs() % ONE as u64 != 0 {
        return Err(NumFault::Domain);
    }
    whole_power(x, y.sp())
}

/// What an operator makes of two numbers.
#[inline(always)]
pub(crate) fn operated(operator: Operator, x: Scaled, y: Scaled) -> Result<Scaled, NumFault>
    ensures { result ≡ spec.operated operator x y }
{
    match operator {
        Operator::Raise => raised(x, y),
        Operator::Multiply => mul(x, y),
        Operator::Divide => div(x, y),
        Operator::Add => add(x, y),
        Operator::Subtract => sub(x, y),
        Operator::Same => Ok(truth(x.sp() == y.sp())),
        Operator::Differs => Ok(truth(x.sp() != y.sp())),
        Operator::AtMost => Ok(truth(x.sp() <= y.sp())),
        Operator::AtLeast => Ok(truth(y.sp() <= x.sp())),
        Operator::Below => Ok(truth(x.sp() < y.sp())),
        Operator::Above => Ok(truth(y.sp() < x.sp())),
        Operator::Both => Ok(truth(is_true(x) && is_true(y))),
        Operator::Either => Ok(truth(is_true(x) || is_true(y))),
    }
}

/// The second number where the first is true, else the third.
pub(crate) fn chosen(condition: Scaled, x: Scaled, y: Scaled) -> Scaled
    ensures { result ≡ spec.chosen condition x y }
{
    if is_true(condition) { x } else { y }
}

/// A size, which isn't negative, in a unit.
fn size_in(font: &FontUnits, unit: Unit, size: u64) -> Result<Scaled, NumFault>
    requires { size / 65536 ≤ 1073741823 }
    ensures { result ≡ scaled (spec.unit_length font.now unit size) }
{
    let (whole, parts) = (size / ONE as u64, size % ONE as u64);
    with_unit(whole as i64, parts as i64, unit, font.em, font.ex)
}

/// A decimal of so many 65536ths without a unit, or in one.
pub(crate) fn decimal_in(
    font: &FontUnits,
    unit: Option<Unit>,
    total: u64,
) -> Result<Scaled, NumFault>
    requires { total ≤ 9223372036854775807 }
    ensures { result ≡ spec.decimal_in font.now unit total }
{
    match unit {
        None => in_range(total as i64),
        Some(_) if total / ONE as u64 > 1_073_741_823 => Err(NumFault::TooLarge),
        Some(unit) => size_in(font, unit, total),
    }
}

/// Any other number in a unit: its size in the unit, with its sign.
pub(crate) fn in_unit(font: &FontUnits, unit: Unit, x: Scaled) -> Result<Scaled, NumFault>
    ensures { result ≡ spec.in_unit font.now unit x }
{
    let size = size_in(font, unit, x.sp().unsigned_abs())?;
    if x.sp() < 0 {
        return Ok(size.negated());
    }
    Ok(size)
}

/// Radians in degrees.
pub(crate) fn in_degrees(x: Scaled) -> Result<Scaled, NumFault>
    ensures { result ≡ spec.in_degrees x }
{
    in_range(x.sp() * 11_796_480 / 205_887)
}

/// pi
pub(crate) fn pi() -> Scaled
    ensures { result ≡ spec.pi_value }
{
    Scaled::within(205_887)
}

/// The greatest whole number, in 65536ths, that isn't greater.
fn floored(sp: i64) -> i64
    requires { unsigned_abs sp ≤ 1073774591 }
    ensures value { result ≡ spec.floored sp }
    ensures small { unsigned_abs result ≤ 1073840127 }
{
    sp - sp.rem_euclid(ONE)
}

/// The least whole number, in 65536ths, that isn't less.
fn ceiled(x: Scaled) -> i64
    ensures { result ≡ spec.ceiled x }
{
    -floored(-x.sp())
}

/// The nearest whole number, in 65536ths, half away from zero.
fn rounded(x: Scaled) -> i64
    ensures { result ≡ spec.rounded x }
{
    if x.sp() < 0 {
        return -floored(-x.sp() + 32768);
    }
    floored(x.sp() + 32768)
}

/// One, 0 or minus one.
fn signum(x: Scaled) -> Scaled
    ensures { result ≡ spec.signum x }
{
    if x.sp() == 0 {
        return Scaled::within(0);
    }
    if x.sp() < 0 {
        Scaled::within(-ONE)
    } else {
        Scaled::within(ONE)
    }
}

/// What a function makes of its one argument.
pub(crate) fn called_one(function: One, x: Scaled) -> Result<Scaled, NumFault>
    ensures { result ≡ spec.called_one function x }
{
    match function {
        One::Sin => Ok(sin(x)),
        One::Cos => Ok(cos(x)),
        One::Tan => tan(x),
        One::Sqrt => root(x),
        One::Abs => Ok(Scaled::within(x.sp().abs())),
        One::Sign => Ok(signum(x)),
        One::Floor => in_range(floored(x.sp())),
        One::Ceil => in_range(ceiled(x)),
        One::Round => in_range(rounded(x)),
        One::Int => Ok(Scaled::within(x.sp() - x.sp() % ONE)),
    }
}

/// What is left of `x` after whole multiples of `y`.
fn remainder(x: Scaled, y: Scaled) -> Result<Scaled, NumFault>
    ensures { result ≡ spec.remainder x y }
{
    if y.sp() == 0 {
        return Err(NumFault::DivZero);
    }
    Ok(Scaled::within(x.sp() % y.sp()))
}

/// The length of the vector of `x` and `y`, cut downward.
fn vector_length(x: Scaled, y: Scaled) -> i64
    ensures { result ≡ spec.vector_length x y }
{
    diagonal(x.sp().unsigned_abs(), y.sp().unsigned_abs())
}

/// The diagonal of a rectangle, cut downward.
fn diagonal(across: u64, upward: u64) -> i64
    requires across { across ≤ 1073741823 }
    requires upward { upward ≤ 1073741823 }
    ensures { result ≡ pos (floor_root (across * across + upward * upward)) }
{
    (across * across + upward * upward).isqrt() as i64
}

/// What a function makes of its two arguments.
pub(crate) fn called_two(function: Two, x: Scaled, y: Scaled) -> Result<Scaled, NumFault>
    ensures { result ≡ spec.called_two function x y }
{
    match function {
        Two::Mod => remainder(x, y),
        Two::Pow => raised(x, y),
        Two::Veclen => in_range(vector_length(x, y)),
    }
}

/// The least or the greatest of two arguments.
pub(crate) fn called_most(function: Most, x: Scaled, y: Scaled) -> Scaled
    ensures { result ≡ spec.called_most function x y }
{
    let less = y.sp() < x.sp();
    match function {
        Most::Min => if less { y } else { x },
        Most::Max => if less { x } else { y },
    }
}
