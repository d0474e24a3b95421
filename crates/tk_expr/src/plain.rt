//! The short way to the value of a decimal, which most coordinates are made of: without the machine and its frames.

ghost use Rattle.std.specs.Prelude.{◌≡◌, ◌<◌, Bool, false, length, IfSome};
ghost use Rattle.tk_expr.specs.Plain.{wanting, counting, pointed, Reaches, signed_value, EndsAs, IsEvaluated};

use crate::number::Decimal;
use crate::pieces::{Mark, next_piece};
use crate::values::Found;
use crate::{FontUnits, Value};
use tk_token::{Fault, Tok};

/// The value of a text that is a decimal, with a `-` before it or without, and with a unit right behind it or without.
/// Other texts have none here.
pub(crate) fn plain_value(list: &[Tok], font: &FontUnits) -> Option<Result<Value, Fault>>
    ensures { IfSome result (λ found. IsEvaluated font.now list.now found) }
{
    let (negative, rest) = after_sign(list);
    let (found, unit) = unsigned(rest, font)?;
    Some(signed(negative, found, unit))
}

/// Whether a `-` stands in front, and what stands behind it.
#[inline(always)]
fn after_sign(list: &[Tok]) -> (bool, &[Tok])
    ensures { Reaches (wanting false) list.now (wanting result.0) result.1.now }
{
    let Some((first, tail)) = next_piece(list) else {
        return (false, list);
    };
    match first.mark {
        Mark::Minus => (true, tail),
        _ => (false, list),
    }
}

/// The number of a decimal, and whether it has a unit.
fn unsigned(list: &[Tok], font: &FontUnits) -> Option<(Found, bool)>
    ensures { IfSome result (EndsAs font.now wanting list.now) }
{
    let (first, tail) = next_piece(list)?;
    match first.mark {
        Mark::Digit(digit) => longer(Decimal::new(false, first.at).with_digit(digit), tail, font),
        Mark::Point => part(first.at, tail, font),
        _ => None,
    }
}

/// The same behind a point, at that place, that begins the decimal.
fn part(at: u32, list: &[Tok], font: &FontUnits) -> Option<(Found, bool)>
    ensures { IfSome result (EndsAs font.now (pointed at) list.now) }
{
    let (first, tail) = next_piece(list)?;
    match first.mark {
        Mark::Digit(digit) => longer(Decimal::new(true, at).with_digit(digit), tail, font),
        _ => None,
    }
}

/// The same behind the first digit.
fn longer(first: Decimal, list: &[Tok], font: &FontUnits) -> Option<(Found, bool)>
    ensures { IfSome result (EndsAs font.now (counting first) list.now) }
{
    let (decimal, rest) = all_digits(first, list);
    measured(decimal, rest, font)
}

/// A decimal with the digits and the point that stand in front, and what stands behind them.
#[inline(always)]
fn all_digits(first: Decimal, list: &[Tok]) -> (Decimal, &[Tok])
    ensures { (negative : Bool)
        → Reaches (counting first negative) list.now (counting result.0 negative) result.1.now }
{
    let mut decimal = first;
    let mut rest = list;
    while let Some((longer, tail)) = next_digit(decimal, rest) {
        decimal = longer;
        rest = tail;
    }
    (decimal, rest)
}

/// A decimal with the digit or the point that stands in front, and what stands behind it.
#[inline(always)]
fn next_digit(decimal: Decimal, list: &[Tok]) -> Option<(Decimal, &[Tok])>
    ensures goes { IfSome result (λ found. (negative : Bool)
        → Reaches (counting decimal negative) list.now (counting found.0 negative) found.1.now) }
    ensures shorter { IfSome result (λ found. length found.1.now < length list.now) }
{
    let (first, tail) = next_piece(list)?;
    match first.mark {
        Mark::Digit(digit) => Some((decimal.with_digit(digit), tail)),
        Mark::Point if !decimal.is_pointed() => Some((decimal.with_point(), tail)),
        _ => None,
    }
}

/// The number of a decimal, where nothing stands behind it but perhaps a unit.
#[inline(always)]
fn measured(decimal: Decimal, list: &[Tok], font: &FontUnits) -> Option<(Found, bool)>
    ensures { IfSome result (EndsAs font.now (counting decimal) list.now) }
{
    let Some((first, tail)) = next_piece(list) else {
        return Some((decimal.plain_value(font), false));
    };
    match first.mark {
        Mark::Measure(unit) if tail.is_empty() => Some((decimal.unit_value(font, unit), true)),
        _ => None,
    }
}

/// The value of a number behind a sign.
#[inline(always)]
fn signed(negative: bool, found: Found, unit: bool) -> Result<Value, Fault>
    ensures { result ≡ signed_value negative found unit }
{
    let number = found?;
    Ok(Value {
        number: if negative { number.negated() } else { number },
        unit,
    })
}
