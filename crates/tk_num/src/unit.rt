//! Lengths in units.

ghost use Rattle.std.specs.Prelude.{◌≡◌, ◌+◌, ◌*◌, ◌<◌, ◌≤◌, pos, unsigned_abs};
ghost use Rattle.tk_num.specs.Number.{one, IsWhole, IsFraction, product, scaled};
ghost use Rattle.tk_num.specs.Unit.{converted, length_in};

use crate::arithmetic::{cut, in_range};
use crate::{NumFault, ONE, Scaled};

/// The units of a length: those of TeX, with scaled points and the two units of a font.
#[derive(Clone, Copy, PartialEq, Eq)]
pub enum Unit {
    Pt,
    Pc,
    In,
    Bp,
    Cm,
    Mm,
    Dd,
    Cc,
    Sp,
    Em,
    Ex,
}

/// A length in a unit of `numerator / denominator` points, in 65536ths of a point, cut downward.
///
/// The whole part is divided first and its remainder carried into the 65536ths, as in Knuth, TeX: The
/// Program, section 458.
fn in_points(whole: u64, frac: u64, numerator: u64, denominator: u64) -> i64
    requires whole { whole ≤ 1073741823 }
    requires frac { frac < one }
    requires numerator { numerator ≤ 14856 }
    requires some { 1 ≤ denominator }
    requires denominator { denominator ≤ 7200 }
    ensures { result ≡ pos (converted numerator denominator (one * whole + frac)) }
{
    let product = whole * numerator;
    let parts = (numerator * frac + ONE as u64 * (product % denominator)) / denominator;
    (ONE as u64 * (product / denominator) + parts) as i64
}

/// A length in a unit of a font, in 65536ths of a point, cut toward zero.
fn in_font_unit(whole: i64, frac: i64, unit: Scaled) -> i64
    requires whole { IsWhole whole }
    requires frac { IsFraction frac }
    ensures { result ≡ product (pos (one * unsigned_abs whole + unsigned_abs frac)) unit }
{
    whole * unit.sp() + cut(frac * unit.sp(), ONE)
}

/// The length of `whole` and `frac` 65536ths in a unit, in 65536ths of a point.
fn length_in_unit(whole: i64, frac: i64, unit: Unit, em: Scaled, ex: Scaled) -> i64
    requires whole { IsWhole whole }
    requires frac { IsFraction frac }
    ensures { result ≡ length_in unit (one * unsigned_abs whole + unsigned_abs frac) em ex }
{
    let (points, parts) = (whole as u64, frac as u64);
    match unit {
        Unit::Pt => in_points(points, parts, 1, 1),
        Unit::Pc => in_points(points, parts, 12, 1),
        Unit::In => in_points(points, parts, 7227, 100),
        Unit::Bp => in_points(points, parts, 7227, 7200),
        Unit::Cm => in_points(points, parts, 7227, 254),
        Unit::Mm => in_points(points, parts, 7227, 2540),
        Unit::Dd => in_points(points, parts, 1238, 1157),
        Unit::Cc => in_points(points, parts, 14856, 1157),
        Unit::Sp => whole,
        Unit::Em => in_font_unit(whole, frac, em),
        Unit::Ex => in_font_unit(whole, frac, ex),
    }
}

/// The length of `whole` and `frac` 65536ths in a unit; TooLarge where it is out of range.
///
/// `whole` is from 0 to 1,073,741,823 and `frac` from 0 to 65535, as `read_decimal` gives them. In
/// scaled points `frac` counts for nothing. `em` and `ex` are the units of the font.
pub fn with_unit(
    whole: i64,
    frac: i64,
    unit: Unit,
    em: Scaled,
    ex: Scaled,
) -> Result<Scaled, NumFault>
    requires whole { IsWhole whole }
    requires frac { IsFraction frac }
    ensures { result
        ≡ scaled (length_in unit (one * unsigned_abs whole + unsigned_abs frac) em ex) }
{
    in_range(length_in_unit(whole, frac, unit, em, ex))
}
