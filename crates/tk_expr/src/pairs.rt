//! The numbers of a coordinate.

ghost use Rattle.std.specs.Prelude.{◌≡◌, ℤ, option_map};
ghost use Rattle.tk_expr.specs.declared.ValuePair.TheVariants.{Plane, Polar};
ghost use Rattle.tk_token.specs.Groups as groups;
ghost use Rattle.tk_token.specs.Groups.{cut, first_outside};
ghost use Rattle.tk_token.specs.Kinds.{begins_and};
ghost use Rattle.tk_expr.specs.Evaluated.{evaluated};
ghost use Rattle.tk_expr.specs.Evaluates.{Evaluation, IsEvaluation};
ghost use Rattle.tk_expr.specs.Pairs as spec;

use crate::evaluation::eval;
use crate::values::{Found, placed};
use crate::{FontUnits, Value, ValuePair};
use tk_item::Point;
use tk_num::{Scaled, cos, mul, sin};
use tk_token::{Code, Fault, Sought, Tok, before_char, first_outside, unbraced, without_first};

/// The value of a part, which may be a group; `at` is the place of an empty one.
fn part_value(list: &[Tok], font: &FontUnits, at: u32) -> Result<Value, Fault>
    ensures { result ≡ spec.part_value evaluated font.now at list.now }
{
    eval(unbraced(list), *font, at)
}

/// The form `x,y`, which has no second `,`.
#[tactic(auto, unfolding(crate::specs::Pairs::plane))]
fn plane(front: &[Tok], back: &[Tok], font: &FontUnits, at: u32) -> Result<ValuePair, Fault>
    ensures { result ≡ spec.plane evaluated font.now at front.now back.now }
{
    if before_char(back, ',').is_some() {
        return Err(Fault {
            code: Code::Coordinate,
            at,
        });
    }
    let x = part_value(front, font, at)?;
    let y = part_value(back, font, at)?;
    Ok(ValuePair::Plane(x, y))
}

/// The radii `r and s`, or `r`, which is both.
fn radii(angle: Scaled, back: &[Tok], font: &FontUnits, at: u32) -> Result<ValuePair, Fault>
    ensures { result
        ≡ spec.radii evaluated font.now at angle back.now (first_outside begins_and back.now) }
{
    match first_outside(back, Sought::And) {
        Some((front, rest)) => {
            let r = part_value(front, font, at)?;
            let s = part_value(without_first(rest, 3), font, at)?;
            Ok(ValuePair::Polar(angle, r, s))
        }
        None => {
            // The checker copies no `Value` that is used twice, since a `Scaled` lies in it: so it is taken apart.
            let Value { number, unit } = part_value(back, font, at)?;
            Ok(ValuePair::Polar(angle, Value { number, unit }, Value { number, unit }))
        }
    }
}

/// The forms `a:r` and `a:r and s`.
#[tactic(auto, unfolding(crate::specs::Pairs::polar))]
fn polar(front: &[Tok], back: &[Tok], font: &FontUnits, at: u32) -> Result<ValuePair, Fault>
    ensures { result ≡ spec.polar evaluated font.now at front.now back.now }
{
    let angle = eval(front, *font, at)?;
    radii(angle.number, back, font, at)
}

/// The form of a text without a `,` outside braces.
fn by_colon(list: &[Tok], font: &FontUnits, at: u32) -> Result<Option<ValuePair>, Fault>
    ensures { result ≡ spec.by_colon evaluated font.now at (groups.before_char 58 list.now) }
{
    match before_char(list, ':') {
        Some((front, back)) => Ok(Some(polar(front, back, font, at)?)),
        None => Ok(None),
    }
}

/// The numbers of a coordinate, as the machine evaluates their texts.
#[tactic(auto, unfolding(crate::specs::Pairs::paired))]
fn paired(list: &[Tok], font: &FontUnits, at: u32) -> Result<Option<ValuePair>, Fault>
    ensures { result ≡ spec.paired evaluated font.now at list.now }
{
    match before_char(list, ',') {
        Some((front, back)) => Ok(Some(plane(front, back, font, at)?)),
        None => by_colon(list, font, at),
    }
}

/// The numbers of a coordinate of the form `x,y`, `a:r` or `a:r and s`.
///
/// A `,` outside braces tells the form, else a `:`, wherever they stand: `(0<1?1:2,3)` is of the form `x,y`. Where
/// there is neither, there is no pair. A part of the form `{..}` loses its braces, but not the angle. The parts are
/// read from left to right, with the faults of `eval`; a part that runs out does so at its last token, or at `at` where
/// it is empty. A second `,` outside braces is refused as `Coordinate` at `at`, before any part is read.
#[tactic(auto, using(crate::proofs::Evaluations::paired_by))]
pub fn pair(list: &[Tok], font: FontUnits, at: u32) -> Result<Option<ValuePair>, Fault>
    ensures gives { (ev : Evaluation) → IsEvaluation ev → result ≡ spec.paired ev font at list.now }
    ensures value { result ≡ spec.paired evaluated font at list.now }
{
    paired(list, &font, at)
}

/// The length of a value along a vector of that length, in scaled points: a number with a unit is a length, and one
/// without counts vectors. `TooLarge` stands at `at`.
pub fn length_along(vector: Scaled, value: Value, at: u32) -> Result<Scaled, Fault>
    ensures { result ≡ spec.length_along vector at value }
{
    if value.unit {
        return Ok(value.number);
    }
    placed(at, mul(value.number, vector))
}

/// The vector of `x,y`.
#[tactic(auto, unfolding(crate::specs::Pairs::vector_of))]
fn plane_vector(v: Value, w: Value, x: Scaled, y: Scaled, at: u32) -> Result<Point, Fault>
    ensures { result ≡ spec.vector_of x y at (Plane v w) }
{
    Ok(Point {
        x: length_along(x, v, at)?,
        y: length_along(y, w, at)?,
    })
}

/// The vector of an angle and two radii.
#[tactic(auto, unfolding(crate::specs::Pairs::vector_of))]
fn polar_vector(
    angle: Scaled,
    v: Value,
    w: Value,
    x: Scaled,
    y: Scaled,
    at: u32,
) -> Result<Point, Fault>
    ensures { result ≡ spec.vector_of x y at (Polar angle v w) }
{
    let r = length_along(x, v, at)?;
    let s = length_along(y, w, at)?;
    Ok(Point {
        x: placed(at, mul(r, cos(angle)))?,
        y: placed(at, mul(s, sin(angle)))?,
    })
}

/// The vector of a pair, where `x` and `y` are the lengths of the x and y vectors. A number without a unit
/// multiplies the length of its vector, one with a unit is a length itself. `TooLarge` stands at `at`.
pub fn vector(pair: ValuePair, x: Scaled, y: Scaled, at: u32) -> Result<Point, Fault>
    ensures gives { result ≡ spec.vector_of x y at pair }
{
    match pair {
        ValuePair::Plane(v, w) => plane_vector(v, w, x, y, at),
        ValuePair::Polar(angle, v, w) => polar_vector(angle, v, w, x, y, at),
    }
}
