//! The steps of transformations that keys make, and the anchors that come with them.

ghost use Rattle.std.specs.Prelude.{◌≡◌, ◌∷◌, [], pos, MatchResult, Ok, Err};
ghost use Rattle.tk_token.specs.declared.Code.TheVariants.{Domain};
ghost use Rattle.tk_token.specs.Answers.{or_fault};
ghost use Rattle.tk_token.specs.Groups as groups;
ghost use Rattle.tk_token.specs.Groups.{cut};
ghost use Rattle.tk_characters.specs.Characters.{comma};
ghost use Rattle.tk_expr.specs.Evaluated.{evaluated};
ghost use Rattle.tk_look.specs.Applied as spec;
ghost use Rattle.tk_num.specs.Number.{product};

use crate::Look;
use crate::values::vector_value;
use arrayvec::ArrayVec;
use tk_affine::{Anchor, Matrix, Step};
use tk_expr::{FontUnits, eval};
use tk_item::Point;
use tk_native::{Side, StepKey};
use tk_num::{ONE, Scaled, mul};
use tk_token::{Code, Fault, Tok, before_char};

/// The step of one number; 65536 is one.
pub(crate) fn step_of(key: StepKey, x: Scaled) -> Step
    ensures { result ≡ spec.step_of key x }
{
    let nothing = Scaled::within(0);
    let one = Scaled::within(ONE);
    match key {
        StepKey::XShift => Step::Shift(x, nothing),
        StepKey::YShift => Step::Shift(nothing, x),
        StepKey::Rotate => Step::Rotate(x),
        StepKey::Scale => Step::Scale(x, x),
        StepKey::XScale => Step::Scale(x, one),
        StepKey::YScale => Step::Scale(one, x),
        StepKey::XSlant => Step::Slant(x, nothing),
        StepKey::YSlant => Step::Slant(nothing, x),
    }
}

/// A length on each axis of a diagonal: 46341/65536 of it, half the root of 2.
fn diagonal(length: Scaled) -> Scaled
    ensures { result ≡ product length (pos 46341) }
{
    match mul(length, Scaled::within(46_341)) {
        Ok(length) => length,
        Err(_) => unreachable!(),
    }
}

/// The shift by a length to a side.
pub(crate) fn shift_to(side: Side, length: Scaled) -> Step
    ensures { result ≡ spec.shift_to side length }
{
    let nothing = Scaled::within(0);
    let part = diagonal(length);
    match side {
        Side::Above => Step::Shift(nothing, length),
        Side::Below => Step::Shift(nothing, length.negated()),
        Side::Left => Step::Shift(length.negated(), nothing),
        Side::Right => Step::Shift(length, nothing),
        Side::AboveLeft => Step::Shift(part.negated(), part),
        Side::AboveRight => Step::Shift(part, part),
        Side::BelowLeft => Step::Shift(part.negated(), part.negated()),
        Side::BelowRight => Step::Shift(part, part.negated()),
    }
}

/// The anchor with which a node stands at that side of a place.
pub(crate) fn facing(side: Side) -> Anchor
    ensures { result ≡ spec.facing side }
{
    match side {
        Side::Above => Anchor::South,
        Side::Below => Anchor::North,
        Side::Left => Anchor::East,
        Side::Right => Anchor::West,
        Side::AboveLeft => Anchor::SouthEast,
        Side::AboveRight => Anchor::SouthWest,
        Side::BelowLeft => Anchor::NorthEast,
        Side::BelowRight => Anchor::NorthWest,
    }
}

/// The steps that a key makes.
pub(crate) type KeySteps = ArrayVec<Step, 3>;

/// One step alone.
pub(crate) fn one_step(step: Step) -> KeySteps
    ensures { result.items ≡ step ∷ [] }
{
    let mut steps = ArrayVec::new();
    steps.push(step);
    steps
}

/// The step of `shift`.
pub(crate) fn shift_by(look: &Look, list: &[Tok], font: FontUnits, at: u32) -> Result<Step, Fault>
    ensures { result ≡ spec.shift_by at evaluated font list.now look.now }
{
    let Point { x, y } = vector_value(look, list, font, at)?;
    Ok(Step::Shift(x, y))
}

/// The steps of `rotate around`: the place comes to the origin, is turned, and comes back.
#[tactic(auto, unfolding(crate::specs::Applied::turn_around))]
pub(crate) fn turn_around(
    look: &Look,
    list: &[Tok],
    font: FontUnits,
    at: u32,
) -> Result<KeySteps, Fault>
    ensures { MatchResult result
        (λ steps. spec.turn_around at evaluated font list.now look.now ≡ Ok steps.items)
        (λ fault. spec.turn_around at evaluated font list.now look.now ≡ Err fault) }
{
    let Some((angle, place)) = before_char(list, ':') else {
        return Err(Fault::new(Code::Domain, at));
    };
    let angle = eval(angle, font, at)?.number;
    let Point { x, y } = vector_value(look, place, font, at)?;
    let mut steps = ArrayVec::new();
    steps.push(Step::Shift(x, y));
    steps.push(Step::Rotate(angle));
    steps.push(Step::Shift(x.negated(), y.negated()));
    Ok(steps)
}

/// The tokens before the first comma outside braces, and those behind it; `Domain` where there is none.
fn before_comma(list: &[Tok], at: u32) -> Result<(&[Tok], &[Tok]), Fault>
    ensures { MatchResult result
        (λ found. or_fault (groups.before_char comma list.now) Domain at
        ≡ Ok (cut found.0.now found.1.now))
        (λ fault. or_fault (groups.before_char comma list.now) Domain at ≡ Err fault) }
{
    match before_char(list, ',') {
        Some(found) => Ok(found),
        None => Err(Fault::new(Code::Domain, at)),
    }
}

/// The step of `cm`: four numbers, which are cut at commas before any of them is read, and a pair.
#[tactic(auto, unfolding(crate::specs::Applied::matrix_step))]
pub(crate) fn matrix_step(
    look: &Look,
    list: &[Tok],
    font: FontUnits,
    at: u32,
) -> Result<Step, Fault>
    ensures { result ≡ spec.matrix_step at evaluated font list.now look.now }
{
    let (first, list) = before_comma(list, at)?;
    let (second, list) = before_comma(list, at)?;
    let (third, list) = before_comma(list, at)?;
    let (fourth, list) = before_comma(list, at)?;
    let a = eval(first, font, at)?.number;
    let b = eval(second, font, at)?.number;
    let c = eval(third, font, at)?.number;
    let d = eval(fourth, font, at)?.number;
    let Point { x, y } = vector_value(look, list, font, at)?;
    Ok(Step::Cm(Matrix {
        a,
        b,
        c,
        d,
        tx: x,
        ty: y,
    }))
}
