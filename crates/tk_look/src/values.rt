//! How the values of keys are read. `at` is the place of the key's part in its list.

ghost use Rattle.std.specs.Prelude.{◌≡◌, pos, option_map, option_copied, string_bytes, IfOk};
ghost use Rattle.tk_token.specs.Refusals.{Gives};
ghost use Rattle.tk_look.specs.Views.{text_there};
ghost use Rattle.tk_expr.specs.Evaluated.{evaluated};
ghost use Rattle.tk_expr.specs.Evaluates.{Evaluation, IsEvaluation};
ghost use Rattle.tk_look.specs.Values as spec;
ghost use Rattle.tk_look.specs.Applied as native;
ghost use Rattle.tk_look.specs.Words.{caps, joins, shapes, anchors};

use crate::colours::colour;
use crate::words::{anchor_named, cap_named, join_named, shape_named};
use crate::{LineWidth, Look, MiterLimit, Position};
use std::alloc::{AllocError, Global};
use tk_affine::{Anchor, Shape};
use tk_expr::{FontUnits, Value, eval, pair, vector};
use tk_item::{Cap, Join, Point, Rgb};
use tk_num::Scaled;
use tk_token::{Code, Fault, Refusal, Tok, text_in, trimmed};

// ---- numbers

/// A value that is an expression.
pub(crate) fn measure_value(value: Option<&[Tok]>, font: FontUnits, at: u32) -> Result<Value, Fault>
    ensures { result ≡ spec.measure_value at evaluated font (option_copied value.entry) }
{
    match value {
        Some(list) => eval(list, font, at),
        None => Err(Fault::new(Code::ValueRequired, at)),
    }
}

/// Its number: a length without a unit counts points.
pub(crate) fn number_value(value: Option<&[Tok]>, font: FontUnits, at: u32) -> Result<Scaled, Fault>
    ensures { result ≡ spec.number_value at evaluated font (option_copied value.entry) }
{
    Ok(measure_value(value, font, at)?.number)
}

/// The width of a line.
pub(crate) fn width_value(
    value: Option<&[Tok]>,
    font: FontUnits,
    at: u32,
) -> Result<LineWidth, Fault>
    ensures { result ≡ spec.number_from at evaluated font (pos 0) (option_copied value.entry) }
{
    let width = number_value(value, font, at)?;
    LineWidth::new(width).ok_or(Fault::new(Code::Domain, at))
}

/// The limit of miters.
pub(crate) fn limit_value(
    value: Option<&[Tok]>,
    font: FontUnits,
    at: u32,
) -> Result<MiterLimit, Fault>
    ensures { result ≡ spec.number_from at evaluated font (pos 65536) (option_copied value.entry) }
{
    let limit = number_value(value, font, at)?;
    MiterLimit::new(limit).ok_or(Fault::new(Code::Domain, at))
}

/// A place along a line.
pub(crate) fn position_value(
    value: Option<&[Tok]>,
    font: FontUnits,
    at: u32,
) -> Result<Position, Fault>
    ensures { result ≡ native.position_value at evaluated font (option_copied value.entry) }
{
    let place = number_value(value, font, at)?;
    Position::new(place).ok_or(Fault::new(Code::Domain, at))
}

// ---- words and colours

/// The text of a value that has to be there; a fault where it isn't of characters and Spaces alone.
fn text_value(alloc: Global, value: Option<&[Tok]>, code: Code, at: u32) -> Result<String, Refusal>
    ensures { Gives (λ text. string_bytes text) result
        (text_there code at (option_copied value.entry)) }
{
    let Some(list) = value else {
        return Err(Refusal::new(Code::ValueRequired, at));
    };
    match text_in(alloc, list)? {
        Some(text) => Ok(text),
        None => Err(Refusal::new(code, at)),
    }
}

/// The end of open lines.
pub(crate) fn cap_value(alloc: Global, value: Option<&[Tok]>, at: u32) -> Result<Cap, Refusal>
    ensures { Gives (λ cap. cap) result (spec.word_value at caps (option_copied value.entry)) }
{
    let word = text_value(alloc, value, Code::UnknownChoice, at)?;
    cap_named(&word).ok_or(Refusal::new(Code::UnknownChoice, at))
}

/// The corner of lines.
pub(crate) fn join_value(alloc: Global, value: Option<&[Tok]>, at: u32) -> Result<Join, Refusal>
    ensures { Gives (λ join. join) result (spec.word_value at joins (option_copied value.entry)) }
{
    let word = text_value(alloc, value, Code::UnknownChoice, at)?;
    join_named(&word).ok_or(Refusal::new(Code::UnknownChoice, at))
}

/// The shape of a node.
pub(crate) fn shape_value(alloc: Global, value: Option<&[Tok]>, at: u32) -> Result<Shape, Refusal>
    ensures { Gives (λ shape. shape) result
        (spec.word_value at shapes (option_copied value.entry)) }
{
    let word = text_value(alloc, value, Code::UnknownChoice, at)?;
    shape_named(&word).ok_or(Refusal::new(Code::UnknownChoice, at))
}

/// A colour.
pub(crate) fn colour_value(alloc: Global, value: Option<&[Tok]>, at: u32) -> Result<Rgb, Refusal>
    ensures { Gives (λ c. c) result (spec.colour_value at (option_copied value.entry)) }
{
    let text = text_value(alloc, value, Code::Colour, at)?;
    colour(&text).ok_or(Refusal::new(Code::Colour, at))
}

// ---- anchors and pairs

/// The anchor that an angle gives; a text that isn't an expression isn't an anchor.
fn as_anchor(found: Result<Value, Fault>, at: u32) -> Result<Anchor, Fault>
    ensures { result ≡ spec.as_anchor at found }
{
    match found {
        Ok(angle) => Ok(Anchor::Angle(angle.number)),
        Err(other) => match other.code {
            Code::Expression => Err(Fault::new(Code::NoAnchor, at)),
            _ => Err(other),
        },
    }
}

/// The anchor of that name, if it is one.
fn anchor_by_name(alloc: Global, list: &[Tok]) -> Result<Option<Anchor>, AllocError>
    ensures { IfOk result (λ found. found ≡ spec.found_in anchors list.now) }
{
    match text_in(alloc, list)? {
        Some(name) => Ok(anchor_named(&name)),
        None => Ok(None),
    }
}

/// What `anchor_in_text` gives, where the values of expressions are those of the machine.
fn anchor_by_machine(
    alloc: Global,
    list: &[Tok],
    font: FontUnits,
    at: u32,
) -> Result<Anchor, Refusal>
    ensures { Gives (λ anchor. anchor) result (spec.anchor_in_text at evaluated font list.now) }
{
    match anchor_by_name(alloc, list)? {
        Some(anchor) => Ok(anchor),
        None => Ok(as_anchor(eval(list, font, at), at)?),
    }
}

/// The anchor of a text: one of that name (`north east`), or the place on the border at the angle that the text is as an
/// expression (`60`), in degrees. A text that is neither is refused as `NoAnchor` at `at`; other faults of expressions
/// stand where `eval` puts them.
pub fn anchor_in_text(
    alloc: Global,
    list: &[Tok],
    font: FontUnits,
    at: u32,
) -> Result<Anchor, Refusal>
    ensures { (ev : Evaluation) → IsEvaluation ev
        → Gives (λ anchor. anchor) result (spec.anchor_in_text at ev font list.now) }
{
    anchor_by_machine(alloc, list, font, at)
}

/// A value that is the text of an anchor.
pub(crate) fn anchor_value(
    alloc: Global,
    value: Option<&[Tok]>,
    font: FontUnits,
    at: u32,
) -> Result<Anchor, Refusal>
    ensures { Gives (λ anchor. anchor) result
        (spec.anchor_value at evaluated font (option_copied value.entry)) }
{
    match value {
        Some(list) => anchor_by_machine(alloc, list, font, at),
        None => Err(Refusal::new(Code::ValueRequired, at)),
    }
}

/// The tokens before a `)` that ends them.
fn before_closing(list: &[Tok]) -> Option<&[Tok]>
    ensures { option_map (λ before. before.now) result ≡ spec.before_closing list.now }
{
    let (last, before) = list.split_last()?;
    if last.kind.is_char(')') {
        Some(before)
    } else {
        None
    }
}

/// The tokens between a `(` and a `)` that all of them stand in.
fn between_parentheses(list: &[Tok]) -> Option<&[Tok]>
    ensures { option_map (λ inner. inner.now) result ≡ spec.between_parentheses list.now }
{
    let (first, rest) = list.split_first()?;
    if first.kind.is_char('(') {
        before_closing(rest)
    } else {
        None
    }
}

/// The vector of a pair in parentheses, by the vectors of a look.
#[tactic(auto, unfolding(crate::specs::Values::vector_value))]
pub(crate) fn vector_value(
    look: &Look,
    list: &[Tok],
    font: FontUnits,
    at: u32,
) -> Result<Point, Fault>
    ensures { result ≡ spec.vector_value at evaluated font look.now list.now }
{
    let Some(text) = between_parentheses(trimmed(list)) else {
        return Err(Fault::new(Code::Coordinate, at));
    };
    let Some(found) = pair(text, font, at)? else {
        return Err(Fault::new(Code::Coordinate, at));
    };
    vector(found, look.x, look.y, at)
}
