//! The points of texts.

ghost use Rattle.std.specs.Prelude.{◌≡◌, option_map};
ghost use Rattle.tk_token.specs.Refusals.{Gives};
ghost use Rattle.tk_token.specs.Spaces.{trimmed};
ghost use Rattle.tk_expr.specs.Evaluated.{evaluated};
ghost use Rattle.tk_expr.specs.Evaluates.{Evaluation, IsEvaluation};
ghost use Rattle.tk_affine.specs.Faults.{answer_at};
ghost use Rattle.tk_coord.specs.Coordinates as spec;

use crate::TextTarget;
use crate::corners::{CornerStart, corners_from, sign_in_front};
use std::alloc::Global;
use tk_affine::{Matrix, answer_at, apply, apply_vector};
use tk_expr::{FontUnits, ValuePair, pair, vector};
use tk_item::Point;
use tk_look::Look;
use tk_num::add;
use tk_token::{Code, Fault, Refusal, Sought, Tok, first_outside, trimmed, without_first};

/// What the numbers of a coordinate count, and where they lead.
#[derive(Drop)]
struct CoordinateSystem<'a> {
    /// Its vectors are counted by numbers without a unit.
    look: &'a Look,
    /// Its units are those of lengths in em and ex.
    font: FontUnits,
    /// It takes points and vectors to their places.
    matrix: Matrix,
}

impl CoordinateSystem<'_> {
    /// The point of numbers.
    fn point_in_numbers(&self, numbers: ValuePair, at: u32) -> Result<Point, Fault>
        ensures { result ≡ spec.point_in_numbers self.now.look.now self.now.matrix at numbers }
    {
        let v = vector(numbers, self.look.x, self.look.y, at)?;
        answer_at(apply(self.matrix, v), at)
    }

    /// The point of a text without a sign, which may have Spaces round it.
    fn lone_point(&self, text: &[Tok], at: u32) -> Result<Point, Fault>
        ensures { result
            ≡ spec.lone_point evaluated self.now.font self.now.look.now self.now.matrix at
            (trimmed text.now) }
    {
        let text = trimmed(text);
        match pair(text, self.font, at)? {
            Some(numbers) => self.point_in_numbers(numbers, at),
            None => Err(Fault::new(code_without_numbers(text), at)),
        }
    }

    /// The point of a coordinate without `+`. Its points are kept until the last one is found, from which the corners
    /// lead back: in `a -| b |- c` the corner of b and c comes first, then that of a and this corner.
    fn absolute_point(&self, alloc: Global, text: &[Tok], at: u32) -> Result<Point, Refusal>
        ensures { Gives (λ point. point) result
            (spec.absolute_point evaluated self.now.font self.now.look.now self.now.matrix at
            text.now) }
    {
        let mut starts = Vec::new(alloc);
        let mut rest = text;
        while let Some((front, behind)) = first_outside(rest, Sought::Corner) {
            let point = self.lone_point(front, at)?;
            let sign = sign_in_front(behind);
            starts.push(CornerStart { point, sign })?;
            rest = without_first(behind, 2);
        }
        let end = self.lone_point(rest, at)?;
        Ok(corners_from(starts, end, &self.matrix, at)?)
    }

    /// The point of a coordinate behind `+` or `++`, with Spaces round its text.
    #[tactic(auto, unfolding(crate::specs::Coordinates::relative_point))]
    fn relative_point(&self, from: Point, text: &[Tok], at: u32) -> Result<Point, Fault>
        ensures { result
            ≡ spec.relative_point evaluated self.now.font self.now.look.now self.now.matrix at from
            (trimmed text.now) }
    {
        let text = trimmed(text);
        if first_outside(text, Sought::Corner).is_some() {
            return Err(Fault::new(Code::Coordinate, at));
        }
        let Some(numbers) = pair(text, self.font, at)? else {
            return Err(Fault::new(Code::Coordinate, at));
        };
        let v = vector(numbers, self.look.x, self.look.y, at)?;
        let by = answer_at(apply_vector(self.matrix, v), at)?;
        translated(from, by, at)
    }

    /// What a text stands for.
    fn target(
        &self,
        alloc: Global,
        from: Option<Point>,
        text: &[Tok],
        at: u32,
    ) -> Result<TextTarget, Refusal>
        ensures { Gives (λ target. target) result
            (spec.target_of evaluated self.now.font self.now.look.now self.now.matrix at from
            text.now) }
    {
        match from {
            Some(from) => Ok(without_node(self.relative_point(from, text, at)?)),
            None => Ok(without_node(self.absolute_point(alloc, text, at)?)),
        }
    }
}

/// A point that is no node's.
fn without_node(point: Point) -> TextTarget
    ensures { result ≡ spec.without_node point }
{
    TextTarget { point, node: None }
}

/// What is wrong with a text without numbers: nothing stands there, or a name, which isn't built.
fn code_without_numbers(text: &[Tok]) -> Code
    ensures { result ≡ spec.code_without_numbers text.now }
{
    if text.is_empty() {
        Code::Coordinate
    } else {
        Code::Unbuilt
    }
}

/// A point that is moved by a vector.
fn translated(point: Point, by: Point, at: u32) -> Result<Point, Fault>
    ensures { result ≡ answer_at at (spec.translated point by) }
{
    match (add(point.x, by.x), add(point.y, by.y)) {
        (Ok(x), Ok(y)) => Ok(Point { x, y }),
        _ => Err(Fault::new(Code::TooLarge, at)),
    }
}

/// What a coordinate's text stands for, a point without a node. The text is expanded already and stands behind the `(`
/// at `at`; Spaces round it are passed over. The first form that fits holds; signs are sought outside braces, inside parentheses too.
///
/// - `p -| q` or `p |- q`, by the first of these signs, is the corner between the points of p and q, which are again of
///   a form of this list, with Spaces round them. All points are found from left to right, and then the corners from
///   right to left.
/// - `x,y`, `a:r` or `a:r and s`, as `pair` reads them, is the vector of the numbers, by the vectors of the look, as
///   the matrix takes it.
/// - No text is refused as `Coordinate`. Another text would be the name of a node, which isn't built: `Unbuilt`.
///
/// Where `from` is given, as behind `+` and `++`, the point is `from` moved by the vector of the numbers, which the
/// matrix takes without its shift. There each form but that of numbers is refused as `Coordinate`, before anything of
/// it is found (the PGF manual, section "Relative and Incremental Coordinates").
///
/// The faults of expressions stand where `eval` puts them, all others at `at`: `Coordinate` also for a second `,` of
/// numbers, `TooLarge` for a vector, its image or the point that is out of range, and the faults of `corner_between`.
/// Without a sign no memory is taken.
pub fn resolve(
    alloc: Global,
    list: &[Tok],
    look: &Look,
    matrix: Matrix,
    font: FontUnits,
    from: Option<Point>,
    at: u32,
) -> Result<TextTarget, Refusal>
    ensures gives { (ev : Evaluation) → IsEvaluation ev → Gives (λ target. target) result
        (spec.target_of ev font look.now matrix at from list.now) }
{
    let system = CoordinateSystem { look, font, matrix };
    system.target(alloc, from, list, at)
}
