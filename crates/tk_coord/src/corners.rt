//! Corners between points.

ghost use Rattle.std.specs.Prelude.{◌≡◌, Ok};
ghost use Rattle.tk_coord.specs.Coordinates as spec;
ghost use Rattle.tk_coord.specs.Starts.{corners_from};
ghost use Rattle.tk_affine.specs.Faults.{answer_at};

use tk_affine::{Matrix, answer_at, corner};
use tk_item::Point;
use tk_token::{Fault, Tok, begins_pair};

/// How a corner leads from one point to another.
#[derive(Clone, Copy, PartialEq, Eq)]
pub enum CornerSign {
    /// `-|`: along the first axis, then along the second one.
    HorizontalFirst,
    /// `|-`: the other way round.
    VerticalFirst,
}

/// The sign in front, which is `-|` or `|-`.
pub(crate) fn sign_in_front(list: &[Tok]) -> CornerSign
    ensures { result ≡ spec.sign_in_front list.now }
{
    if begins_pair(list, '-', '|') {
        CornerSign::HorizontalFirst
    } else {
        CornerSign::VerticalFirst
    }
}

/// The corner on the way from `p` to `q`: that of `p -| q` has the y of `p` and the x of `q`, that of `p |- q` the x of
/// `p` and the y of `q`, along the axes of the matrix (the PGF manual, section "Intersections of Perpendicular Lines").
/// At `at` it is Singular where the axes lie on one line, else TooLarge where a number of the corner is out of range.
pub fn corner_between(
    sign: CornerSign,
    matrix: Matrix,
    p: Point,
    q: Point,
    at: u32,
) -> Result<Point, Fault>
    ensures gives { result ≡ answer_at at (spec.corner_between sign matrix p q) }
{
    match sign {
        CornerSign::HorizontalFirst => answer_at(corner(matrix, p, q), at),
        CornerSign::VerticalFirst => answer_at(corner(matrix, q, p), at),
    }
}

/// A point with the sign behind it, where the point on the other side of the corner isn't found yet.
#[derive(Clone, Copy)]
pub(crate) struct CornerStart {
    pub point: Point,
    pub sign: CornerSign,
}

/// The corners from all these points, from the last one, which leads to `end`.
#[tactic(auto, using(crate::proofs::LastFirst::last_first, crate::proofs::LastFirst::fault_stands))]
pub(crate) fn corners_from(
    mut starts: Vec<CornerStart>,
    end: Point,
    matrix: &Matrix,
    at: u32,
) -> Result<Point, Fault>
    ensures { result ≡ corners_from matrix.now at starts.items (Ok end) }
{
    let mut to = end;
    while let Some(CornerStart { point, sign }) = starts.pop() {
        to = corner_between(sign, *matrix, point, to, at)?;
    }
    Ok(to)
}
