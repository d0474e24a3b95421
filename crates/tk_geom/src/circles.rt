//! Circles and ellipses.

ghost use Rattle.std.specs.Prelude.{◌≡◌, IfOk, OnErr};
ghost use Rattle.tk_geom.specs.Circles as spec;
ghost use Rattle.tk_geom.specs.Pieces.{Appends, Continues};

use crate::lists::{finished, push_all};
use crate::numbers::portion;
use crate::places::{Place, xy};
use std::alloc::{AllocError, Global};
use tk_affine::{AffFault, Matrix, apply_vector};
use tk_item::{Point, Seg, Segs};
use tk_num::Scaled;

/// How far the control points of a quarter lie from its ends: 36195/65536 of the radius, for 4*(sqrt(2) - 1)/3.
fn control_length(radius: Scaled) -> Scaled
    ensures { result ≡ spec.control_length radius }
{
    portion(radius, Scaled::within(36_195))
}

/// Where the image of a vector leads from a point.
#[tactic(auto, unfolding(crate::specs::Circles::vector_end))]
fn vector_end(m: &Matrix, c: &Point, v: Point) -> Result<Point, AffFault>
    ensures { result ≡ spec.vector_end m.now c.now v }
{
    Place::of(c).plus(&apply_vector(*m, v)?).point()
}

/// A curve, by the vectors from `c` to its control points and its end.
#[tactic(auto, unfolding(crate::specs::Circles::curve_round))]
fn curve_round(
    m: &Matrix,
    c: &Point,
    first: Point,
    second: Point,
    end: Point,
) -> Result<Seg, AffFault>
    ensures { result ≡ spec.curve_round m.now c.now first second end }
{
    let p = vector_end(m, c, first)?;
    let q = vector_end(m, c, second)?;
    let r = vector_end(m, c, end)?;
    Ok(Seg::Curve(p, q, r))
}

/// The pieces of an ellipse.
#[tactic(auto, unfolding(crate::specs::Circles::circle_pieces))]
fn circle_pieces(m: &Matrix, c: &Point, rx: Scaled, ry: Scaled) -> Result<[Seg; 6], AffFault>
    ensures { result ≡ spec.circle_pieces m.now c.now rx ry }
{
    let nothing = Scaled::within(0);
    let (kx, ky) = (control_length(rx), control_length(ry));
    let (back_x, back_y) = (rx.negated(), ry.negated());
    let (back_kx, back_ky) = (kx.negated(), ky.negated());
    let right = vector_end(m, c, xy(rx, nothing))?;
    let first = curve_round(m, c, xy(rx, ky), xy(kx, ry), xy(nothing, ry))?;
    let second = curve_round(m, c, xy(back_kx, ry), xy(back_x, ky), xy(back_x, nothing))?;
    let third = curve_round(
        m,
        c,
        xy(back_x, back_ky),
        xy(back_kx, back_y),
        xy(nothing, back_y),
    )?;
    let fourth = curve_round(m, c, xy(kx, back_y), xy(rx, back_ky), xy(rx, nothing))?;
    Ok([Seg::Move(right), first, second, third, fourth, Seg::Close])
}

/// Puts the pieces of the ellipse round `c` with the radii `rx` and `ry`, along the axes of the matrix, at the end of a
/// path: a Move to its right end, a Curve each to its upper, left, lower and right end, and Close. Each point is where
/// the image of a vector leads from `c`: for the control points of the first Curve the vectors are (rx,ky) and (kx,ry),
/// where kx and ky are 36195/65536 of the radii, cut toward zero, and for the others they are the mirror images of
/// these. The fault is TooLarge where the image of a vector or a point is out of range; then the path is as it was.
/// After want of memory it may have some of the pieces.
///
/// The four points of a circle of 1cm round the origin are (28.45274,0), (0,28.45274), (-28.45274,0) and (0,-28.45274).
pub fn push_circle(
    segs: &mut Segs,
    m: Matrix,
    c: Point,
    rx: Scaled,
    ry: Scaled,
) -> Result<Result<(), AffFault>, AllocError>
    ensures gives { IfOk result
        (λ done. Appends segs.old segs.new done (spec.circle_pieces m c rx ry)) }
    ensures fault { IfOk result (λ done. OnErr done (segs.new ≡ segs.old)) }
    ensures kept { Continues segs.old segs.new }
{
    match circle_pieces(&m, &c, rx, ry) {
        Ok(pieces) => {
            push_all(segs, &pieces)?;
            Ok(Ok(()))
        }
        Err(fault) => Ok(Err(fault)),
    }
}

/// The pieces of an ellipse, as `push_circle` puts them at the end of a path.
pub fn circle(
    alloc: Global,
    m: Matrix,
    c: Point,
    rx: Scaled,
    ry: Scaled,
) -> Result<Result<Segs, AffFault>, AllocError>
    ensures gives { IfOk result (λ found. found ≡ spec.circle_pieces m c rx ry) }
{
    let mut segs = Segs::new(alloc);
    let done = push_circle(&mut segs, m, c, rx, ry)?;
    Ok(finished(segs, done))
}
