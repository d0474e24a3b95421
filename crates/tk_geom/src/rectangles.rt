//! Rectangles.

ghost use Rattle.std.specs.Prelude.{◌≡◌, IfOk, OnErr};
ghost use Rattle.tk_geom.specs.Pieces.{Appends, Continues};
ghost use Rattle.tk_geom.specs.Rectangles as spec;

use crate::lists::{finished, push_all};
use std::alloc::{AllocError, Global};
use tk_affine::{AffFault, Matrix, corner};
use tk_item::{Point, Seg, Segs};

/// The pieces of a rectangle.
#[tactic(auto, unfolding(crate::specs::Rectangles::rectangle_pieces))]
fn rectangle_pieces(m: &Matrix, p: &Point, q: &Point) -> Result<[Seg; 5], AffFault>
    ensures { result ≡ spec.rectangle_pieces m.now p.now q.now }
{
    let first = corner(*m, *p, *q)?;
    let second = corner(*m, *q, *p)?;
    Ok([
        Seg::Move(*p),
        Seg::Line(first),
        Seg::Line(*q),
        Seg::Line(second),
        Seg::Close,
    ])
}

/// Puts the pieces of the rectangle with `p` and `q` at opposite corners, along the axes of the matrix, at the end of a
/// path: a Move to `p`, a Line to `corner(m, p, q)`, one to `q`, one to `corner(m, q, p)`, Close. The fault is Singular
/// where the matrix has no inverse, else TooLarge where a corner is out of range; then the path is as it was. After
/// want of memory it may have some of the pieces.
pub fn push_rectangle(
    segs: &mut Segs,
    m: Matrix,
    p: Point,
    q: Point,
) -> Result<Result<(), AffFault>, AllocError>
    ensures gives { IfOk result
        (λ done. Appends segs.old segs.new done (spec.rectangle_pieces m p q)) }
    ensures fault { IfOk result (λ done. OnErr done (segs.new ≡ segs.old)) }
    ensures kept { Continues segs.old segs.new }
{
    match rectangle_pieces(&m, &p, &q) {
        Ok(pieces) => {
            push_all(segs, &pieces)?;
            Ok(Ok(()))
        }
        Err(fault) => Ok(Err(fault)),
    }
}

/// The pieces of a rectangle, as `push_rectangle` puts them at the end of a path.
pub fn rectangle(
    alloc: Global,
    m: Matrix,
    p: Point,
    q: Point,
) -> Result<Result<Segs, AffFault>, AllocError>
    ensures gives { IfOk result (λ found. found ≡ spec.rectangle_pieces m p q) }
{
    let mut segs = Segs::new(alloc);
    let done = push_rectangle(&mut segs, m, p, q)?;
    Ok(finished(segs, done))
}
