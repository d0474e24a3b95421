//! Arcs of circles and ellipses.

ghost use Rattle.std.specs.Prelude.{◌≡◌, ◌≤◌, ◌*◌, ◌-ℤ◌, ◌*ℤ◌, int_div, pos, unsigned_abs, IfOk};
ghost use Rattle.tk_num.specs.Number.{one};
ghost use Rattle.tk_num.specs.Angle.{degrees};
ghost use Rattle.tk_geom.specs.Arcs as spec;
ghost use Rattle.tk_geom.specs.Pieces.{difference_of, Appends, Continues};

use crate::lists::finished;
use crate::numbers::portion;
use crate::places::{Place, xy};
use std::alloc::{AllocError, Global};
use tk_affine::{AffFault, Matrix, apply_vector, difference};
use tk_item::{Point, Seg, Segs};
use tk_num::{ONE, Scaled, cos, sin, tan};

/// A quarter of a turn, in 65536ths of a degree.
const RIGHT_ANGLE: u64 = 90 * ONE as u64;

/// How many pieces the arc from `a` to `b` has: one for each 90 degrees that are begun.
fn piece_count(a: Scaled, b: Scaled) -> u32
    ensures value { result ≡ spec.piece_count a b }
    ensures most { result ≤ 365 }
    ensures wide { unsigned_abs (b -ℤ a) ≤ degrees 90 * result }
{
    let turn = difference(b, a).unsigned_abs();
    ((turn + (RIGHT_ANGLE - 1)) / RIGHT_ANGLE) as u32
}

/// So many of n parts of a turn, cut toward zero.
fn parts_of(turn: i64, i: u32, n: u32) -> i64
    requires turn { unsigned_abs turn ≤ 2147483646 }
    requires some { 1 ≤ n }
    requires few { n ≤ 365 }
    requires within { i ≤ n }
    ensures { result ≡ int_div (turn *ℤ pos i) (pos n) }
{
    turn * i64::from(i) / i64::from(n)
}

/// The angle at which the piece `i` of `n` begins.
fn angle_at(a: Scaled, b: Scaled, n: u32, i: u32) -> Scaled
    requires some { 1 ≤ n }
    requires few { n ≤ 365 }
    requires within { i ≤ n }
    ensures { result ≡ spec.angle_at a b n i }
{
    let (from, to) = (a.sp(), b.sp());
    Scaled::within(from + parts_of(to - from, i, n))
}

/// The tangent of an angle of at most 22.5 degrees.
fn small_tangent(angle: Scaled) -> Scaled
    requires { unsigned_abs angle ≤ 1474560 }
    ensures value { result ≡ spec.small_tangent angle }
    ensures within { unsigned_abs result ≤ 32768 }
{
    match tan(angle) {
        Ok(tangent) => tangent,
        Err(_) => unreachable!(),
    }
}

/// A quarter of each of n parts of a turn, cut toward zero.
fn quarter_of(turn: i64, n: u32) -> Scaled
    requires some { 1 ≤ n }
    requires few { n ≤ 365 }
    requires wide { unsigned_abs turn ≤ degrees 90 * n }
    ensures value { result ≡ int_div turn (pos (4 * n)) }
    ensures within { unsigned_abs result ≤ 1474560 }
{
    Scaled::within(turn / (4 * i64::from(n)))
}

/// How far the control points of each of n pieces lie from its ends, in 65536ths of a radius.
fn control_ratio(a: Scaled, b: Scaled, n: u32) -> Scaled
    requires some { 1 ≤ n }
    requires few { n ≤ 365 }
    requires wide { unsigned_abs (b -ℤ a) ≤ degrees 90 * n }
    ensures value { result ≡ spec.control_ratio a b n }
    ensures within { unsigned_abs result ≤ one }
{
    let tangent = small_tangent(quarter_of(difference(b, a), n));
    Scaled::within(4 * tangent.sp() / 3)
}

/// The centre from which a vector leads to `c`.
fn centre_of(c: &Point, first: &Point) -> Place
    ensures value { result ≡ difference_of c.now first.now }
    ensures x { unsigned_abs result.x ≤ 2147483646 }
    ensures y { unsigned_abs result.y ≤ 2147483646 }
{
    Place::of(c).minus(first)
}

/// An ellipse, and the matrix that moves it.
#[derive(Clone, Copy)]
struct Ellipse {
    m: Matrix,
    rx: Scaled,
    ry: Scaled,
}

impl Ellipse {
    ghost use Rattle.std.specs.Prelude.{◌≡◌, ◌≤◌, ◌*◌, ◌-ℤ◌, unsigned_abs, IfOk};
    ghost use Rattle.tk_num.specs.Angle.{degrees};
    ghost use Rattle.tk_geom.specs.Arcs as spec;
    ghost use Rattle.tk_geom.specs.Pieces.{Appends, Continues};

    /// The image of the vector from the centre to the point at an angle.
    #[tactic(auto, unfolding(crate::specs::Arcs::spoke))]
    fn spoke(&self, angle: Scaled) -> Result<Point, AffFault>
        ensures { result ≡ spec.spoke self.now.m self.now.rx self.now.ry angle }
    {
        apply_vector(
            self.m,
            xy(portion(self.rx, cos(angle)), portion(self.ry, sin(angle))),
        )
    }

    /// The image of the vector from that point to the control point that follows.
    #[tactic(auto, unfolding(crate::specs::Arcs::control_vector))]
    fn control_vector(&self, k: Scaled, angle: Scaled) -> Result<Point, AffFault>
        requires { unsigned_abs k ≤ one }
        ensures { result ≡ spec.control_vector self.now.m self.now.rx self.now.ry k angle }
    {
        let x = portion(portion(self.rx, sin(angle)), k);
        let y = portion(portion(self.ry, cos(angle)), k);
        apply_vector(self.m, xy(x.negated(), y))
    }

    /// The piece round a centre from the angle `a` to the angle `b`.
    #[tactic(auto, unfolding(crate::specs::Arcs::arc_piece))]
    fn piece(&self, centre: &Place, k: Scaled, a: Scaled, b: Scaled) -> Result<Seg, AffFault>
        requires k { unsigned_abs k ≤ one }
        requires x { unsigned_abs centre.now.x ≤ 2147483646 }
        requires y { unsigned_abs centre.now.y ≤ 2147483646 }
        ensures { result ≡ spec.arc_piece self.now.m centre.now self.now.rx self.now.ry k a b }
    {
        let from = self.spoke(a)?;
        let out = self.control_vector(k, a)?;
        let to = self.spoke(b)?;
        let back = self.control_vector(k, b)?;
        let p = centre.plus(&from).plus(&out).point()?;
        let q = centre.plus(&to).minus(&back).point()?;
        let r = centre.plus(&to).point()?;
        Ok(Seg::Curve(p, q, r))
    }

    /// Puts the `count` pieces round a centre from the angle `a` to the angle `b` at the end of a path.
    fn push_pieces(
        &self,
        segs: &mut Segs,
        centre: &Place,
        a: Scaled,
        b: Scaled,
        count: u32,
    ) -> Result<Result<(), AffFault>, AllocError>
        requires some { 1 ≤ count }
        requires few { count ≤ 365 }
        requires wide { unsigned_abs (b -ℤ a) ≤ degrees 90 * count }
        requires x { unsigned_abs centre.now.x ≤ 2147483646 }
        requires y { unsigned_abs centre.now.y ≤ 2147483646 }
        ensures gives { IfOk result (λ done. Appends segs.old segs.new done
            (spec.arc_round self.now.m centre.now a b self.now.rx self.now.ry count)) }
        ensures kept { Continues segs.old segs.new }
    {
        let k = control_ratio(a, b, count);
        for i in 0..count {
            let (from, to) = (angle_at(a, b, count, i), angle_at(a, b, count, i + 1));
            match self.piece(centre, k, from, to) {
                Ok(piece) => segs.push(piece)?,
                Err(fault) => return Ok(Err(fault)),
            }
        }
        Ok(Ok(()))
    }
}

/// Puts the pieces of the arc that begins at `c`, at the angle `a` of an ellipse with the radii `rx` and `ry` along the
/// axes of the matrix, and goes to its angle `b`, at the end of a path. Angles are in 65536ths of a degree. There are
/// as few curves as make at most 90 degrees each, and none where the angles are equal. The fault is TooLarge where the
/// image of a vector or a point is out of range. After a fault or want of memory the path may have some of the pieces.
///
/// An arc from 0 to 90 degrees with radii of 1cm that begins at (28.45274,0) is one curve, which ends at (0,28.45274).
pub fn push_arc(
    segs: &mut Segs,
    m: Matrix,
    c: Point,
    a: Scaled,
    b: Scaled,
    rx: Scaled,
    ry: Scaled,
) -> Result<Result<(), AffFault>, AllocError>
    ensures gives { IfOk result
        (λ done. Appends segs.old segs.new done (spec.arc_pieces m c a b rx ry)) }
    ensures kept { Continues segs.old segs.new }
{
    let count = piece_count(a, b);
    if count == 0 {
        return Ok(Ok(()));
    }
    let ellipse = Ellipse { m, rx, ry };
    match ellipse.spoke(a) {
        Ok(first) => ellipse.push_pieces(segs, &centre_of(&c, &first), a, b, count),
        Err(fault) => Ok(Err(fault)),
    }
}

/// The pieces of an arc, as `push_arc` puts them at the end of a path.
pub fn arc(
    alloc: Global,
    m: Matrix,
    c: Point,
    a: Scaled,
    b: Scaled,
    rx: Scaled,
    ry: Scaled,
) -> Result<Result<Segs, AffFault>, AllocError>
    ensures gives { IfOk result (λ found. found ≡ spec.arc_pieces m c a b rx ry) }
{
    let mut segs = Segs::new(alloc);
    let done = push_arc(&mut segs, m, c, a, b, rx, ry)?;
    Ok(finished(segs, done))
}
