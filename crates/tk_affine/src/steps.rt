//! Matrices that are made of steps.

ghost use Rattle.std.specs.Prelude.{◌≡◌, pos, neg_ℤ};
ghost use Rattle.tk_num.specs.Number.{one};
ghost use Rattle.tk_affine.specs.Steps.{unmoved, shifted, linear, turned, step_matrix, composed, with_step};

use crate::images::{apply, apply_vector};
use crate::{AffFault, Matrix, Step};
use tk_item::Point;
use tk_num::{ONE, Scaled, cos, sin};

/// One whole, in 65536ths.
fn one() -> Scaled
    ensures { result ≡ pos one }
{
    Scaled::within(ONE)
}

/// A shift alone.
fn shifted(tx: Scaled, ty: Scaled) -> Matrix
    ensures { result ≡ shifted tx ty }
{
    Matrix {
        a: one(),
        b: Scaled::within(0),
        c: Scaled::within(0),
        d: one(),
        tx,
        ty,
    }
}

/// A linear part alone.
fn linear(a: Scaled, b: Scaled, c: Scaled, d: Scaled) -> Matrix
    ensures { result ≡ linear a b c d }
{
    Matrix {
        a,
        b,
        c,
        d,
        tx: Scaled::within(0),
        ty: Scaled::within(0),
    }
}

/// A turn that takes (1,0) to a vector of the length 1.
pub(crate) fn turned(x: Scaled, y: Scaled) -> Matrix
    ensures { result ≡ turned x y }
{
    linear(x, y, y.negated(), x)
}

/// The matrix under which each point is its own image: (65536, 0, 0, 65536, 0, 0).
pub fn identity() -> Matrix
    ensures gives { result ≡ unmoved }
{
    shifted(Scaled::within(0), Scaled::within(0))
}

/// What one step does.
fn matrix_of_step(step: Step) -> Matrix
    ensures { result ≡ step_matrix step }
{
    match step {
        Step::Shift(x, y) => shifted(x, y),
        Step::Rotate(angle) => turned(cos(angle), sin(angle)),
        Step::Scale(x, y) => linear(x, Scaled::within(0), Scaled::within(0), y),
        Step::Slant(x, y) => linear(one(), y, x, one()),
        Step::Cm(m) => m,
    }
}

/// The matrix of what `n` does and then `m`.
#[tactic(auto, unfolding(crate::specs::Steps::composed))]
fn composed(m: &Matrix, n: &Matrix) -> Result<Matrix, AffFault>
    ensures { result ≡ composed m.now n.now }
{
    let right = apply_vector(*m, Point { x: n.a, y: n.b })?;
    let up = apply_vector(*m, Point { x: n.c, y: n.d })?;
    let origin = apply(*m, Point { x: n.tx, y: n.ty })?;
    Ok(Matrix {
        a: right.x,
        b: right.y,
        c: up.x,
        d: up.y,
        tx: origin.x,
        ty: origin.y,
    })
}

/// The matrix of what `step` does and then `m`: the columns of the step's linear part are taken through `m` by
/// `apply_vector`, its shift by `apply`. TooLarge where a number is out of range.
///
/// A scaling by 2, (131072, 0, 0, 131072, 0, 0), with a shift by (3,5) is (131072, 0, 0, 131072, 6, 10).
pub fn concat(m: Matrix, step: Step) -> Result<Matrix, AffFault>
    ensures gives { result ≡ with_step m step }
{
    composed(&m, &matrix_of_step(step))
}
