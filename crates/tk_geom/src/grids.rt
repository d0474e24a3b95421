//! Grids.

ghost use Rattle.std.specs.Prelude.{◌≡◌, ◌≤◌, ◌<ℤ◌, ◌+ℤ◌, ◌*ℤ◌, ◌&&◌, int_lt, pos, unsigned_abs};
ghost use Rattle.std.specs.Int.{int_min, int_max};
ghost use Rattle.tk_token.specs.Refusals.{Gives};
ghost use Rattle.tk_geom.specs.GridLines as spec;
ghost use Rattle.tk_geom.specs.Grids as grids;
ghost use Rattle.tk_geom.specs.GridViews.{line_at, lines_of};
ghost use Rattle.tk_geom.specs.Pieces.{Continues};

use crate::lists::push_all;
use crate::places::{Place, xy};
use std::alloc::Global;
use std::marker::Model;
use tk_affine::{AffFault, Matrix, answer_at, apply, inverse_apply};
use tk_expand::Units;
use tk_item::{Point, Seg, Segs};
use tk_num::Scaled;
use tk_token::{Code, Refusal};

/// Which way a line goes.
#[derive(Clone, Copy)]
enum LineDirection {
    Upright,
    Level,
}

/// The numbers from `low` to `high`.
#[derive(Clone, Copy)]
struct Span {
    low: Scaled,
    high: Scaled,
}

/// A line by its two ends, before the matrix moves them.
#[derive(Clone, Copy)]
struct GridLine {
    from: Place,
    to: Place,
}

impl Model for GridLine {
    ghost use Rattle.tk_geom.specs.GridLines.{GridLine};

    ghost Value = { GridLine };

    ghost view = { λ line. record { from = line.from; to = line.to } };

    ghost inverse = { λ line. record { from = line.from; to = line.to } };
}

/// The lines of a grid that go one way: so many, at the multiples of a step from the multiple `first` on.
#[derive(Clone, Copy)]
struct Parallels {
    direction: LineDirection,
    step: Scaled,
    first: i64,
    count: u64,
    ends: Span,
}

/// The greatest whole number whose product with the step is at most z.
fn floor_of(z: i64, step: i64) -> i64
    requires step { pos 0 <ℤ step }
    requires z { unsigned_abs z ≤ 1084479241 }
    ensures value { result ≡ spec.floor_of z step }
    ensures within { unsigned_abs result ≤ 1084479242 }
{
    z.div_euclid(step)
}

/// The least whole number whose product with the step is at least z.
fn ceiling_of(z: i64, step: i64) -> i64
    requires step { pos 0 <ℤ step }
    requires z { unsigned_abs z ≤ 1084479241 }
    ensures value { result ≡ spec.ceiling_of z step }
    ensures within { unsigned_abs result ≤ 1084479242 }
{
    -floor_of(-z, step)
}

/// How many whole numbers there are from `a` to `b`.
fn count_between(a: i64, b: i64) -> u64
    requires a { unsigned_abs a ≤ 1084479242 }
    requires b { unsigned_abs b ≤ 1084479242 }
    ensures value { result ≡ spec.count_between a b }
    ensures within { result ≤ 2168958485 }
{
    if a <= b { (b - a) as u64 + 1 } else { 0 }
}

/// The lesser and the greater of two numbers.
fn between(x: Scaled, y: Scaled) -> Span
    ensures { result ≡ record { low = int_min x y; high = int_max x y } }
{
    if y.sp() < x.sp() {
        Span { low: y, high: x }
    } else {
        Span { low: x, high: y }
    }
}

/// The lower left and the upper right corner of what lies between two points, as they are before the matrix moves them.
#[tactic(auto, unfolding(crate::specs::GridLines::corners))]
fn corners(m: &Matrix, p: &Point, q: &Point) -> Result<(Point, Point), AffFault>
    ensures { result ≡ spec.corners m.now p.now q.now }
{
    let a = inverse_apply(*m, *p)?;
    let b = inverse_apply(*m, *q)?;
    let (across, upward) = (between(a.x, b.x), between(a.y, b.y));
    Ok((xy(across.low, upward.low), xy(across.high, upward.high)))
}

/// The lines of a grid that go one way: at the multiples of a step about a span, each from end to end of the other.
fn lines_about(direction: LineDirection, step: Scaled, about: &Span, ends: &Span) -> Parallels
    requires { pos 0 <ℤ step }
    ensures value { lines_of result
        ≡ spec.lines_at (line_at direction ends.now.low ends.now.high) step
        (spec.multiples_about about.now.low about.now.high step) }
    ensures first { unsigned_abs result.first ≤ 1084479242 }
    ensures count { result.count ≤ 2168958485 }
{
    let edge = step.sp() / 100;
    let first = ceiling_of(about.low.sp() - edge, step.sp());
    let last = floor_of(about.high.sp() + edge, step.sp());
    Parallels {
        direction,
        step,
        first,
        count: count_between(first, last),
        ends: *ends,
    }
}

/// The multiple at which the i-th of the lines stands.
fn multiple_at(lines: &Parallels, i: u64) -> i64
    requires first { unsigned_abs lines.now.first ≤ 1084479242 }
    requires within { i ≤ 2168958485 }
    ensures { result ≡ (lines.now.first +ℤ pos i) *ℤ lines.now.step }
{
    (lines.first + i as i64) * lines.step.sp()
}

/// A line of a grid.
fn line_at(direction: LineDirection, ends: &Span, position: i64) -> GridLine
    ensures { result ≡ line_at direction ends.now.low ends.now.high position }
{
    let (low, high) = (ends.low.sp(), ends.high.sp());
    match direction {
        LineDirection::Upright => GridLine {
            from: Place::new(position, low),
            to: Place::new(position, high),
        },
        LineDirection::Level => GridLine {
            from: Place::new(low, position),
            to: Place::new(high, position),
        },
    }
}

/// The image of a point, which is to be in range itself.
fn checked_image(m: &Matrix, place: Place) -> Result<Point, AffFault>
    ensures { result ≡ spec.checked_image m.now place }
{
    apply(*m, place.point()?)
}

/// The pieces of a line.
#[tactic(auto, unfolding(crate::specs::GridLines::line_pieces))]
fn line_pieces(m: &Matrix, line: GridLine) -> Result<[Seg; 2], AffFault>
    ensures { result ≡ spec.line_pieces m.now line }
{
    let p = checked_image(m, line.from)?;
    let q = checked_image(m, line.to)?;
    Ok([Seg::Move(p), Seg::Line(q)])
}

/// Pays for a line at a place, and puts its pieces at the end of a path.
fn push_line(
    segs: &mut Segs,
    m: &Matrix,
    line: GridLine,
    units: &mut Units,
    at: u32,
) -> Result<(), Refusal>
    ensures gives { Gives (λ _. grids.grid_of segs.new units.new.used) result
        (grids.grid_appended segs.old
        (grids.line_drawn m.now units.old.budget at units.old.used line)) }
    ensures budget { units.new.budget ≡ units.old.budget }
    ensures kept { Continues segs.old segs.new }
{
    units.pay(1, at)?;
    let pieces = answer_at(line_pieces(m, line), at)?;
    push_all(segs, &pieces)?;
    Ok(())
}

/// Pays for lines one by one, and puts the pieces of each at the end of a path.
fn push_lines(
    segs: &mut Segs,
    m: &Matrix,
    lines: &Parallels,
    units: &mut Units,
    at: u32,
) -> Result<(), Refusal>
    requires first { unsigned_abs lines.now.first ≤ 1084479242 }
    requires count { lines.now.count ≤ 2168958485 }
    ensures gives { Gives (λ _. grids.grid_of segs.new units.new.used) result
        (grids.grid_appended segs.old
        (grids.lines_drawn m.now units.old.budget at units.old.used (lines_of lines.now))) }
    ensures budget { units.new.budget ≡ units.old.budget }
    ensures kept { Continues segs.old segs.new }
{
    for i in 0..lines.count {
        let line = line_at(lines.direction, &lines.ends, multiple_at(lines, i));
        push_line(segs, m, line, units, at)?;
    }
    Ok(())
}

/// Pays for the lines of the grid between two corners, and puts their pieces at the end of a path.
fn push_between(
    segs: &mut Segs,
    m: &Matrix,
    low: &Point,
    high: &Point,
    sx: Scaled,
    sy: Scaled,
    units: &mut Units,
    at: u32,
) -> Result<(), Refusal>
    requires sx { pos 0 <ℤ sx }
    requires sy { pos 0 <ℤ sy }
    ensures gives { Gives (λ _. grids.grid_of segs.new units.new.used) result
        (grids.grid_appended segs.old
        (grids.lines_drawn m.now units.old.budget at units.old.used
        (spec.grid_lines low.now high.now sx sy))) }
    ensures budget { units.new.budget ≡ units.old.budget }
    ensures kept { Continues segs.old segs.new }
{
    let across = Span {
        low: low.x,
        high: high.x,
    };
    let upward = Span {
        low: low.y,
        high: high.y,
    };
    let uprights = lines_about(LineDirection::Upright, sx, &across, &upward);
    let levels = lines_about(LineDirection::Level, sy, &upward, &across);
    push_lines(segs, m, &uprights, units, at)?;
    push_lines(segs, m, &levels, units, at)?;
    Ok(())
}

/// Whether both steps are positive.
fn are_positive(sx: Scaled, sy: Scaled) -> bool
    ensures { result ≡ (int_lt (pos 0) sx && int_lt (pos 0) sy) }
{
    0 < sx.sp() && 0 < sy.sp()
}

/// Puts the pieces of the grid with `p` and `q` at opposite corners, along the axes of the matrix, at the end of a
/// path. With the two corners as the matrix has them, there is a line from below to above at each multiple of `sx`
/// between them, from left to right, then one from left to right at each multiple of `sy`, upward; a multiple up to a
/// hundredth of a step beyond a corner counts too. Each line is a Move and a Line, and is paid for with one unit before
/// it is drawn.
///
/// All faults stand at `at`: Domain where a step isn't positive; Singular where the matrix has no inverse, or TooLarge
/// where a corner is out of range without it; then line by line Budget where its unit would pass the budget, and
/// TooLarge where an end is out of range, with the matrix or without. After a refusal the path may have some of the
/// pieces, and units may have been paid.
///
/// With steps of 1cm the grid from (0,0) to (28.45274,28.45274) has the lines from (0,0) to (0,28.45274), from
/// (28.45274,0) to (28.45274,28.45274), from (0,0) to (28.45274,0) and from (0,28.45274) to (28.45274,28.45274).
pub fn push_grid(
    segs: &mut Segs,
    m: Matrix,
    p: Point,
    q: Point,
    sx: Scaled,
    sy: Scaled,
    units: &mut Units,
    at: u32,
) -> Result<(), Refusal>
    ensures gives { Gives (λ _. grids.grid_of segs.new units.new.used) result
        (grids.grid_appended segs.old
        (grids.grid_pieces m p q sx sy units.old.budget at units.old.used)) }
    ensures budget { units.new.budget ≡ units.old.budget }
    ensures kept { Continues segs.old segs.new }
{
    if !are_positive(sx, sy) {
        return Err(Refusal::new(Code::Domain, at));
    }
    let (low, high) = answer_at(corners(&m, &p, &q), at)?;
    push_between(segs, &m, &low, &high, sx, sy, units, at)?;
    Ok(())
}

/// The pieces of a grid, as `push_grid` puts them at the end of a path.
pub fn grid(
    alloc: Global,
    m: Matrix,
    p: Point,
    q: Point,
    sx: Scaled,
    sy: Scaled,
    units: &mut Units,
    at: u32,
) -> Result<Segs, Refusal>
    ensures gives { Gives (λ pieces. grids.grid_of pieces units.new.used) result
        (grids.grid_pieces m p q sx sy units.old.budget at units.old.used) }
    ensures budget { units.new.budget ≡ units.old.budget }
{
    let mut segs = Segs::new(alloc);
    push_grid(&mut segs, m, p, q, sx, sy, units, at)?;
    Ok(segs)
}
