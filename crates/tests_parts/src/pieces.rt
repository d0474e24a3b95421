//! Pieces alone, turns into a direction, and the last part of a path.

ghost use Rattle.std.specs.Prelude.{◌≤◌, ◌^◌, unsigned_abs};

use std::alloc::Global;
use std::test::Fail;
use tk_affine::{AffFault, Matrix, along, identity};
use tk_expand::Units;
use tk_geom::{arc, circle, grid, rectangle};
use tk_item::{Point, Seg, Segs};
use tk_keytext::last_part;
use tk_num::Scaled;

/// The point of two numbers of scaled points.
pub(crate) fn point(x: i64, y: i64) -> Result<Point, Fail> {
    Ok(Point {
        x: Scaled::new(x).ok_or("out of range")?,
        y: Scaled::new(y).ok_or("out of range")?,
    })
}

/// Where the pieces lead, one after another; a Close leads nowhere.
fn has_ends(pieces: &[Seg], ends: &[(i64, i64)]) -> bool {
    let mut rest = ends;
    for piece in pieces {
        let end = match piece {
            Seg::Move(end) | Seg::Line(end) | Seg::Curve(_, _, end) => end,
            Seg::Close => continue,
        };
        match rest.split_first() {
            Some((first, others)) if *first == (end.x.sp(), end.y.sp()) => rest = others,
            _ => return false,
        }
    }
    rest.is_empty()
}

/// Whether pieces are there and lead to those ends.
fn leads_to(found: Result<Segs, AffFault>, ends: &[(i64, i64)]) -> bool {
    match found {
        Ok(segs) => has_ends(segs.as_slice(), ends),
        Err(_) => false,
    }
}

/// Whether a circle, a quarter of one and a box have their pieces; the centre of the quarter is at (-9,2).
fn outlines_are_drawn(alloc: Global) -> Result<bool, Fail> {
    let (ten, start, turn) = (
        Scaled::within(10),
        Scaled::within(0),
        Scaled::within(90 * 65_536),
    );
    let round = circle(alloc, identity(), point(1, 2)?, ten, ten)?;
    let is_round = leads_to(round, &[(11, 2), (1, 12), (-9, 2), (1, -8), (11, 2)]);
    let quarter = arc(alloc, identity(), point(1, 2)?, start, turn, ten, ten)?;
    let is_quarter = leads_to(quarter, &[(-9, 12)]);
    let sides = rectangle(alloc, identity(), point(1, 2)?, point(5, 9)?)?;
    let is_box = leads_to(sides, &[(1, 2), (5, 2), (5, 9), (1, 9)]);
    Ok(is_round && is_quarter && is_box)
}

/// Whether a grid has its lines: one at x = 4, then one at y = 4 and one at y = 8.
fn a_grid_is_drawn(alloc: Global) -> Result<bool, Fail> {
    let mut units = Units { used: 0, budget: 3 };
    let (p, q, step) = (point(1, 2)?, point(5, 9)?, Scaled::within(4));
    let found = grid(alloc, identity(), p, q, step, step, &mut units, 7);
    let ends = [(4, 2), (4, 9), (1, 4), (5, 4), (1, 8), (5, 8)];
    match found {
        Ok(segs) => Ok(units.used == 3 && has_ends(segs.as_slice(), &ends)),
        Err(_) => Ok(false),
    }
}

#[test]
fn pieces_are_drawn_alone(rt: HostRuntime) -> Result<(), Fail> {
    assert!(rt; outlines_are_drawn(rt.alloc())?);
    assert!(rt; a_grid_is_drawn(rt.alloc())?);
    Ok(())
}

/// The two numbers of a direction, and those of the first column of the turn into it.
const TURNS: [(i64, i64, (i64, i64)); 6] = [
    // The length of (3,4) is 5: 39321.6 and 52428.8. That of (1,1) is cut to 1.
    (3, 4, (39_321, 52_428)),
    (-3, 4, (-39_321, 52_428)),
    (0, -5, (0, -65_536)),
    (1, 1, (65_536, 65_536)),
    // 65536 over the root of 2 is 46340.95.
    (1_099_511_627_776, -1_099_511_627_776, (46_340, -46_340)),
    (0, 0, (65_536, 0)),
];

/// The first column of a turn into a direction.
fn turned(dx: i64, dy: i64) -> (i64, i64)
    requires dx { unsigned_abs dx ≤ 2 ^ 40 }
    requires dy { unsigned_abs dy ≤ 2 ^ 40 }
{
    let Matrix { a, b, .. } = along(dx, dy);
    (a.sp(), b.sp())
}

#[test]
fn directions_and_parts(rt: HostRuntime) {
    for (dx, dy, column) in &TURNS {
        assert!(rt; dx.unsigned_abs() <= 1 << 40 && dy.unsigned_abs() <= 1 << 40);
        assert!(rt; turned(*dx, *dy) == *column, "{dx} and {dy}");
    }
    assert!(rt; last_part("/a/.code 2 args") == 3 && last_part("a") == 0);
}
