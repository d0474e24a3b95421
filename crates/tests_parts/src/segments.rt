//! Places on what a path drew last.

ghost use Rattle.std.specs.Prelude.{◌≤◌, unsigned_abs};

use crate::pieces::point;
use std::test::Fail;
use tk_affine::AffFault;
use tk_geom::{Last, on_segment};
use tk_num::Scaled;

/// The greatest number.
const MOST: i64 = 1_073_741_823;

/// What was drawn last.
#[derive(Clone, Copy)]
enum Drawn {
    /// Nothing: only the point (3,-4) is there.
    Nothing,
    /// A line from (1,2) to (6,-9).
    Line,
    /// A line along all numbers, at height 0.
    LongLine,
    /// A corner from (0,0) over (100,0) to (100,-41).
    Corner,
    /// A curve from (0,0) by (0,64) and (64,64) to (64,-1).
    Curve,
    /// A curve there and back along all numbers.
    WideCurve,
}

/// The two coordinates of a place and the two numbers of its direction, or the fault.
type Found = Result<[i64; 4], AffFault>;

/// What was drawn, a place on it in 65536ths, and what is there.
const PLACES: [(Drawn, i64, Found); 30] = [
    (Drawn::Nothing, 0, Ok([3, -4, 0, 0])),
    (Drawn::Nothing, -524_288, Ok([3, -4, 0, 0])),
    (Drawn::Line, 0, Ok([1, 2, 5, -11])),
    // 5/4 and -11/4 are cut to 1 and -2.
    (Drawn::Line, 16_384, Ok([2, 0, 5, -11])),
    // 5/2 and -11/2 are cut to 2 and -5.
    (Drawn::Line, 32_768, Ok([3, -3, 5, -11])),
    (Drawn::Line, 65_536, Ok([6, -9, 5, -11])),
    // -5/2 and 11/2 are cut to -2 and 5.
    (Drawn::Line, -32_768, Ok([-1, 7, 5, -11])),
    // 15/2 and -33/2 are cut to 7 and -16.
    (Drawn::Line, 98_304, Ok([8, -14, 5, -11])),
    (Drawn::Line, 524_288, Ok([41, -86, 5, -11])),
    (Drawn::LongLine, 32_768, Ok([0, 0, 2_147_483_646, 0])),
    // 2147483646*65537/65536 is 2147516413.9.
    (Drawn::LongLine, 65_537, Err(AffFault::TooLarge)),
    // 2147483646/65536 is 32767.9.
    (Drawn::LongLine, 1, Ok([32_767 - MOST, 0, 2_147_483_646, 0])),
    (Drawn::LongLine, -1, Err(AffFault::TooLarge)),
    (Drawn::Corner, 0, Ok([0, 0, 100, 0])),
    (Drawn::Corner, 16_384, Ok([50, 0, 100, 0])),
    // 100*65534/65536 is 99.997.
    (Drawn::Corner, 32_767, Ok([99, 0, 100, 0])),
    (Drawn::Corner, 32_768, Ok([100, 0, 0, -41])),
    // -41/2 is cut to -20.
    (Drawn::Corner, 49_152, Ok([100, -20, 0, -41])),
    (Drawn::Corner, 65_536, Ok([100, -41, 0, -41])),
    // A fourth before the beginning is a half of the first leg, a fourth past the end a half of the second.
    (Drawn::Corner, -16_384, Ok([-50, 0, 100, 0])),
    (Drawn::Corner, 81_920, Ok([100, -61, 0, -41])),
    (Drawn::Curve, 0, Ok([0, 0, 0, 64])),
    // At a fourth the weights are 27, 27, 9 and 1 64ths: 9*64 + 64 is 640, and 27*64 + 9*64 - 1 is 2303. The direction
    // has 9, 6 and 1 16ths: 6*64 is 384, and 9*64 - 65 is 511.
    (Drawn::Curve, 16_384, Ok([10, 35, 24, 31])),
    // At a half they are 1, 3, 3 and 1 8ths: 4*64 is 256, and 6*64 - 1 is 383; then 1, 2 and 1 4ths: 2*64, and 64 - 65.
    (Drawn::Curve, 32_768, Ok([32, 47, 32, 0])),
    (Drawn::Curve, 65_536, Ok([64, -1, 0, -65])),
    // At -1 they are 8, -12, 6 and -1: 6*64 - 64 is 320, and -12*64 + 6*64 + 1 is -383; then 4, -4 and 1: -4*64, and
    // 4*64 - 65.
    (Drawn::Curve, -65_536, Ok([320, -383, -256, 191])),
    // At 2 they are -1, 6, -12 and 8: -12*64 + 8*64 is -256, and 6*64 - 12*64 - 8 is -392; then 1, -4 and 4: -4*64, and
    // 64 - 4*65.
    (Drawn::Curve, 131_072, Ok([-256, -392, -256, -196])),
    (Drawn::WideCurve, 32_768, Ok([0, 0, 0, 0])),
    (
        Drawn::WideCurve,
        65_536,
        Ok([MOST, -MOST, 2_147_483_646, -2_147_483_646]),
    ),
    (Drawn::WideCurve, 65_537, Err(AffFault::TooLarge)),
];

/// A curve by its four points.
fn curve(points: [(i64, i64); 4]) -> Result<Last, Fail> {
    let [p, q, r, s] = points;
    Ok(Last::Curve(
        point(p.0, p.1)?,
        point(q.0, q.1)?,
        point(r.0, r.1)?,
        point(s.0, s.1)?,
    ))
}

fn last(drawn: Drawn) -> Result<Last, Fail> {
    Ok(match drawn {
        Drawn::Nothing => Last::Nowhere(point(3, -4)?),
        Drawn::Line => Last::Line(point(1, 2)?, point(6, -9)?),
        Drawn::LongLine => Last::Line(point(-MOST, 0)?, point(MOST, 0)?),
        Drawn::Corner => Last::Corner(point(0, 0)?, point(100, 0)?, point(100, -41)?),
        Drawn::Curve => return curve([(0, 0), (0, 64), (64, 64), (64, -1)]),
        Drawn::WideCurve => {
            let (start, end) = ((-MOST, MOST), (MOST, -MOST));
            return curve([start, end, start, end]);
        }
    })
}

fn found(last: &Last, t: i64) -> Found
    requires { unsigned_abs t ≤ 524288 }
{
    let (place, dx, dy) = on_segment(last, Scaled::within(t))?;
    Ok([place.x.sp(), place.y.sp(), dx, dy])
}

#[test]
fn places_on_what_was_drawn_last(rt: HostRuntime) -> Result<(), Fail> {
    for (drawn, t, expected) in &PLACES {
        let last = last(*drawn)?;
        assert!(rt; t.unsigned_abs() <= 524_288);
        assert!(rt; found(&last, *t) == *expected, "at {t}");
    }
    Ok(())
}
