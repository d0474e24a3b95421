//! Sums of points and vectors.

ghost use Rattle.std.specs.Prelude.{◌≡◌, ◌≤◌, ◌+◌, unsigned_abs};
ghost use Rattle.tk_geom.specs.Pieces.{sum_of, difference_of, checked};

use std::marker::Model;
use tk_affine::{AffFault, point};
use tk_item::Point;
use tk_num::Scaled;

/// A sum of points and vectors, in scaled points. It may lie past the range of a point.
#[derive(Clone, Copy)]
pub(crate) struct Place {
    x: i64,
    y: i64,
}

impl Model for Place {
    ghost use Rattle.tk_item.specs.declared.Point.{Point};

    ghost Value = { Point };

    ghost view = { λ place. record { x = place.x; y = place.y } };

    ghost inverse = { λ p. record { x = p.x; y = p.y } };
}

impl Place {
    /// The sum with those coordinates.
    pub(crate) fn new(x: i64, y: i64) -> Place
        ensures { result ≡ record { x = x; y = y } }
    {
        Place { x, y }
    }

    /// That point.
    pub(crate) fn of(p: &Point) -> Place
        ensures value { result ≡ p.now }
        ensures x { unsigned_abs result.x ≤ 1073741823 }
        ensures y { unsigned_abs result.y ≤ 1073741823 }
    {
        Place {
            x: p.x.sp(),
            y: p.y.sp(),
        }
    }

    /// The same, moved by a vector.
    pub(crate) fn plus(self, v: &Point) -> Place
        requires x { unsigned_abs self.x ≤ 8589934592 }
        requires y { unsigned_abs self.y ≤ 8589934592 }
        ensures value { result ≡ sum_of self v.now }
        ensures x { unsigned_abs result.x ≤ unsigned_abs self.x + 1073741823 }
        ensures y { unsigned_abs result.y ≤ unsigned_abs self.y + 1073741823 }
    {
        Place {
            x: self.x + v.x.sp(),
            y: self.y + v.y.sp(),
        }
    }

    /// The same, moved back by a vector.
    pub(crate) fn minus(self, v: &Point) -> Place
        requires x { unsigned_abs self.x ≤ 8589934592 }
        requires y { unsigned_abs self.y ≤ 8589934592 }
        ensures value { result ≡ difference_of self v.now }
        ensures x { unsigned_abs result.x ≤ unsigned_abs self.x + 1073741823 }
        ensures y { unsigned_abs result.y ≤ unsigned_abs self.y + 1073741823 }
    {
        Place {
            x: self.x - v.x.sp(),
            y: self.y - v.y.sp(),
        }
    }

    /// The point that it is; TooLarge where it is none.
    pub(crate) fn point(self) -> Result<Point, AffFault>
        ensures { result ≡ checked self }
    {
        point(i128::from(self.x), i128::from(self.y))
    }
}

/// The point of two coordinates, or the vector of two components.
pub(crate) fn xy(x: Scaled, y: Scaled) -> Point
    ensures { result ≡ record { x = x; y = y } }
{
    Point { x, y }
}
