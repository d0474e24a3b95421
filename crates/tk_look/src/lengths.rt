//! Numbers of a look that have a range.

ghost use Rattle.std.specs.Prelude.{◌≡◌, int_le, nat_le, pos, ◌≤ℤ◌, ◌≤◌, unsigned_abs, if◌then◌else◌, Some, None};

use std::marker::Model;
use tk_num::{ONE, Scaled};

/// The width of a line in scaled points, which isn't negative.
#[derive(Clone, Copy, PartialEq, Eq)]
pub struct LineWidth {
    width: Scaled,
}

impl Model for LineWidth {
    ghost use Rattle.std.specs.Prelude.{ℤ, pos, ◌≤ℤ◌};

    ghost Value = { ℤ };

    ghost view = { λ w. w.width };

    ghost invariant = { λ w. pos 0 ≤ℤ w.width };

    ghost inverse = { λ z. record { width = z } };
}

impl LineWidth {
    /// The width of a length; None where it is negative.
    pub fn new(width: Scaled) -> Option<LineWidth>
        ensures { result ≡ (if int_le (pos 0) width then Some width else None) }
    {
        if width.sp() >= 0 {
            Some(LineWidth { width })
        } else {
            None
        }
    }

    /// The length, in scaled points.
    pub fn length(self) -> Scaled
        ensures value { result ≡ self }
        ensures sign { pos 0 ≤ℤ result }
    {
        self.width
    }
}

/// How long a miter may be, in 65536ths of the line width: at least one line width.
#[derive(Clone, Copy, PartialEq, Eq)]
pub struct MiterLimit {
    limit: Scaled,
}

impl Model for MiterLimit {
    ghost use Rattle.std.specs.Prelude.{ℤ, pos, ◌≤ℤ◌};

    ghost Value = { ℤ };

    ghost view = { λ m. m.limit };

    ghost invariant = { λ m. pos 65536 ≤ℤ m.limit };

    ghost inverse = { λ z. record { limit = z } };
}

impl MiterLimit {
    /// The limit of a number; None where it is below one.
    pub fn new(limit: Scaled) -> Option<MiterLimit>
        ensures { result ≡ (if int_le (pos 65536) limit then Some limit else None) }
    {
        if limit.sp() >= ONE {
            Some(MiterLimit { limit })
        } else {
            None
        }
    }

    /// The number, in 65536ths.
    pub fn number(self) -> Scaled
        ensures value { result ≡ self }
        ensures least { pos 65536 ≤ℤ result }
    {
        self.limit
    }
}

/// A place on a line, in 65536ths of it: from eight of its lengths before its beginning to eight behind it.
#[derive(Clone, Copy, PartialEq, Eq)]
pub struct Position {
    place: Scaled,
}

impl Model for Position {
    ghost use Rattle.std.specs.Prelude.{ℤ, ◌≤◌, unsigned_abs};

    ghost Value = { ℤ };

    ghost view = { λ p. p.place };

    ghost invariant = { λ p. unsigned_abs p.place ≤ 524288 };

    ghost inverse = { λ z. record { place = z } };
}

impl Position {
    /// The place of a number; None where it is further than eight lengths.
    pub fn new(place: Scaled) -> Option<Position>
        ensures { result ≡ (if nat_le (unsigned_abs place) 524288 then Some place else None) }
    {
        if -524_288 <= place.sp() && place.sp() <= 524_288 {
            Some(Position { place })
        } else {
            None
        }
    }

    /// The number, in 65536ths of the line.
    pub fn number(self) -> Scaled
        ensures value { result ≡ self }
        ensures range { unsigned_abs result ≤ 524288 }
    {
        self.place
    }
}
