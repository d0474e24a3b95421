//! Decimals, digit by digit.

ghost use Rattle.std.specs.Prelude.{◌≡◌, ◌+◌, ◌*◌, ◌^◌, ◌<◌, ◌≤◌};
ghost use Rattle.tk_expr.specs.Number as spec;

use crate::FontUnits;
use crate::values::{Found, decimal_in, placed};
use std::marker::Model;
use tk_num::{Unit, nearest_65536th};

/// A whole part that is past the greatest.
const PAST_WHOLE: u64 = 1_073_741_824;

/// The digits after the point that count.
const MOST_PLACES: u32 = 17;

/// A decimal as far as it is read: its whole part, which stays at 1,073,741,824 once it is there, and the first digits
/// after its point, at most 17, as one number, with their count. `at` is the place of its first digit or point.
#[derive(Clone, Copy)]
pub struct Decimal {
    whole: u64,
    pointed: bool,
    count: u32,
    part: u64,
    at: u32,
}

impl Model for Decimal {
    ghost use Rattle.std.specs.Prelude.{ℕ, ◌+◌, ◌*◌, ◌^◌, ◌≤◌};
    ghost use Rattle.tk_expr.specs.Number as number;

    ghost Value = { number.Decimal };

    ghost view = { λ n. record { whole = n.whole; pointed = n.pointed; count = n.count; part = n.part; at = n.at } };

    ghost invariant = { λ n. (n.whole ≤ 1073741824) × (n.count ≤ 17) × (n.part + 29 ≤ 29 * 10 ^ n.count) };

    ghost inverse = { λ n. record { whole = n.whole; pointed = n.pointed; count = n.count; part = n.part; at = n.at } };
}

impl Decimal {
    /// No digit yet, behind a point or not.
    pub(crate) fn new(pointed: bool, at: u32) -> Decimal
        ensures { result ≡ spec.no_digits pointed at }
    {
        Decimal {
            whole: 0,
            pointed,
            count: 0,
            part: 0,
            at,
        }
    }

    #[inline(always)]
    pub(crate) fn is_pointed(self) -> bool
        ensures { result ≡ self.pointed }
    {
        self.pointed
    }

    /// One more digit.
    #[inline(always)]
    pub(crate) fn with_digit(self, digit: u8) -> Decimal
        ensures { result ≡ spec.with_digit digit self }
    {
        if self.pointed {
            self.with_part_digit(digit)
        } else {
            self.with_whole_digit(digit)
        }
    }

    #[inline(always)]
    fn with_whole_digit(self, digit: u8) -> Decimal
        ensures { result ≡ spec.with_whole_digit digit self }
    {
        Decimal {
            whole: (10 * self.whole + u64::from(digit)).min(PAST_WHOLE),
            pointed: self.pointed,
            count: self.count,
            part: self.part,
            at: self.at,
        }
    }

    #[inline(always)]
    fn with_part_digit(self, digit: u8) -> Decimal
        ensures { result ≡ spec.with_part_digit digit self }
    {
        if self.count >= MOST_PLACES {
            return self;
        }
        Decimal {
            whole: self.whole,
            pointed: self.pointed,
            count: self.count + 1,
            part: 10 * self.part + u64::from(digit),
            at: self.at,
        }
    }

    /// The point.
    #[inline(always)]
    pub(crate) fn with_point(self) -> Decimal
        ensures { result ≡ spec.with_point self }
    {
        Decimal {
            whole: self.whole,
            pointed: true,
            count: self.count,
            part: self.part,
            at: self.at,
        }
    }

    /// What it stands for, in 65536ths.
    #[tactic(auto, unfolding(crate::specs::Number::total))]
    #[inline(always)]
    fn total(self) -> u64
        ensures value { result ≡ spec.total self }
        ensures small { result ≤ 9223372036854775807 }
    {
        65_536 * self.whole + nearest_65536th(self.count, self.part)
    }

    /// Its value without a unit; TooLarge at its place where that is out of range.
    #[inline(always)]
    pub(crate) fn plain_value(self, font: &FontUnits) -> Found
        ensures { result ≡ spec.plain_value font.now self }
    {
        placed(self.at, decimal_in(font, None, self.total()))
    }

    /// Its value in a unit; TooLarge at its place where that is out of range.
    pub(crate) fn unit_value(self, font: &FontUnits, unit: Unit) -> Found
        ensures { result ≡ spec.unit_value font.now unit self }
    {
        placed(self.at, decimal_in(font, Some(unit), self.total()))
    }
}
