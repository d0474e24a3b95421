//! Scaled numbers: whole counts of 65536ths of a point, as TeX has them.
#![tactic(auto)]

ghost use Rattle.std.specs.Prelude.{◌≡◌, ◌≤◌, neg_ℤ};
ghost use Rattle.std.specs.Option.{SomeIff};
ghost use Rattle.tk_num.specs.Number.{IsScaled};

mod angle;
mod arithmetic;
mod decimal;
mod text;
mod unit;

pub use angle::{cos, sin, tan};
pub use arithmetic::{add, div, mul, root, root_is_floor, sub};
pub use decimal::{nearest_65536th, read_decimal};
use std::marker::Model;
pub use text::{Digits, print, print_tex, push_text, text_is_unique, text_reads_back};
pub use unit::{Unit, with_unit};

/// One whole, in 65536ths.
pub const ONE: i64 = 65_536;

/// The greatest absolute value of a `Scaled`.
const MOST: i64 = 1_073_741_823;

/// A number of 65536ths, at most 1,073,741,823 either way.
#[derive(Clone, Copy, Default, PartialEq, Eq, PartialOrd, Ord)]
pub struct Scaled {
    sp: i64,
}

impl Model for Scaled {
    ghost use Rattle.std.specs.Prelude.{ℤ, ◌≤◌, unsigned_abs};

    ghost Value = { ℤ };

    ghost view = { λ s. s.sp };

    ghost invariant = { λ s. unsigned_abs s.sp ≤ 1073741823 };

    ghost inverse = { λ z. record { sp = z } };
}

/// Why there is no number to give.
#[derive(Clone, Copy, PartialEq, Eq)]
pub enum NumFault {
    TooLarge,
    DivZero,
    Domain,
}

impl Scaled {
    /// The number of `sp` 65536ths; None where it is out of range.
    pub fn new(sp: i64) -> Option<Scaled>
        ensures { SomeIff result (IsScaled sp) sp }
    {
        if -MOST <= sp && sp <= MOST {
            Some(Scaled { sp })
        } else {
            None
        }
    }

    /// The number of so many 65536ths, which are in range.
    #[inline(always)]
    pub fn within(sp: i64) -> Scaled
        requires { IsScaled sp }
        ensures { result ≡ sp }
    {
        match Scaled::new(sp) {
            Some(number) => number,
            None => unreachable!(),
        }
    }

    /// The same number with the other sign.
    #[inline(always)]
    pub fn negated(self) -> Scaled
        ensures { result ≡ neg_ℤ self }
    {
        Scaled::within(-self.sp())
    }

    /// Its count of 65536ths.
    pub fn sp(self) -> i64
        ensures value { result ≡ self }
        ensures range { IsScaled result }
    {
        self.sp
    }
}
