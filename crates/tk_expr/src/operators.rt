//! The operators of an expression, and the signs before its operands.

ghost use Rattle.std.specs.Prelude.{◌≡◌};
ghost use Rattle.tk_expr.specs.Machine as spec;

use crate::values::{Found, is_true, truth};
use tk_num::Scaled;

/// An operator between two operands.
#[derive(Clone, Copy)]
pub enum Operator {
    Raise,
    Multiply,
    Divide,
    Add,
    Subtract,
    Same,
    Differs,
    AtMost,
    AtLeast,
    Below,
    Above,
    Both,
    Either,
}

/// A sign before an operand.
#[derive(Clone, Copy)]
pub enum Prefix {
    Negate,
    Keep,
    Not,
}

/// What a run of `!` makes of a number.
#[derive(Clone, Copy, Default)]
pub enum Truth {
    /// No `!`: the number itself.
    #[default]
    Itself,
    /// An even count: whether it isn't 0.
    Affirmed,
    /// An odd count: whether it is 0.
    Denied,
}

/// What a run of signs makes of a number.
#[derive(Clone, Copy, Default)]
pub struct Signs {
    pub negative: bool,
    pub truth: Truth,
}

impl Signs {
    /// The signs with one more further in. A `-` within a `!` changes nothing.
    pub(crate) fn with(self, sign: Prefix) -> Signs
        ensures { result ≡ spec.with_prefix sign self }
    {
        match sign {
            Prefix::Negate => self.with_minus(),
            Prefix::Keep => self,
            Prefix::Not => Signs {
                negative: self.negative,
                truth: with_not(self.truth),
            },
        }
    }

    fn with_minus(self) -> Signs
        ensures { result ≡ spec.with_minus self.truth self }
    {
        match self.truth {
            Truth::Itself => Signs {
                negative: !self.negative,
                truth: self.truth,
            },
            Truth::Affirmed | Truth::Denied => self,
        }
    }

    /// What the signs make of a number.
    #[inline(always)]
    fn of(self, x: Scaled) -> Scaled
        ensures { result ≡ spec.number_behind_signs self x }
    {
        if self.negative {
            return as_truth(self.truth, x).negated();
        }
        as_truth(self.truth, x)
    }

    /// What the signs make of a number that may be a fault.
    #[inline(always)]
    pub(crate) fn of_found(self, x: Found) -> Found
        ensures { result ≡ spec.signed_found self x }
    {
        Ok(self.of(x?))
    }
}

fn with_not(truth: Truth) -> Truth
    ensures { result ≡ spec.with_not truth }
{
    match truth {
        Truth::Itself | Truth::Affirmed => Truth::Denied,
        Truth::Denied => Truth::Affirmed,
    }
}

#[inline(always)]
fn as_truth(form: Truth, x: Scaled) -> Scaled
    ensures { result ≡ spec.as_truth form x }
{
    match form {
        Truth::Itself => x,
        Truth::Affirmed => truth(is_true(x)),
        Truth::Denied => truth(!is_true(x)),
    }
}
