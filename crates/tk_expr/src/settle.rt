//! Operators and signs that meet their right operand.

ghost use Rattle.std.specs.Prelude.{◌≡◌, None};
ghost use Rattle.tk_expr.specs.declared.operators.Operator.TheVariants.{Raise, Both, Either};
ghost use Rattle.tk_expr.specs.Machine as spec;
ghost use Rattle.tk_expr.specs.Machine.{no_signs};

use crate::machine::{Pending, Waiting};
use crate::operators::{Operator, Signs};
use crate::values::{Found, operated, placed};

/// An operator that waits, with its right operand.
#[inline(always)]
fn applied(waiting: &Option<Waiting>, x: Found) -> Found
    ensures { result ≡ spec.applied waiting.now x }
{
    match waiting {
        Some(waiting) => placed(waiting.at, operated(waiting.operator, waiting.left?, x?)),
        None => x,
    }
}

impl Pending {
    /// Nothing waits.
    pub(crate) fn new() -> Pending
        ensures { result ≡ spec.nothing }
    {
        Pending::default()
    }

    /// An operand with what waits for it on the level of powers.
    #[tactic(auto, unfolding(crate::specs::Machine::powered))]
    #[inline(always)]
    fn powered(&self, x: Found) -> Found
        ensures { result ≡ spec.powered self.now x }
    {
        applied(&self.power, self.exponent.of_found(x))
    }

    /// The same up to products.
    #[tactic(auto, unfolding(crate::specs::Machine::multiplied))]
    #[inline(always)]
    fn multiplied(&self, x: Found) -> Found
        ensures { result ≡ spec.multiplied self.now x }
    {
        applied(&self.product, self.signs.of_found(self.powered(x)))
    }

    /// The same up to sums.
    #[tactic(auto, unfolding(crate::specs::Machine::added))]
    #[inline(always)]
    fn added(&self, x: Found) -> Found
        ensures { result ≡ spec.added self.now x }
    {
        applied(&self.sum, self.multiplied(x))
    }

    /// The same up to comparisons.
    #[tactic(auto, unfolding(crate::specs::Machine::compared))]
    fn compared(&self, x: Found) -> Found
        ensures { result ≡ spec.compared self.now x }
    {
        applied(&self.comparison, self.added(x))
    }

    /// The same up to conjunctions.
    #[tactic(auto, unfolding(crate::specs::Machine::conjoined))]
    fn conjoined(&self, x: Found) -> Found
        ensures { result ≡ spec.conjoined self.now x }
    {
        applied(&self.conjunction, self.compared(x))
    }

    /// The same up to disjunctions, which are all that waits.
    #[tactic(auto, unfolding(crate::specs::Machine::disjoined))]
    pub(crate) fn disjoined(&self, x: Found) -> Found
        ensures { result ≡ spec.disjoined self.now x }
    {
        applied(&self.disjunction, self.conjoined(x))
    }

    /// Waits with an operator that was read behind an operand: all that binds as tightly or tighter is settled.
    #[inline(always)]
    pub(crate) fn wait(&mut self, operator: Operator, at: u32, x: Found)
        ensures { self.new ≡ spec.waits operator at x self.old }
    {
        match operator {
            Operator::Raise => self.wait_power(at, x),
            Operator::Multiply | Operator::Divide => self.wait_product(operator, at, x),
            Operator::Add | Operator::Subtract => self.wait_sum(operator, at, x),
            Operator::Both => self.wait_conjunction(at, x),
            Operator::Either => self.wait_disjunction(at, x),
            _ => self.wait_comparison(operator, at, x),
        }
    }

    fn wait_power(&mut self, at: u32, x: Found)
        ensures { self.new ≡ spec.waits Raise at x self.old }
    {
        let left = self.powered(x);
        self.exponent = Signs::default();
        self.power = Some(Waiting {
            left,
            operator: Operator::Raise,
            at,
        });
    }

    /// No power waits any more, and no sign before one.
    #[inline(always)]
    fn settle_power(&mut self)
        ensures { self.new
            ≡ record self.old { exponent = no_signs; power = None; signs = no_signs } }
    {
        self.exponent = Signs::default();
        self.power = None;
        self.signs = Signs::default();
    }

    #[inline(always)]
    fn wait_product(&mut self, operator: Operator, at: u32, x: Found)
        ensures { self.new ≡ spec.product_waits operator at x self.old }
    {
        let left = self.multiplied(x);
        self.settle_power();
        self.product = Some(Waiting { left, operator, at });
    }

    #[inline(always)]
    fn wait_sum(&mut self, operator: Operator, at: u32, x: Found)
        ensures { self.new ≡ spec.sum_waits operator at x self.old }
    {
        let left = self.added(x);
        self.settle_power();
        self.product = None;
        self.sum = Some(Waiting { left, operator, at });
    }

    fn wait_comparison(&mut self, operator: Operator, at: u32, x: Found)
        ensures { self.new ≡ spec.comparison_waits operator at x self.old }
    {
        let left = self.compared(x);
        self.settle_power();
        self.product = None;
        self.sum = None;
        self.comparison = Some(Waiting { left, operator, at });
    }

    fn wait_conjunction(&mut self, at: u32, x: Found)
        ensures { self.new ≡ spec.waits Both at x self.old }
    {
        let left = self.conjoined(x);
        self.settle_power();
        self.product = None;
        self.sum = None;
        self.comparison = None;
        self.conjunction = Some(Waiting {
            left,
            operator: Operator::Both,
            at,
        });
    }

    fn wait_disjunction(&mut self, at: u32, x: Found)
        ensures { self.new ≡ spec.waits Either at x self.old }
    {
        let left = self.disjoined(x);
        *self = Pending::new();
        self.disjunction = Some(Waiting {
            left,
            operator: Operator::Either,
            at,
        });
    }
}
