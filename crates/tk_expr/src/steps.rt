//! The machine's steps, piece by piece.

ghost use Rattle.std.specs.Prelude.{◌≡◌, ◌∷◌, ◌<◌, [], List, length, Ok, Err, Some, OnSome, MatchOption};
ghost use Rattle.tk_token.specs.declared.Code.TheVariants.{Expression};
ghost use Rattle.tk_expr.specs.declared.machine.OpenFrame.TheVariants.{Then};
ghost use Rattle.tk_expr.specs.Machine as spec;
ghost use Rattle.tk_expr.specs.Steps.{Leads};

use crate::FontUnits;
use crate::frames::Frames;
use crate::machine::{Bracket, ExprState, Mode, OpenFrame, Pending, Waiting};
use crate::number::Decimal;
use crate::operators::{Operator, Prefix};
use crate::pieces::{Mark, Most, One, Piece, Two};
use crate::values::{Found, called_most, called_one, called_two, in_degrees, in_unit, pi, placed};
use tk_num::Unit;
use tk_token::{Code, Fault};

/// The fault of a piece that doesn't fit, or of a name with a wrong count of arguments.
pub(crate) fn misfit(at: u32) -> Fault
    ensures { result ≡ record { code = Expression; at = at } }
{
    Fault {
        code: Code::Expression,
        at,
    }
}

/// A number in a unit; a fault stands at the unit.
fn measured(font: &FontUnits, x: Found, unit: Unit, at: u32) -> Found
    ensures { result ≡ spec.unit_found font.now unit at x }
{
    placed(at, in_unit(font, unit, x?))
}

/// Radians in degrees; a fault stands at the `r`.
fn turned(x: Found, at: u32) -> Found
    ensures { result ≡ spec.degrees_found at x }
{
    placed(at, in_degrees(x?))
}

/// `<` and `>` with a `=` directly behind them.
fn or_same(operator: Operator) -> Operator
    ensures { result ≡ spec.or_same operator }
{
    match operator {
        Operator::Below => Operator::AtMost,
        Operator::Above => Operator::AtLeast,
        other => other,
    }
}

fn waiting_or_same(waiting: Option<Waiting>) -> Option<Waiting>
    ensures { result ≡ spec.waiting_or_same waiting }
{
    match waiting {
        Some(waiting) => Some(Waiting {
            left: waiting.left,
            operator: or_same(waiting.operator),
            at: waiting.at,
        }),
        None => None,
    }
}

/// The value of a call; a fault stands at its name.
fn one_found(function: One, name: u32, x: Found) -> Found
    ensures { result ≡ spec.one_found function name x }
{
    placed(name, called_one(function, x?))
}

/// The value of a call; a fault stands at its name.
fn two_found(function: Two, name: u32, x: Found, y: Found) -> Found
    ensures { result ≡ spec.two_found function name x y }
{
    placed(name, called_two(function, x?, y?))
}

/// The least or greatest of the arguments so far.
fn most_found(function: Most, first: Option<Found>, y: Found) -> Found
    ensures { result ≡ spec.most_found function first y }
{
    match first {
        Some(first) => Ok(called_most(function, first?, y?)),
        None => y,
    }
}

/// Whether a mark is the second half of an operator.
fn is_half(wanted: Mark, mark: Mark) -> bool
    ensures { result ≡ spec.is_half wanted mark }
{
    match wanted {
        Mark::Equals => matches!(mark, Mark::Equals),
        Mark::Ampersand => matches!(mark, Mark::Ampersand),
        Mark::Bar => matches!(mark, Mark::Bar),
        _ => false,
    }
}

impl ExprState {
    /// Before the first piece.
    pub(crate) fn new() -> ExprState
        ensures { result ≡ spec.start }
    {
        ExprState {
            mode: Mode::Wanted,
            pending: Pending::new(),
            frames: Frames::new(),
            unit: false,
        }
    }

    /// Goes on in another mode.
    #[inline(always)]
    fn turn(&mut self, mode: Mode) -> Result<(), Fault>
        ensures { Leads result self.new (spec.to_mode mode self.old) }
    {
        self.mode = mode;
        Ok(())
    }

    /// Wants the first operand of an expression.
    fn want(&mut self)
        ensures { self.new ≡ spec.wanted_in self.old.frames self.old }
    {
        self.mode = Mode::Wanted;
        self.pending = Pending::new();
    }

    /// Opens a parenthesis or a `?`; TooDeep where 64 are open.
    fn open(&mut self, frame: OpenFrame, at: u32) -> Result<(), Fault>
        ensures { Leads result self.new (spec.with_frame at frame self.old) }
    {
        self.frames.push(frame, at)?;
        self.want();
        Ok(())
    }

    /// Puts a frame in the place of one that was taken off, and wants an operand within it.
    fn go_on(&mut self, frame: OpenFrame, at: u32) -> Result<(), Fault>
        requires { length self.old.frames < 64 }
        ensures { Leads result self.new (Ok (spec.wanted_in (frame ∷ self.old.frames) self.old)) }
    {
        self.frames.push(frame, at)?;
        self.want();
        Ok(())
    }

    /// Goes on behind a parenthesis, with what waits outside it.
    fn leave(&mut self, value: Found, saved: Pending) -> Result<(), Fault>
        ensures { Leads result self.new (Ok (spec.outside value saved self.old.frames self.old)) }
    {
        self.mode = Mode::After(value);
        self.pending = saved;
        Ok(())
    }

    /// A sign before an operand, or before an exponent.
    fn sign(&mut self, sign: Prefix, at: u32) -> Result<(), Fault>
        ensures { Leads result self.new
            (spec.sign_operand self.old.pending.power sign at self.old) }
    {
        match self.pending.power {
            Some(_) => self.sign_exponent(sign, at),
            None => {
                self.pending.signs = self.pending.signs.with(sign);
                self.turn(Mode::Wanted)
            }
        }
    }

    fn sign_exponent(&mut self, sign: Prefix, at: u32) -> Result<(), Fault>
        ensures { Leads result self.new (spec.sign_exponent sign at self.old) }
    {
        match sign {
            Prefix::Not => Err(misfit(at)),
            Prefix::Negate | Prefix::Keep => {
                self.pending.exponent = self.pending.exponent.with(sign);
                self.turn(Mode::Wanted)
            }
        }
    }

    /// A piece where an operand is wanted.
    #[inline(always)]
    fn begin(&mut self, mark: Mark, at: u32) -> Result<(), Fault>
        ensures { Leads result self.new (spec.begin mark at self.old) }
    {
        match mark {
            Mark::Digit(digit) => {
                self.turn(Mode::Number(Decimal::new(false, at).with_digit(digit)))
            }
            Mark::Point => self.turn(Mode::Dot(at)),
            Mark::Pi => self.turn(Mode::After(Ok(pi()))),
            Mark::Single(function) => self.turn(Mode::Named(Bracket::Only(function, at))),
            Mark::Double(function) => self.turn(Mode::Named(Bracket::First(function, at))),
            Mark::Several(function) => self.turn(Mode::Named(Bracket::Each(function, None))),
            Mark::Minus => self.sign(Prefix::Negate, at),
            Mark::Plus => self.sign(Prefix::Keep, at),
            Mark::Bang => self.sign(Prefix::Not, at),
            Mark::Left => self.open(OpenFrame::Inside(Bracket::Plain, self.pending), at),
            Mark::Gap => self.turn(Mode::Wanted),
            _ => Err(misfit(at)),
        }
    }

    /// A piece directly behind `<` or `>`.
    fn order(&mut self, mark: Mark, at: u32) -> Result<(), Fault>
        ensures { Leads result self.new (spec.ordered mark at self.old) }
    {
        match mark {
            Mark::Equals => {
                self.pending.comparison = waiting_or_same(self.pending.comparison);
                self.turn(Mode::Wanted)
            }
            _ => self.begin(mark, at),
        }
    }

    /// A piece directly behind the first half of an operator.
    fn complete(&mut self, wanted: Mark, mark: Mark, at: u32) -> Result<(), Fault>
        ensures { Leads result self.new (spec.half wanted mark at self.old) }
    {
        if is_half(wanted, mark) {
            return self.turn(Mode::Wanted);
        }
        Err(misfit(at))
    }

    /// A piece behind the name of a function.
    fn call(&mut self, bracket: Bracket, mark: Mark, at: u32) -> Result<(), Fault>
        ensures { Leads result self.new (spec.named bracket mark at self.old) }
    {
        match mark {
            Mark::Left => self.open(OpenFrame::Inside(bracket, self.pending), at),
            Mark::Gap => self.turn(Mode::Named(bracket)),
            _ => Err(misfit(at)),
        }
    }

    /// An operator behind an operand.
    #[inline(always)]
    fn operate(&mut self, operator: Operator, mode: Mode, x: Found, at: u32) -> Result<(), Fault>
        ensures { Leads result self.new (spec.operator operator mode at x self.old) }
    {
        self.pending.wait(operator, at, x);
        self.turn(mode)
    }

    /// A comparison behind an operand, of which there may be one.
    fn compare(&mut self, operator: Operator, mode: Mode, x: Found, at: u32) -> Result<(), Fault>
        ensures { Leads result self.new (spec.comparison operator mode at x self.old) }
    {
        if self.pending.comparison.is_some() {
            return Err(misfit(at));
        }
        self.operate(operator, mode, x, at)
    }

    /// Ends the innermost expression behind its last operand, and gives its value.
    pub(crate) fn close(&mut self, x: Found) -> Found
        ensures value { result ≡ (spec.closed_behind x self.old).value }
        ensures frames { self.new
            ≡ record self.old { frames = (spec.closed_behind x self.old).frames } }
    {
        let value = self.pending.disjoined(x);
        self.frames.close(value)
    }

    /// A `)` behind an operand.
    fn end(&mut self, x: Found, at: u32) -> Result<(), Fault>
        ensures { Leads result self.new (spec.at_right at (spec.closed_behind x self.old).value
            (spec.closed_behind x self.old).frames self.old) }
    {
        let value = self.close(x);
        match self.frames.pop() {
            Some(OpenFrame::Inside(bracket, saved)) => self.end_bracket(bracket, value, saved, at),
            _ => Err(misfit(at)),
        }
    }

    /// The end of a parenthesis; one with too few arguments is refused at its name.
    fn end_bracket(
        &mut self,
        bracket: Bracket,
        value: Found,
        saved: Pending,
        at: u32,
    ) -> Result<(), Fault>
        ensures { Leads result self.new
            (spec.bracket_ends at bracket value saved self.old.frames self.old) }
    {
        match bracket {
            Bracket::Plain => self.leave(value, saved),
            Bracket::Only(function, name) => self.leave(one_found(function, name, value), saved),
            Bracket::First(_, name) => Err(misfit(name)),
            Bracket::Second(function, name, first) => {
                self.leave(two_found(function, name, first, value), saved)
            }
            Bracket::Each(function, first) => {
                self.leave(most_found(function, first, value), saved)
            }
        }
    }

    /// A `,` behind an operand.
    fn separate(&mut self, x: Found, at: u32) -> Result<(), Fault>
        ensures { Leads result self.new (spec.at_comma at (spec.closed_behind x self.old).value
            (spec.closed_behind x self.old).frames self.old) }
    {
        let value = self.close(x);
        match self.frames.pop() {
            Some(OpenFrame::Inside(bracket, saved)) => self.next_argument(
                bracket, value, saved, at,
            ),
            _ => Err(misfit(at)),
        }
    }

    /// The next argument in a parenthesis; one with too many is refused at its name.
    fn next_argument(
        &mut self,
        bracket: Bracket,
        value: Found,
        saved: Pending,
        at: u32,
    ) -> Result<(), Fault>
        requires { length self.old.frames < 64 }
        ensures { Leads result self.new
            (spec.bracket_goes_on at bracket value saved self.old.frames self.old) }
    {
        match bracket {
            Bracket::Plain => Err(misfit(at)),
            Bracket::Only(_, name) | Bracket::Second(_, name, _) => Err(misfit(name)),
            Bracket::First(function, name) => {
                self.go_on(
                    OpenFrame::Inside(Bracket::Second(function, name, value), saved),
                    at,
                )
            }
            Bracket::Each(function, first) => {
                let least = most_found(function, first, value);
                self.go_on(
                    OpenFrame::Inside(Bracket::Each(function, Some(least)), saved),
                    at,
                )
            }
        }
    }

    /// A `:` behind an operand.
    fn otherwise(&mut self, x: Found, at: u32) -> Result<(), Fault>
        ensures { Leads result self.new (spec.at_colon at (spec.closed_behind x self.old).value
            (spec.closed_behind x self.old).frames self.old) }
    {
        let value = self.close(x);
        match self.frames.pop() {
            Some(OpenFrame::Then(condition)) => self.go_on(OpenFrame::Else(condition, value), at),
            _ => Err(misfit(at)),
        }
    }

    /// A `?` behind an operand.
    fn ask(&mut self, x: Found, at: u32) -> Result<(), Fault>
        ensures { Leads result self.new
            (spec.with_frame at (Then (spec.disjoined self.old.pending x)) self.old) }
    {
        let condition = self.pending.disjoined(x);
        self.open(OpenFrame::Then(condition), at)
    }

    /// A piece behind an operand.
    fn after(&mut self, font: &FontUnits, x: Found, mark: Mark, at: u32) -> Result<(), Fault>
        ensures { Leads result self.new (spec.after font.now x mark at self.old) }
    {
        match mark {
            Mark::Measure(unit) => {
                self.unit = true;
                self.turn(Mode::After(measured(font, x, unit, at)))
            }
            Mark::Radian => self.turn(Mode::After(turned(x, at))),
            Mark::Caret => self.operate(Operator::Raise, Mode::Wanted, x, at),
            Mark::Star => self.operate(Operator::Multiply, Mode::Wanted, x, at),
            Mark::Slash => self.operate(Operator::Divide, Mode::Wanted, x, at),
            Mark::Plus => self.operate(Operator::Add, Mode::Wanted, x, at),
            Mark::Minus => self.operate(Operator::Subtract, Mode::Wanted, x, at),
            Mark::Less => self.compare(Operator::Below, Mode::Ordered, x, at),
            Mark::Greater => self.compare(Operator::Above, Mode::Ordered, x, at),
            Mark::Equals => self.compare(Operator::Same, Mode::Half(Mark::Equals), x, at),
            Mark::Bang => self.compare(Operator::Differs, Mode::Half(Mark::Equals), x, at),
            Mark::Ampersand => self.operate(Operator::Both, Mode::Half(Mark::Ampersand), x, at),
            Mark::Bar => self.operate(Operator::Either, Mode::Half(Mark::Bar), x, at),
            Mark::Question => self.ask(x, at),
            Mark::Colon => self.otherwise(x, at),
            Mark::Comma => self.separate(x, at),
            Mark::Right => self.end(x, at),
            Mark::Gap => self.turn(Mode::After(x)),
            _ => Err(misfit(at)),
        }
    }

    /// A piece behind the point of a decimal that has no digit yet.
    fn dot(&mut self, place: u32, mark: Mark, at: u32) -> Result<(), Fault>
        ensures { Leads result self.new (spec.dot place mark at self.old) }
    {
        match mark {
            Mark::Digit(digit) => {
                self.turn(Mode::Number(Decimal::new(true, place).with_digit(digit)))
            }
            _ => Err(misfit(at)),
        }
    }

    /// A piece behind a decimal and perhaps gaps.
    #[inline(always)]
    fn measure(
        &mut self,
        font: &FontUnits,
        decimal: Decimal,
        mark: Mark,
        at: u32,
    ) -> Result<(), Fault>
        ensures { Leads result self.new (spec.measured font.now decimal mark at self.old) }
    {
        match mark {
            Mark::Measure(unit) => {
                self.unit = true;
                self.turn(Mode::After(decimal.unit_value(font, unit)))
            }
            Mark::Gap => self.turn(Mode::Measured(decimal)),
            _ => self.after(font, decimal.plain_value(font), mark, at),
        }
    }

    /// A piece directly behind a decimal.
    #[inline(always)]
    fn count(
        &mut self,
        font: &FontUnits,
        decimal: Decimal,
        mark: Mark,
        at: u32,
    ) -> Result<(), Fault>
        ensures { Leads result self.new (spec.number font.now decimal mark at self.old) }
    {
        match mark {
            Mark::Digit(digit) => self.turn(Mode::Number(decimal.with_digit(digit))),
            Mark::Point if decimal.is_pointed() => Err(misfit(at)),
            Mark::Point => self.turn(Mode::Number(decimal.with_point())),
            _ => self.measure(font, decimal, mark, at),
        }
    }

    /// A piece in a mode.
    #[inline(always)]
    fn step_in(&mut self, font: &FontUnits, mode: Mode, mark: Mark, at: u32) -> Result<(), Fault>
        ensures { Leads result self.new (spec.step_in font.now mode mark at self.old) }
    {
        match mode {
            Mode::Wanted => self.begin(mark, at),
            Mode::Ordered => self.order(mark, at),
            Mode::Half(wanted) => self.complete(wanted, mark, at),
            Mode::Named(bracket) => self.call(bracket, mark, at),
            Mode::Dot(place) => self.dot(place, mark, at),
            Mode::Number(decimal) => self.count(font, decimal, mark, at),
            Mode::Measured(decimal) => self.measure(font, decimal, mark, at),
            Mode::After(x) => self.after(font, x, mark, at),
        }
    }

    /// One more piece, or the fault of one that doesn't fit.
    #[tactic(auto, unfolding(crate::specs::Machine::step))]
    #[inline(always)]
    pub(crate) fn step(&mut self, font: &FontUnits, piece: Piece) -> Result<(), Fault>
        ensures { Leads result self.new (spec.step font.now self.old piece) }
    {
        self.step_in(font, self.mode, piece.mark, piece.at)
    }
}
