//! What an expression comes to.

ghost use Rattle.std.specs.Prelude.{◌≡◌, ◌∷◌};
ghost use Rattle.tk_expr.specs.Machine as machine;
ghost use Rattle.tk_expr.specs.Evaluated as spec;
ghost use Rattle.tk_expr.specs.Evaluates.{Evaluates};
ghost use Rattle.tk_expr.specs.Steps.{Leads};
ghost use Rattle.tk_expr.specs.Pieces.{pieces_of};

use crate::machine::{ExprState, Mode};
use crate::pieces::next_piece;
use crate::plain::plain_value;
use crate::steps::misfit;
use crate::values::Found;
use crate::{FontUnits, Value};
use tk_token::{Fault, Tok, end_of};

/// The operand that was read last.
fn operand(font: &FontUnits, mode: Mode) -> Option<Found>
    ensures { result ≡ machine.operand font.now mode }
{
    match mode {
        Mode::Number(decimal) | Mode::Measured(decimal) => Some(decimal.plain_value(font)),
        Mode::After(x) => Some(x),
        _ => None,
    }
}

impl ExprState {
    /// The state behind all tokens, or the fault of the first piece that doesn't fit.
    fn run(&mut self, font: &FontUnits, list: &[Tok]) -> Result<(), Fault>
        ensures { Leads result self.new (machine.run font.now self.old (pieces_of list.now)) }
    {
        let mut rest = list;
        while let Some((piece, tail)) = next_piece(rest) {
            self.step(font, piece)?;
            rest = tail;
        }
        Ok(())
    }

    /// The value where the tokens run out, at that place.
    #[tactic(auto, unfolding(crate::specs::Machine::finish))]
    fn finish(&mut self, font: &FontUnits, end: u32) -> Result<Value, Fault>
        ensures { result ≡ machine.finish font.now end self.old }
    {
        let Some(x) = operand(font, self.mode) else {
            return Err(misfit(end));
        };
        let value = self.close(x);
        match self.frames.pop() {
            None => Ok(Value {
                number: value?,
                unit: self.unit,
            }),
            Some(_) => Err(misfit(end)),
        }
    }
}

/// The value of any expression; `at` is the place of an empty one.
#[tactic(auto, unfolding(crate::specs::Evaluated::evaluated))]
fn by_machine(list: &[Tok], font: &FontUnits, at: u32) -> Result<Value, Fault>
    ensures { result ≡ spec.evaluated font.now at list.now }
{
    let mut state = ExprState::new();
    state.run(font, list)?;
    state.finish(font, end_of(at, list))
}

/// The value of an expression, and whether a unit stands anywhere in it.
///
/// The grammar is asked first. `Expression` stands at the first piece that no text of the grammar goes on
/// with, where a run of letters counts as one piece, at its first letter; a wrong count of arguments is
/// found at its `,` or `)` and stands at the name; where the tokens run out, the place is the last of
/// them, or `at` where there is none. `TooDeep` stands at a 65th open parenthesis, call or `?`. Then the
/// value is found, left to right: `TooLarge`, `DivZero` and `Domain` stand at the decimal, operator or
/// name. A plain decimal is read without the machine.
#[tactic(auto, using(crate::proofs::Runs::answer_means))]
pub fn eval(list: &[Tok], font: FontUnits, at: u32) -> Result<Value, Fault>
    ensures means { Evaluates font at list.now result }
    ensures value { result ≡ spec.evaluated font at list.now }
{
    match plain_value(list, &font) {
        Some(found) => found,
        None => by_machine(list, &font, at),
    }
}
