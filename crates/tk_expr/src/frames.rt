//! What is open in an expression.

ghost use Rattle.std.specs.Prelude.{◌≡◌, ◌∷◌, [], ◌<◌, ◌≤◌, length, drop, nat_lt, true, false, MatchOption, OnSome};
ghost use Rattle.std.specs.Prelude.{OnOk, OnErr, IfErr};
ghost use Rattle.tk_token.specs.declared.Code.TheVariants.{TooDeep};
ghost use Rattle.tk_expr.specs.declared.machine.OpenFrame.TheVariants.{Else};
ghost use Rattle.tk_expr.specs.Machine as spec;

use crate::machine::OpenFrame;
use crate::values::{Found, chosen};
use std::marker::Model;
use tk_num::Scaled;
use tk_token::{Code, Fault};

/// The parentheses and `?` that may be open.
const MOST_FRAMES: usize = 64;

/// What is open, innermost first: at most 64 frames. It takes no memory.
// An `ArrayVec` would do the same. Of a call that moves a frame into one the checker makes a plan that it can't build,
// since it isn't told where the numbers in the frame come from. So it is an array with a length.
#[derive(Drop)]
pub struct Frames {
    stack: [OpenFrame; 64],
    len: usize,
}

impl Model for Frames {
    ghost use Rattle.std.specs.Prelude.{List, reverse, take, ◌≤◌};
    ghost use Rattle.tk_expr.specs.declared.machine.OpenFrame.{OpenFrame};

    ghost Value = { List OpenFrame };

    ghost view = { λ f. reverse (take f.len f.stack) };

    ghost invariant = { λ f. f.len ≤ 64 };
}

impl Frames {
    /// Nothing is open.
    pub(crate) fn new() -> Frames
        ensures { result ≡ [] }
    {
        Frames {
            stack: [OpenFrame::Then(Ok(Scaled::within(0))); 64],
            len: 0,
        }
    }

    /// Opens one more, at that place; TooDeep where 64 are open.
    pub(crate) fn push(&mut self, frame: OpenFrame, at: u32) -> Result<(), Fault>
        ensures room { OnOk result (nat_lt (length self.old) 64 ≡ true) }
        ensures ok { OnOk result (self.new ≡ frame ∷ self.old) }
        ensures full { OnErr result (nat_lt (length self.old) 64 ≡ false) }
        ensures err { IfErr result (λ e. e ≡ record { code = TooDeep; at = at }) }
    {
        if self.len >= MOST_FRAMES {
            return Err(Fault::new(Code::TooDeep, at));
        }
        self.stack[self.len] = frame;
        self.len += 1;
        Ok(())
    }

    /// Takes the innermost one off.
    pub(crate) fn pop(&mut self) -> Option<OpenFrame>
        ensures frame { MatchOption result ((self.old ≡ []) × (self.new ≡ []))
            (λ frame. self.old ≡ frame ∷ self.new) }
        ensures room { OnSome result (length self.new < 64) }
    {
        if self.len == 0 {
            return None;
        }
        self.len -= 1;
        Some(self.stack[self.len])
    }

    /// The condition and the first value of the innermost one, where it is a `?` that has its `:`.
    fn choice(&self) -> Option<(Found, Found)>
        ensures { MatchOption result (spec.is_choice self.now ≡ false)
            (λ found. self.now ≡ Else found.0 found.1 ∷ drop 1 self.now) }
    {
        if self.len == 0 {
            return None;
        }
        match self.stack[self.len - 1] {
            OpenFrame::Else(condition, first) => Some((condition, first)),
            _ => None,
        }
    }

    /// Takes off each `?` that has its `:`, which end with a value, and gives the value that they come to.
    pub(crate) fn close(&mut self, value: Found) -> Found
        ensures value { result ≡ (spec.closed value self.old).value }
        ensures frames { self.new ≡ (spec.closed value self.old).frames }
    {
        let mut value = value;
        while let Some((condition, first)) = self.choice() {
            let _ = self.pop();
            value = chosen_found(condition, first, value);
        }
        value
    }
}

/// What a `?`, its `:` and the value behind that come to.
fn chosen_found(condition: Found, x: Found, y: Found) -> Found
    ensures { result ≡ spec.choice_found condition x y }
{
    Ok(chosen(condition?, x?, y?))
}
