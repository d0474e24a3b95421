//! Key lists that are given as texts, and the short way of those that have paths drawn or filled, which run for each
//! path.

ghost use Rattle.std.specs.Prelude.{◌≡◌, ◌<◌, ◌≤◌, ◌+◌, ◌-◌, ◌*◌, ℕ, length, Ok, OnOk, codes, true, false};
ghost use Rattle.tk_token.specs.Refusals.{Gives};
ghost use Rattle.tk_token.specs.Texts as texts;
ghost use Rattle.tk_expr.specs.Evaluates.{Evaluation, IsEvaluation};
ghost use Rattle.tk_keys.specs.Painting.{paint_name, unchanged, PaintsAlone, painting};
ghost use Rattle.tk_keys.specs.Environment.{tikz_path};
ghost use Rattle.tk_keys.specs.Settings.{A_key_list, runs};
ghost use Rattle.tk_keys.specs.State.{env_of, given_of, situation_of, ending_of, most_undone, Keeps, Makes};
ghost use Rattle.tk_keytext.specs.Parts.{parts_of};

use crate::runs::MOST_LISTS;
use crate::{Dir, State};
use std::sync::ledger::Ledger;
use tk_native::PaintKey::{Draw, Fill};
use tk_native::{LookKey, Native, PaintKey};
use tk_store::{Entry, Need, Run, Steps};
use tk_token::{Refusal, tokens_of};

impl State {
    /// Runs the key list that is written so, whose tokens all stand at `at`, as its command does, with the default path
    /// /tikz; gives the default path that it ends with.
    ///
    /// It runs as `run_list` runs those tokens, with the same faults. `draw`, `fill` and `draw,fill` take no memory
    /// while they are the keys that are there from the beginning.
    pub fn run_written<L: Ledger>(
        &mut self,
        text: &str,
        at: u32,
        steps: &mut Steps<L>,
    ) -> Result<Dir, Refusal>
        ensures gives { (ev : Evaluation) → IsEvaluation ev → Gives
            (λ last. ending_of self.new last) result
            (runs (given_of ev self.old)
            (A_key_list (situation_of self.old) (codes "/tikz") (texts.tokens_of at text.now) at)) }
        ensures kept { OnOk result (Keeps self.old self.new) }
        ensures used { OnOk result (self.old.units ≤ self.new.units) }
        ensures made { OnOk result (Makes (3 * (length (parts_of (texts.tokens_of at text.now))
            + (self.new.units - self.old.units))) self.old self.new) }
        ensures low { steps.old ≤ steps.new }
        ensures high { steps.new
            ≤ most_undone steps.old self.old (length (parts_of (texts.tokens_of at text.now))) }
        ensures most { OnOk result (most_undone steps.new self.new 0
            ≤ most_undone steps.old self.old (length (parts_of (texts.tokens_of at text.now)))) }
    {
        if self.lists < MOST_LISTS && self.run_unchanged(text) {
            return Ok(Dir::tikz());
        }
        let list = tokens_of(self.alloc, at, text)?;
        self.run_list(Dir::tikz(), &list, at, steps)
    }

    /// Runs `draw`, `fill` or `draw,fill` without their tokens, where that is the text and they are the keys that are
    /// there from the beginning; tells whether it did.
    fn run_unchanged(&mut self, text: &str) -> bool
        requires { self.old.lists < 256 }
        ensures runs { result ≡ true → (ev : Evaluation) (at : ℕ)
            → runs (given_of ev self.old)
            (A_key_list (situation_of self.old) (codes "/tikz") (texts.tokens_of at text.now) at)
            ≡ Ok (ending_of self.new (codes "/tikz")) }
        ensures kept { result ≡ true → Keeps self.old self.new }
        ensures made { result ≡ true → Makes 0 self.old self.new }
        ensures paid { result ≡ true → self.new.units ≡ self.old.units }
        ensures same { result ≡ false → self.new ≡ self.old }
    {
        match text {
            "draw" if self.paints_alone(Draw) => self.switch_on(Draw),
            "fill" if self.paints_alone(Fill) => self.switch_on(Fill),
            "draw,fill" if self.paints_alone(Draw) && self.paints_alone(Fill) => {
                self.switch_on(Draw);
                self.switch_on(Fill);
            }
            _ => return false,
        }
        true
    }

    /// Whether that key runs as it does from the beginning, and needs no value.
    fn paints_alone(&self, key: PaintKey) -> bool
        ensures { result ≡ true → PaintsAlone (env_of self.now) key }
    {
        match self.store.get_key(paint_path(key)) {
            Some(entry) => is_unchanged(entry, key),
            None => false,
        }
    }

    /// Has paths drawn or filled from there on.
    fn switch_on(&mut self, key: PaintKey)
        ensures set { situation_of self.new ≡ painting key (situation_of self.old) }
        ensures kept { Keeps self.old self.new }
        ensures made { Makes 0 self.old self.new }
        ensures paid { self.new.units ≡ self.old.units }
    {
        match key {
            Draw => self.graphics.look.draw_on = true,
            Fill => self.graphics.look.fill_on = true,
        }
    }
}

/// The full path of a key.
fn paint_path(key: PaintKey) -> &'static str
    ensures { result.now ≡ tikz_path (paint_name key) }
{
    match key {
        Draw => "/tikz/draw",
        Fill => "/tikz/fill",
    }
}

/// Whether an entry runs as that of a key does from the beginning, and needs no value.
fn is_unchanged(entry: &Entry, key: PaintKey) -> bool
    ensures { result ≡ true → entry.now ≡ unchanged key entry.now.value }
{
    match (&entry.run, &entry.need) {
        (Some(Run::Native(Native::Look(LookKey::Paint(found)))), Need::Free) => *found == key,
        _ => false,
    }
}
