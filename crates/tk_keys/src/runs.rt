//! Runs: key lists, whose code is settings, and settings, which have key lists.

ghost use Rattle.std.specs.Prelude.{◌≡◌, ◌+◌, ◌-◌, ◌*◌, ◌≤◌, ◌<◌, length, IfOk, OnOk, Ok, false, option_copied};
ghost use Rattle.tk_token.specs.Refusals.{Gives};
ghost use Rattle.tk_expand.specs.Unread.{Unread, unread};
ghost use Rattle.tk_expr.specs.Evaluates.{Evaluation, IsEvaluation};
ghost use Rattle.tk_expr.specs.Evaluated.{evaluated};
ghost use Rattle.tk_keytext.specs.KeyParts.{key_part};
ghost use Rattle.tk_keytext.specs.Parts.{parts_of};
ghost use Rattle.tk_keys.specs.Settings as settings;
ghost use Rattle.tk_keys.specs.Settings.{A_key_list, Some_settings, one_setting, runs, setting_of};
ghost use Rattle.tk_keys.specs.State.{given_of, situation_of, standing_of, ending_of, set_of, Keeps, Makes, Pays};
ghost use Rattle.tk_keys.specs.State.{most_undone};
ghost use Rattle.tk_keys.specs.Views.{keys_from, contents_run};

use crate::setting::{Origin, Setting};
use crate::{Dir, State};
use std::alloc::AllocError;
use std::sync::ledger::Ledger;
use tk_expand::Input;
use tk_keytext::{Part, split_list};
use tk_store::{Body, Steps};
use tk_token::{Code, Refusal, Tok, end_of};

/// How many key lists can run inside one another.
pub(crate) const MOST_LISTS: usize = 256;

impl State {
    /// Runs a key list with a default path, whose command stands at `at`; gives the default path that it ends with.
    ///
    /// A part runs its key, or stores a value, or is handled, or another key runs for it; its code runs as settings do,
    /// and is the text that stood in the key when the part began, whatever it sets. The fault `KeyDepth` stands at
    /// `at`, where 256 key lists run; those of a part stand at the part, and those of its code in the code.
    ///
    /// A part makes at most three settings of its own, and its code no more than three for each unit that it pays. A
    /// step is one setting that is undone, where a group in code ends.
    pub fn run_list<L: Ledger>(
        &mut self,
        dir: Dir,
        list: &[Tok],
        at: u32,
        steps: &mut Steps<L>,
    ) -> Result<Dir, Refusal>
        ensures gives { (ev : Evaluation) → IsEvaluation ev → Gives
            (λ last. ending_of self.new last) result
            (runs (given_of ev self.old) (A_key_list (situation_of self.old) dir list.now at)) }
        ensures kept { OnOk result (Keeps self.old self.new) }
        ensures used { OnOk result (self.old.units ≤ self.new.units) }
        ensures made { OnOk result
            (Makes (3 * (length (parts_of list.now) + (self.new.units - self.old.units)))
            self.old self.new) }
        ensures low { steps.old ≤ steps.new }
        ensures high { steps.new ≤ most_undone steps.old self.old (length (parts_of list.now)) }
        ensures most { OnOk result (most_undone steps.new self.new 0
            ≤ most_undone steps.old self.old (length (parts_of list.now))) }
    {
        let mut dir = dir;
        self.run_keys(&mut dir, list, at, steps)?;
        Ok(dir)
    }

    /// Runs settings with a default path, whose list runs out at `at`; gives the default path that they end with, which
    /// only `\pgfkeysalso` changes.
    ///
    /// `NotASetting` stands at a token that begins no setting. A token and a unit make at most three settings each.
    pub fn run_settings<L: Ledger>(
        &mut self,
        dir: Dir,
        list: &[Tok],
        at: u32,
        steps: &mut Steps<L>,
    ) -> Result<Dir, Refusal>
        ensures gives { (ev : Evaluation) → IsEvaluation ev → Gives
            (λ last. ending_of self.new last) result
            (runs (given_of ev self.old)
            (Some_settings (standing_of self.old dir (unread list.now at)))) }
        ensures kept { OnOk result (Keeps self.old self.new) }
        ensures used { OnOk result (self.old.units ≤ self.new.units) }
        ensures made { OnOk result
            (Makes (3 * (length list.now + (self.new.units - self.old.units)))
            self.old self.new) }
        ensures low { steps.old ≤ steps.new }
        ensures high { steps.new ≤ most_undone steps.old self.old (length list.now) }
        ensures most { OnOk result (most_undone steps.new self.new 0
            ≤ most_undone steps.old self.old (length list.now)) }
    {
        let mut dir = dir;
        let list = Body::new(self.alloc, list)?;
        self.run_text(&mut dir, list, at, steps)?;
        Ok(dir)
    }

    /// Runs the one setting, other than a group, that begins with a token which was taken, and takes its further
    /// tokens; tells whether one begins there. The default path is the root. A token that it takes and a unit that it
    /// pays make at most three settings each.
    pub fn run_one<L: Ledger>(
        &mut self,
        first: Tok,
        input: &mut Input,
        steps: &mut Steps<L>,
    ) -> Result<bool, Refusal>
        ensures gives { (ev : Evaluation) → IsEvaluation ev → Gives
            (λ set. set_of set self.new input.new) result
            (one_setting (given_of ev self.old) first (situation_of self.old) input.old) }
        ensures state { result ≡ Ok false → self.new ≡ self.old }
        ensures list { result ≡ Ok false → input.new ≡ input.old }
        ensures kept { OnOk result (Keeps self.old self.new) }
        ensures used { OnOk result (self.old.units ≤ self.new.units) }
        ensures made { OnOk result
            (self.new.levels.top.settings + 3 * (self.old.units + length input.new.rest)
            ≤ self.old.levels.top.settings + 3 * (self.new.units + length input.old.rest + 1)) }
        ensures low { steps.old ≤ steps.new }
        ensures high { steps.new ≤ most_undone steps.old self.old (length input.old.rest + 1) }
        ensures most { OnOk result (most_undone steps.new self.new (length input.new.rest)
            ≤ most_undone steps.old self.old (length input.old.rest + 1)) }
    {
        let Some(setting) = self.setting_of(first.kind) else {
            return Ok(false);
        };
        let mut dir = Dir::root();
        self.set(setting, first.at, &mut dir, input, steps)?;
        Ok(true)
    }

    /// Runs a key list.
    #[tactic(auto, using(crate::proofs::Ran::list_is))]
    #[cycle(run)]
    fn run_keys<L: Ledger>(
        &mut self,
        dir: &mut Dir,
        list: &[Tok],
        at: u32,
        steps: &mut Steps<L>,
    ) -> Result<(), Refusal>
        ensures gives { Gives (λ _. ending_of self.new dir.new) result
            (runs (given_of evaluated self.old)
            (A_key_list (situation_of self.old) dir.old list.now at)) }
        ensures kept { OnOk result (Keeps self.old self.new) }
        ensures used { OnOk result (self.old.units ≤ self.new.units) }
        ensures low { steps.old ≤ steps.new }
        ensures high { steps.new ≤ most_undone steps.old self.old (length (parts_of list.now)) }
        ensures most { OnOk result (most_undone steps.new self.new 0
            ≤ most_undone steps.old self.old (length (parts_of list.now))) }
    {
        if self.lists >= MOST_LISTS {
            return Err(Refusal::new(Code::KeyDepth, at));
        }
        self.lists += 1;
        self.run_parts(dir, list, steps)?;
        self.lists -= 1;
        Ok(())
    }

    /// Runs the parts of a key list, one after the other.
    #[cycle(run)]
    fn run_parts<L: Ledger>(
        &mut self,
        dir: &mut Dir,
        list: &[Tok],
        steps: &mut Steps<L>,
    ) -> Result<(), Refusal>
        ensures gives { Gives (λ _. ending_of self.new dir.new) result
            (settings.parts (given_of evaluated self.old) (runs (given_of evaluated self.old))
            (parts_of list.now)
            dir.old (situation_of self.old)) }
        ensures kept { OnOk result (Keeps self.old self.new) }
        ensures used { OnOk result (self.old.units ≤ self.new.units) }
        ensures low { steps.old ≤ steps.new }
        ensures high { steps.new ≤ most_undone steps.old self.old (length (parts_of list.now)) }
        ensures most { OnOk result (most_undone steps.new self.new 0
            ≤ most_undone steps.old self.old (length (parts_of list.now))) }
    {
        let mut parts = split_list(list);
        while let Some(part) = parts.next() {
            self.run_part(&part, dir, steps)?;
        }
        Ok(())
    }

    /// Runs a part of a key list, and the text that it leaves.
    #[cycle(run)]
    fn run_part<L: Ledger>(
        &mut self,
        part: &Part,
        dir: &mut Dir,
        steps: &mut Steps<L>,
    ) -> Result<(), Refusal>
        ensures gives { Gives (λ _. ending_of self.new dir.new) result
            (settings.part_run (given_of evaluated self.old) (runs (given_of evaluated self.old))
            (key_part part.now)
            dir.old (situation_of self.old)) }
        ensures kept { OnOk result (Keeps self.old self.new) }
        ensures used { OnOk result (self.old.units ≤ self.new.units) }
        ensures low { steps.old ≤ steps.new }
        ensures high { steps.new ≤ most_undone steps.old self.old (1) }
        ensures most { OnOk result (most_undone steps.new self.new 0
            ≤ most_undone steps.old self.old (1)) }
    {
        let deed = self.part(part, dir)?;
        match deed.text {
            Some(text) => {
                let end = end_of(part.at, text.as_slice());
                self.run_text(dir, text, end, steps)
            }
            None => Ok(()),
        }
    }

    /// Runs settings up to the end of their list, which is at a place.
    #[cycle(run)]
    fn run_text<L: Ledger>(
        &mut self,
        dir: &mut Dir,
        text: Body,
        end: u32,
        steps: &mut Steps<L>,
    ) -> Result<(), Refusal>
        ensures gives { Gives (λ _. ending_of self.new dir.new) result
            (runs (given_of evaluated self.old)
            (Some_settings (standing_of self.old dir.old (unread text end)))) }
        ensures kept { OnOk result (Keeps self.old self.new) }
        ensures used { OnOk result (self.old.units ≤ self.new.units) }
        ensures low { steps.old ≤ steps.new }
        ensures high { steps.new ≤ most_undone steps.old self.old (length text) }
        ensures most { OnOk result (most_undone steps.new self.new 0
            ≤ most_undone steps.old self.old (length text)) }
    {
        let mut input = Input::new(self.alloc, text, end)?;
        while let Some(first) = self.next(&mut input)? {
            self.set_or_group(first, dir, &mut input, steps)?;
        }
        Ok(())
    }

    /// Runs the setting or the group that begins with a token which was taken.
    #[cycle(run)]
    fn set_or_group<L: Ledger>(
        &mut self,
        first: Tok,
        dir: &mut Dir,
        input: &mut Input,
        steps: &mut Steps<L>,
    ) -> Result<(), Refusal>
        ensures gives { Gives (λ _. standing_of self.new dir.new input.new) result
            (settings.set_or_group (given_of evaluated self.old)
            (runs (given_of evaluated self.old))
            (setting_of self.old.names first.kind) first (standing_of self.old dir.old input.old)) }
        ensures kept { OnOk result (Keeps self.old self.new) }
        ensures used { OnOk result (self.old.units ≤ self.new.units) }
        ensures end { OnOk result (input.new.end ≡ input.old.end) }
        ensures work { OnOk result ((self.new.budget - self.new.units) + length input.new.rest
            ≤ (self.old.budget - self.old.units) + length input.old.rest) }
        ensures low { steps.old ≤ steps.new }
        ensures high { steps.new ≤ most_undone steps.old self.old (length input.old.rest + 1) }
        ensures most { OnOk result (most_undone steps.new self.new (length input.new.rest)
            ≤ most_undone steps.old self.old (length input.old.rest + 1)) }
    {
        match self.setting_of(first.kind) {
            Some(setting) => self.set(setting, first.at, dir, input, steps),
            None if first.kind.is_open() => self.group(first.at, dir, input, steps),
            None => Err(Refusal::new(Code::NotASetting, first.at)),
        }
    }

    /// Runs a setting, whose first token was taken.
    #[cycle(run)]
    fn set<L: Ledger>(
        &mut self,
        setting: Setting,
        at: u32,
        dir: &mut Dir,
        input: &mut Input,
        steps: &mut Steps<L>,
    ) -> Result<(), Refusal>
        ensures gives { Gives (λ _. standing_of self.new dir.new input.new) result
            (settings.set (given_of evaluated self.old)
            (runs (given_of evaluated self.old)) setting at
            (standing_of self.old dir.old input.old)) }
        ensures kept { OnOk result (Keeps self.old self.new) }
        ensures used { OnOk result (self.old.units ≤ self.new.units) }
        ensures end { OnOk result (input.new.end ≡ input.old.end) }
        ensures work { OnOk result ((self.new.budget - self.new.units) + length input.new.rest
            ≤ (self.old.budget - self.old.units) + length input.old.rest) }
        ensures low { steps.old ≤ steps.new }
        ensures high { steps.new ≤ most_undone steps.old self.old (length input.old.rest + 1) }
        ensures most { OnOk result (most_undone steps.new self.new (length input.new.rest)
            ≤ most_undone steps.old self.old (length input.old.rest + 1)) }
    {
        match setting {
            Setting::Nothing => Ok(()),
            Setting::Define(kind) => self.define(kind, input),
            Setting::Keys(origin) => self.set_keys(origin, at, dir, input, steps),
            Setting::SetValue => self.set_value(at, dir, input),
            Setting::GetValue => self.get_value(at, dir, input),
            Setting::SetNumber => self.set_number(at, input),
            Setting::SetWhole => self.set_whole(at, input),
        }
    }

    /// Runs the key list of `\pgfkeys`, `\pgfkeysalso` or `\tikzset`.
    #[cycle(run)]
    fn set_keys<L: Ledger>(
        &mut self,
        origin: Origin,
        at: u32,
        dir: &mut Dir,
        input: &mut Input,
        steps: &mut Steps<L>,
    ) -> Result<(), Refusal>
        ensures gives { Gives (λ _. standing_of self.new dir.new input.new) result
            (settings.set_keys (given_of evaluated self.old)
            (runs (given_of evaluated self.old)) origin at
            (standing_of self.old dir.old input.old)) }
        ensures kept { OnOk result (Keeps self.old self.new) }
        ensures used { OnOk result (self.old.units ≤ self.new.units) }
        ensures end { OnOk result (input.new.end ≡ input.old.end) }
        ensures work { OnOk result ((self.new.budget - self.new.units) + length input.new.rest
            ≤ (self.old.budget - self.old.units) + length input.old.rest) }
        ensures low { steps.old ≤ steps.new }
        ensures high { steps.new ≤ most_undone steps.old self.old (length input.old.rest) }
        ensures most { OnOk result (most_undone steps.new self.new (length input.new.rest)
            ≤ most_undone steps.old self.old (length input.old.rest)) }
    {
        let list = input.argument(at)?;
        self.run_keys_from(origin, dir, &list, at, steps)?;
        input.keep(list);
        Ok(())
    }

    /// Runs a key list with the default path from which its command has it begin. The running default path stays,
    /// except behind `\pgfkeysalso`.
    #[cycle(run)]
    fn run_keys_from<L: Ledger>(
        &mut self,
        origin: Origin,
        dir: &mut Dir,
        list: &[Tok],
        at: u32,
        steps: &mut Steps<L>,
    ) -> Result<(), Refusal>
        ensures gives { (rest : Unread) → Gives (λ _. standing_of self.new dir.new rest) result
            (keys_from (given_of evaluated self.old) origin at list.now
            (standing_of self.old dir.old rest)) }
        ensures kept { OnOk result (Keeps self.old self.new) }
        ensures used { OnOk result (self.old.units ≤ self.new.units) }
        ensures low { steps.old ≤ steps.new }
        ensures high { steps.new ≤ most_undone steps.old self.old (length (parts_of list.now)) }
        ensures most { OnOk result (most_undone steps.new self.new 0
            ≤ most_undone steps.old self.old (length (parts_of list.now))) }
    {
        match origin {
            Origin::Here => self.run_keys(dir, list, at, steps),
            Origin::Root => self.run_keys(&mut Dir::root(), list, at, steps),
            Origin::Tikz => self.run_keys(&mut Dir::tikz(), list, at, steps),
        }
    }

    /// Runs a group, whose `{` was taken: only the units come back from it.
    #[cycle(run)]
    fn group<L: Ledger>(
        &mut self,
        at: u32,
        dir: &mut Dir,
        input: &mut Input,
        steps: &mut Steps<L>,
    ) -> Result<(), Refusal>
        ensures gives { Gives (λ _. standing_of self.new dir.new input.new) result
            (settings.group (given_of evaluated self.old) (runs (given_of evaluated self.old)) at
            (standing_of self.old dir.old input.old)) }
        ensures kept { OnOk result (Keeps self.old self.new) }
        ensures used { OnOk result (self.old.units ≤ self.new.units) }
        ensures end { OnOk result (input.new.end ≡ input.old.end) }
        ensures work { OnOk result ((self.new.budget - self.new.units) + length input.new.rest
            ≤ (self.old.budget - self.old.units) + length input.old.rest) }
        ensures low { steps.old ≤ steps.new }
        ensures high { steps.new ≤ most_undone steps.old self.old (length input.old.rest) }
        ensures most { OnOk result (most_undone steps.new self.new (length input.new.rest)
            ≤ most_undone steps.old self.old (length input.old.rest)) }
    {
        let Some(contents) = input.group()? else {
            return Err(Refusal::new(Code::NotASetting, at));
        };
        self.run_inside(at, dir, contents, steps)
    }

    /// Runs the contents of a group, which stands at a place, at a level of their own, with a copy of a default path.
    #[cycle(run)]
    fn run_inside<L: Ledger>(
        &mut self,
        at: u32,
        dir: &Dir,
        contents: Vec<Tok>,
        steps: &mut Steps<L>,
    ) -> Result<(), Refusal>
        ensures gives { (rest : Unread) → Gives (λ _. standing_of self.new dir.now rest) result
            (contents_run (given_of evaluated self.old) at contents.items
            (standing_of self.old dir.now rest)) }
        ensures pays { OnOk result (Pays self.old self.new) }
        ensures used { OnOk result (self.old.units ≤ self.new.units) }
        ensures low { steps.old ≤ steps.new }
        ensures high { steps.new ≤ most_undone steps.old self.old (length contents.items) }
        ensures most { OnOk result (most_undone steps.new self.new 0
            ≤ most_undone steps.old self.old (length contents.items)) }
    {
        self.open(at)?;
        let end = end_of(at, &contents);
        let mut inside = dir.copy()?;
        self.run_text(&mut inside, Body::from_vec(contents)?, end, steps)?;
        self.close(steps);
        Ok(())
    }
}
