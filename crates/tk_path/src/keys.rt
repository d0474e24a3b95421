//! Key lists in pictures, and styles that run by themselves.

ghost use Rattle.std.specs.Prelude.{◌≡◌, ◌≤◌, ◌<◌, ◌+◌, length, IfOk, OnOk, is_some};
ghost use Rattle.tk_characters.specs.Characters.{right_bracket};
ghost use Rattle.tk_token.specs.declared.Code.TheVariants.{PathSyntax};
ghost use Rattle.tk_token.specs.Answers.{or_fault};
ghost use Rattle.tk_token.specs.Groups.{cut, before_char};
ghost use Rattle.tk_token.specs.Refusals.{Gives};
ghost use Rattle.tk_token.specs.Texts as texts;
ghost use Rattle.tk_expand.specs.Unread.{Unread};
ghost use Rattle.tk_keys.specs.Environment.{tikz_path};
ghost use Rattle.tk_keys.specs.Keys.{run_at};
ghost use Rattle.tk_expr.specs.Evaluates.{Evaluation, IsEvaluation};
ghost use Rattle.tk_keys.specs.State.{env_of, given_of, most_undone};
ghost use Rattle.tk_keytext.specs.Parts.{parts_of};
ghost use Rattle.tk_path.specs.Keys as keys;
ghost use Rattle.tk_outline.specs.CurrentPaths.{CurrentPath as ACurrentPath};
ghost use Rattle.tk_path.specs.Views.{style_name, configuration_of, lookahead_of, KeepsDrawn};
ghost use Rattle.tk_path.specs.Undoing.{most_steps, with_taken};

use crate::drawer::Drawer;
use std::alloc::AllocError;
use std::sync::ledger::Ledger;
use tk_expand::{Input, is_there};
use tk_keys::Dir;
use tk_store::Steps;
use tk_token::{Code, Refusal, Tok};

/// The styles that run by themselves.
#[derive(Clone, Copy)]
pub enum Style {
    EveryPicture,
    EveryScope,
    EveryPath,
}

impl Style {
    /// Its name.
    fn name(self) -> &'static str
        ensures { result.now ≡ style_name self }
    {
        match self {
            Style::EveryPicture => "every picture",
            Style::EveryScope => "every scope",
            Style::EveryPath => "every path",
        }
    }

    /// Its full path.
    fn path(self) -> &'static str
        ensures { result.now ≡ tikz_path (style_name self) }
    {
        match self {
            Style::EveryPicture => "/tikz/every picture",
            Style::EveryScope => "/tikz/every scope",
            Style::EveryPath => "/tikz/every path",
        }
    }
}

impl Drawer {
    /// Runs a key list, whose command stands at a place; it begins at /tikz.
    #[tactic(auto, unfolding(crate::specs::Keys::with_keys))]
    pub(crate) fn run_keys<L: Ledger>(
        &mut self,
        list: &[Tok],
        at: u32,
        steps: &mut Steps<L>,
    ) -> Result<(), Refusal>
        ensures gives { (ev : Evaluation) → IsEvaluation ev → (path : ACurrentPath) (rest : Unread)
            → Gives (λ _. configuration_of self.new path rest) result
            (keys.with_keys (given_of ev self.old.state) at list.now
            (configuration_of self.old path rest)) }
        ensures kept { OnOk result (KeepsDrawn self.old self.new) }
        ensures used { OnOk result (self.old.state.units ≤ self.new.state.units) }
        ensures low { steps.old ≤ steps.new }
        ensures high { steps.new
            ≤ most_undone steps.old self.old.state (length (parts_of list.now)) }
        ensures most { OnOk result (most_undone steps.new self.new.state 0
            ≤ most_undone steps.old self.old.state (length (parts_of list.now))) }
    {
        let dir = Dir::new(self.state.allocator(), "/tikz")?;
        self.state.run_list(dir, list, at, steps)?;
        Ok(())
    }

    /// Runs the keys of a text, all of whose tokens stand at a place; they begin at /tikz.
    #[tactic(auto, unfolding(crate::specs::Keys::with_keys))]
    pub fn run_written<L: Ledger>(
        &mut self,
        text: &str,
        at: u32,
        steps: &mut Steps<L>,
    ) -> Result<(), Refusal>
        ensures gives { (ev : Evaluation) → IsEvaluation ev → (path : ACurrentPath) (rest : Unread)
            → Gives (λ _. configuration_of self.new path rest) result
            (keys.with_keys (given_of ev self.old.state) at (texts.tokens_of at text.now)
            (configuration_of self.old path rest)) }
        ensures kept { OnOk result (KeepsDrawn self.old self.new) }
        ensures used { OnOk result (self.old.state.units ≤ self.new.state.units) }
        ensures low { steps.old ≤ steps.new }
        ensures high { steps.new
            ≤ most_undone steps.old self.old.state
            (length (parts_of (texts.tokens_of at text.now))) }
        ensures most { OnOk result (most_undone steps.new self.new.state 0
            ≤ most_undone steps.old self.old.state
            (length (parts_of (texts.tokens_of at text.now)))) }
    {
        self.state.run_written(text, at, steps)?;
        Ok(())
    }

    /// Whether a style has a run.
    fn has_run(&self, style: Style) -> bool
        ensures { result ≡ is_some (run_at (env_of self.now.state) (tikz_path (style_name style))) }
    {
        match self.state.store().get_key(style.path()) {
            Some(entry) => entry.run.is_some(),
            None => false,
        }
    }

    /// Runs a style by itself at a place, where it has a run.
    #[tactic(auto, unfolding(crate::specs::Keys::with_style))]
    pub fn run_style<L: Ledger>(
        &mut self,
        style: Style,
        at: u32,
        steps: &mut Steps<L>,
    ) -> Result<(), Refusal>
        ensures gives { (ev : Evaluation) → IsEvaluation ev → (path : ACurrentPath) (rest : Unread)
            → Gives (λ _. configuration_of self.new path rest) result
            (keys.with_style (given_of ev self.old.state) at (style_name style)
            (configuration_of self.old path rest)) }
        ensures kept { OnOk result (KeepsDrawn self.old self.new) }
        ensures used { OnOk result (self.old.state.units ≤ self.new.state.units) }
        ensures low { steps.old ≤ steps.new }
        ensures high { steps.new ≤ most_undone steps.old self.old.state 1 }
        ensures most { OnOk result (most_undone steps.new self.new.state 0
            ≤ most_undone steps.old self.old.state 1) }
    {
        if self.has_run(style) {
            return self.run_written(style.name(), at, steps);
        }
        Ok(())
    }

    /// Runs options, whose `[` was taken at a place.
    #[tactic(auto, unfolding(crate::specs::Keys::options, crate::specs::Keys::option_list))]
    pub(crate) fn options<L: Ledger>(
        &mut self,
        input: &mut Input,
        at: u32,
        steps: &mut Steps<L>,
    ) -> Result<(), Refusal>
        ensures gives { (ev : Evaluation) → IsEvaluation ev → (path : ACurrentPath)
            → Gives (λ _. configuration_of self.new path input.new) result
            (keys.options (given_of ev self.old.state) at
            (configuration_of self.old path input.old)) }
        ensures kept { OnOk result (KeepsDrawn self.old self.new) }
        ensures high { steps.new ≤ most_steps steps.old self.old (length input.old.rest) }
        ensures most { OnOk result (most_steps steps.new self.new (length input.new.rest)
            ≤ most_steps steps.old self.old (length input.old.rest)) }
    {
        let list = option_list(input, at)?;
        self.run_keys(&list, at, steps)
    }

    /// Runs options that may stand next.
    #[tactic(auto, unfolding(crate::specs::Keys::options_ahead))]
    fn options_ahead<L: Ledger>(
        &mut self,
        input: &mut Input,
        steps: &mut Steps<L>,
    ) -> Result<(), Refusal>
        ensures gives { (ev : Evaluation) → IsEvaluation ev → (path : ACurrentPath)
            → Gives (λ _. configuration_of self.new path input.new) result
            (keys.options_ahead (given_of ev self.old.state)
            (configuration_of self.old path input.old)) }
        ensures kept { OnOk result (KeepsDrawn self.old self.new) }
        ensures high { steps.new ≤ most_steps steps.old self.old (length input.old.rest) }
        ensures most { OnOk result (most_steps steps.new self.new (length input.new.rest)
            ≤ most_steps steps.old self.old (length input.old.rest)) }
    {
        let first = self.ahead(input)?;
        self.options_from(input, first, steps)
    }

    /// Runs options that begin with a token which was taken, or puts it back.
    #[tactic(auto, unfolding(crate::specs::Keys::options_from))]
    fn options_from<L: Ledger>(
        &mut self,
        input: &mut Input,
        first: Option<Tok>,
        steps: &mut Steps<L>,
    ) -> Result<(), Refusal>
        ensures gives { (ev : Evaluation) → IsEvaluation ev → (path : ACurrentPath)
            → Gives (λ _. configuration_of self.new path input.new) result
            (keys.options_from (given_of ev self.old.state)
            (lookahead_of first self.old path input.old)) }
        ensures kept { OnOk result (KeepsDrawn self.old self.new) }
        ensures high { steps.new ≤ most_steps steps.old self.old (with_taken first input.old) }
        ensures most { OnOk result (most_steps steps.new self.new (length input.new.rest)
            ≤ most_steps steps.old self.old (with_taken first input.old)) }
    {
        if is_there(first, '[') {
            let at = input.place(first);
            return self.options(input, at, steps);
        }
        Ok(self.put_back(input, first)?)
    }

    /// Puts a token that was taken in front again.
    pub(crate) fn put_back(&self, input: &mut Input, first: Option<Tok>) -> Result<(), AllocError>
        ensures gives { (path : ACurrentPath)
            → OnOk result (configuration_of self.now path input.new
            ≡ keys.put_back first (configuration_of self.now path input.old)) }
        ensures list { OnOk result (length input.new.rest ≡ with_taken first input.old) }
    {
        match first {
            Some(tok) => input.give_back(tok),
            None => Ok(()),
        }
    }

    /// Runs what a picture or a scope begins with, whose command stands at a place: a style, and options.
    #[tactic(auto, unfolding(crate::specs::Keys::with_style_and_options))]
    pub fn run_style_and_options<L: Ledger>(
        &mut self,
        input: &mut Input,
        style: Style,
        at: u32,
        steps: &mut Steps<L>,
    ) -> Result<(), Refusal>
        ensures gives { (ev : Evaluation) → IsEvaluation ev → (path : ACurrentPath)
            → Gives (λ _. configuration_of self.new path input.new) result
            (keys.with_style_and_options (given_of ev self.old.state) at (style_name style)
            (configuration_of self.old path input.old)) }
        ensures kept { OnOk result (KeepsDrawn self.old self.new) }
        ensures high { steps.new ≤ most_steps steps.old self.old (length input.old.rest + 1) }
        ensures most { OnOk result (most_steps steps.new self.new (length input.new.rest)
            ≤ most_steps steps.old self.old (length input.old.rest + 1)) }
    {
        self.run_style(style, at, steps)?;
        self.options_ahead(input, steps)
    }
}

/// Reads the key list of options, whose `[` was taken at a place, with its `]`.
pub(crate) fn option_list(input: &mut Input, at: u32) -> Result<Vec<Tok>, Refusal>
    ensures gives { Gives (λ list. cut list.items input.new.rest) result
        (or_fault (before_char right_bracket input.old.rest) PathSyntax at) }
    ensures shorter { IfOk result
        (λ list. length list.items + length input.new.rest < length input.old.rest) }
    ensures end { OnOk result (input.new.end ≡ input.old.end) }
{
    match input.until(']')? {
        Some(list) => Ok(list),
        None => Err(Refusal::new(Code::PathSyntax, at)),
    }
}
