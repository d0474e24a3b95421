//! Paths.

ghost use Rattle.std.specs.Prelude.{◌≡◌, OnOk, ◌≤◌, length};
ghost use Rattle.tk_token.specs.Kinds.{is_open};
ghost use Rattle.tk_token.specs.Refusals.{Gives};
ghost use Rattle.tk_expand.specs.Reading.{is_there as stands_there};
ghost use Rattle.tk_expr.specs.Evaluates.{Evaluation, IsEvaluation};
ghost use Rattle.tk_keys.specs.State.{given_of, Keeps};
ghost use Rattle.tk_outline.specs.CurrentPaths.{no_path};
ghost use Rattle.tk_path.specs.Paths as paths;
ghost use Rattle.tk_path.specs.Paths.{stretch};
ghost use Rattle.tk_path.specs.Views.{given_to, configuration_of, lookahead_of, path_flow_of, IsSound, OnlyPays, KeepsDrawn};
ghost use Rattle.tk_path.specs.Undoing.{most_steps, with_taken};

use crate::drawer::{Drawer, Flow};
use crate::targets::begins_coordinate;
use crate::words::Words;
use std::sync::ledger::Ledger;
use tk_expand::{Input, is_there};
use tk_outline::CurrentPath;
use tk_store::Steps;
use tk_token::{Refusal, Tok};

/// What operations stand in.
#[derive(Clone, Copy)]
pub(crate) enum PathOpener {
    /// A path, up to its `;`.
    Path,
    /// A group on a path, up to its `}`.
    Group,
}

impl PathOpener {
    /// Whether a token ends them.
    fn ends_at(self, first: Option<Tok>) -> bool
        ensures { result ≡ stands_there (paths.ends self) first }
    {
        match self {
            PathOpener::Path => is_there(first, ';'),
            PathOpener::Group => match first {
                Some(tok) => tok.kind.is_close(),
                None => false,
            },
        }
    }
}

impl Drawer {
    /// Draws a path, from behind its command and what that begins with, to its `;`, inside the level that the caller
    /// opened: a path with a piece widens the frame, and is an item if the look behind its last operation draws or
    /// fills it.
    ///
    /// The operations are those of the PGF manual, section "Syntax for Path Specifications": coordinates, `--`, `-|`,
    /// `|-`, `..`, `to`, `rectangle`, `circle`, `ellipse`, `arc`, `grid`, `cycle` as a target, groups and options.
    /// `PathSyntax` stands at the first token that fits none, or where the list runs out; `Unbuilt` at `node`,
    /// `coordinate` and `foreach`, and at the `(` of a node's name. `Coordinate` stands at a `(`, and `Singular`,
    /// `TooLarge` and `Domain` of what an operation draws at its first token; `Levels` at the `{` or `[` that would
    /// open a 129th level. The faults of expressions, keys and calls stand where those say. Behind a refusal nothing is
    /// said of the drawer.
    pub fn run_path<L: Ledger>(
        &mut self,
        input: &mut Input,
        steps: &mut Steps<L>,
    ) -> Result<(), Refusal>
        requires sound { IsSound self.old }
        ensures gives { (ev : Evaluation) → IsEvaluation ev
            → Gives (λ _. configuration_of self.new no_path input.new) result
            (paths.path (given_of ev self.old.state)
            (configuration_of self.old no_path input.old)) }
        ensures sound { OnOk result (IsSound self.new) }
        ensures kept { OnOk result (Keeps self.old.state self.new.state) }
        ensures high { steps.new ≤ most_steps steps.old self.old (length input.old.rest) }
        ensures most { OnOk result (most_steps steps.new self.new (length input.new.rest)
            ≤ most_steps steps.old self.old (length input.old.rest)) }
    {
        self.path(input, steps)
    }

    /// Draws a path.
    #[tactic(auto, unfolding(crate::specs::Paths::path))]
    fn path<L: Ledger>(&mut self, input: &mut Input, steps: &mut Steps<L>) -> Result<(), Refusal>
        requires sound { IsSound self.old }
        ensures gives { Gives (λ _. configuration_of self.new no_path input.new) result
            (paths.path (given_to self.old) (configuration_of self.old no_path input.old)) }
        ensures sound { OnOk result (IsSound self.new) }
        ensures kept { OnOk result (Keeps self.old.state self.new.state) }
        ensures high { steps.new ≤ most_steps steps.old self.old (length input.old.rest) }
        ensures most { OnOk result (most_steps steps.new self.new (length input.new.rest)
            ≤ most_steps steps.old self.old (length input.old.rest)) }
    {
        let mut path = CurrentPath::new(self.state.allocator());
        self.operations(input, &mut path, PathOpener::Path, steps)?;
        Ok(self.add(path)?)
    }

    /// Draws operations, up to the end of what they stand in.
    #[cycle(operations)]
    fn operations<L: Ledger>(
        &mut self,
        input: &mut Input,
        path: &mut CurrentPath,
        opener: PathOpener,
        steps: &mut Steps<L>,
    ) -> Result<(), Refusal>
        ensures gives { Gives (λ _. configuration_of self.new path.new input.new) result
            (paths.operations (given_to self.old)
            (stretch opener (configuration_of self.old path.old input.old))) }
        ensures kept { OnOk result (KeepsDrawn self.old self.new) }
        ensures high { steps.new ≤ most_steps steps.old self.old (length input.old.rest) }
        ensures most { OnOk result (most_steps steps.new self.new (length input.new.rest)
            ≤ most_steps steps.old self.old (length input.old.rest)) }
    {
        loop {
            let first = self.ahead(input)?;
            match self.part_from(input, path, opener, first, steps)? {
                Flow::GoesOn => {}
                Flow::Finishes => return Ok(()),
            }
        }
    }

    /// Draws a part of a path that begins with a token which was taken.
    #[cycle(operations)]
    #[tactic(auto, unfolding(crate::specs::Paths::part_from))]
    fn part_from<L: Ledger>(
        &mut self,
        input: &mut Input,
        path: &mut CurrentPath,
        opener: PathOpener,
        first: Option<Tok>,
        steps: &mut Steps<L>,
    ) -> Result<Flow, Refusal>
        ensures gives { Gives (path_flow_of self.new path.new input.new) result
            (paths.part_from (given_to self.old) (paths.operations (given_to self.old)) opener
            (lookahead_of first self.old path.old input.old)) }
        ensures kept { OnOk result (KeepsDrawn self.old self.new) }
        ensures high { steps.new ≤ most_steps steps.old self.old (with_taken first input.old) }
        ensures most { OnOk result (most_steps steps.new self.new (length input.new.rest)
            ≤ most_steps steps.old self.old (with_taken first input.old)) }
    {
        if opener.ends_at(first) {
            return Ok(Flow::Finishes);
        }
        if opens_group(first) {
            let at = input.place(first);
            self.path_group(input, path, at, steps)?;
            return Ok(Flow::GoesOn);
        }
        self.plain_part(input, path, first, steps)?;
        Ok(Flow::GoesOn)
    }

    /// Draws a path group, whose `{` was taken, in a level of its own.
    #[cycle(operations)]
    #[tactic(auto, unfolding(crate::specs::Paths::path_group))]
    fn path_group<L: Ledger>(
        &mut self,
        input: &mut Input,
        path: &mut CurrentPath,
        at: u32,
        steps: &mut Steps<L>,
    ) -> Result<(), Refusal>
        ensures gives { Gives (λ _. configuration_of self.new path.new input.new) result
            (paths.path_group (given_to self.old) (paths.operations (given_to self.old)) at
            (configuration_of self.old path.old input.old)) }
        ensures kept { OnOk result (KeepsDrawn self.old self.new) }
        ensures high { steps.new ≤ most_steps steps.old self.old (length input.old.rest) }
        ensures most { OnOk result (most_steps steps.new self.new (length input.new.rest)
            ≤ most_steps steps.old self.old (length input.old.rest)) }
    {
        self.state.open(at)?;
        self.operations(input, path, PathOpener::Group, steps)?;
        self.state.close(steps);
        Ok(())
    }

    /// Draws a part of a path but groups and ends, that begins with a token which was taken.
    #[tactic(auto, unfolding(crate::specs::Paths::plain_part), using(tk_expr::proofs::Runs::evaluated_is_the_answer))]
    fn plain_part<L: Ledger>(
        &mut self,
        input: &mut Input,
        path: &mut CurrentPath,
        first: Option<Tok>,
        steps: &mut Steps<L>,
    ) -> Result<(), Refusal>
        ensures gives { Gives (λ _. configuration_of self.new path.new input.new) result
            (paths.plain_part (given_to self.old)
            (lookahead_of first self.old path.old input.old)) }
        ensures kept { OnOk result (KeepsDrawn self.old self.new) }
        ensures high { steps.new ≤ most_steps steps.old self.old (with_taken first input.old) }
        ensures most { OnOk result (most_steps steps.new self.new (length input.new.rest)
            ≤ most_steps steps.old self.old (with_taken first input.old)) }
    {
        if is_there(first, '[') {
            let at = input.place(first);
            return self.options(input, at, steps);
        }
        if begins_coordinate(first) {
            return self.movement(input, path, first);
        }
        self.operation_from(input, path, first, steps)
    }

    /// Moves the current point to a coordinate that begins with a token which was taken.
    #[tactic(auto, unfolding(crate::specs::Paths::movement))]
    fn movement(
        &mut self,
        input: &mut Input,
        path: &mut CurrentPath,
        first: Option<Tok>,
    ) -> Result<(), Refusal>
        ensures gives { Gives (λ _. configuration_of self.new path.new input.new) result
            (paths.movement (given_to self.old) (lookahead_of first self.old path.old input.old)) }
        ensures pays { OnOk result (OnlyPays self.old self.new) }
    {
        let written = self.coordinate_from(input, first)?;
        let to = self.goal_of(path, written)?;
        path.move_to(&self.origin(), &to);
        Ok(())
    }

    /// Draws an operation that begins with a token which was taken.
    #[tactic(auto, unfolding(crate::specs::Paths::operation_from))]
    fn operation_from<L: Ledger>(
        &mut self,
        input: &mut Input,
        path: &mut CurrentPath,
        first: Option<Tok>,
        steps: &mut Steps<L>,
    ) -> Result<(), Refusal>
        ensures gives { Gives (λ _. configuration_of self.new path.new input.new) result
            (paths.operation_from (given_to self.old)
            (lookahead_of first self.old path.old input.old)) }
        ensures kept { OnOk result (KeepsDrawn self.old self.new) }
        ensures high { steps.new ≤ most_steps steps.old self.old (with_taken first input.old) }
        ensures most { OnOk result (most_steps steps.new self.new (length input.new.rest)
            ≤ most_steps steps.old self.old (with_taken first input.old)) }
    {
        let at = input.place(first);
        let word = self.word_from(input, Words::Operations, first)?;
        self.operation(input, path, word, at, steps)
    }
}

/// Whether a token opens a group.
fn opens_group(first: Option<Tok>) -> bool
    ensures { result ≡ stands_there is_open first }
{
    match first {
        Some(tok) => tok.kind.is_open(),
        None => false,
    }
}
