//! Rectangles, circles, arcs and grids.

ghost use Rattle.std.specs.Prelude.{◌≡◌, OnOk, ◌≤◌, length};
ghost use Rattle.tk_token.specs.Refusals.{Gives};
ghost use Rattle.tk_expand.specs.Unread.{Unread};
ghost use Rattle.tk_outline.specs.CurrentPaths.{CurrentPath as ACurrentPath};
ghost use Rattle.tk_path.specs.Operations as spec;
ghost use Rattle.tk_path.specs.Views.{given_to, configuration_of, lookahead_of, reached_at, OnlyPays, KeepsDrawn};
ghost use Rattle.tk_path.specs.Undoing.{most_steps, with_taken};

use crate::coordinate::written_text;
use crate::drawer::{Drawer, misfit};
use std::sync::ledger::Ledger;
use tk_affine::answer_at;
use tk_expand::{Input, is_there};
use tk_outline::{ArcMeasures, ArcText, CurrentPath, Goal, Measures, arc_in, radii_in};
use tk_store::Steps;
use tk_token::{Refusal, Tok};

impl Drawer {
    /// Draws a rectangle from the current point to the coordinate that is next; its word stands at that place.
    #[tactic(auto, unfolding(crate::specs::Operations::rectangle))]
    pub(crate) fn rectangle(
        &mut self,
        input: &mut Input,
        path: &mut CurrentPath,
        at: u32,
    ) -> Result<(), Refusal>
        ensures gives { Gives (λ _. configuration_of self.new path.new input.new) result
            (spec.rectangle (given_to self.old) at (configuration_of self.old path.old input.old)) }
        ensures pays { OnOk result (OnlyPays self.old self.new) }
    {
        let to = self.goal_ahead(input, path)?;
        let matrix = self.state.graphics().matrix;
        let done = path.rectangle(self.state.allocator(), &self.origin(), matrix, &to)?;
        Ok(answer_at(done, at)?)
    }

    /// Reads a text in parentheses, whose `(` was taken at that place, and expands it.
    #[tactic(auto, unfolding(crate::specs::Operations::text_behind))]
    fn text_behind(&mut self, input: &mut Input, at: u32) -> Result<Vec<Tok>, Refusal>
        ensures gives { (path : ACurrentPath) → Gives
            (λ text. reached_at text.items self.new path input.new) result
            (spec.text_behind (given_to self.old) at (configuration_of self.old path input.old)) }
        ensures pays { OnOk result (OnlyPays self.old self.new) }
    {
        let written = written_text(input, at)?;
        self.state.expand(written)
    }

    // ---- circles

    /// Draws a circle or an ellipse round the current point, whose word stands at that place.
    #[tactic(auto, unfolding(crate::specs::Operations::circle))]
    pub(crate) fn circle<L: Ledger>(
        &mut self,
        input: &mut Input,
        path: &mut CurrentPath,
        at: u32,
        steps: &mut Steps<L>,
    ) -> Result<(), Refusal>
        ensures gives { Gives (λ _. configuration_of self.new path.new input.new) result
            (spec.circle (given_to self.old) at (configuration_of self.old path.old input.old)) }
        ensures kept { OnOk result (KeepsDrawn self.old self.new) }
        ensures high { steps.new ≤ most_steps steps.old self.old (length input.old.rest) }
        ensures most { OnOk result (most_steps steps.new self.new (length input.new.rest)
            ≤ most_steps steps.old self.old (length input.old.rest)) }
    {
        let first = self.ahead(input)?;
        match self.circle_measures(input, first, steps) {
            Ok(measures) => self.circle_with(path, at, measures),
            Err(refusal) => Err(refusal),
        }
    }

    /// What a circle is measured by, where the first token behind its word was taken.
    #[tactic(auto, unfolding(crate::specs::Operations::circle_measures))]
    fn circle_measures<L: Ledger>(
        &mut self,
        input: &mut Input,
        first: Option<Tok>,
        steps: &mut Steps<L>,
    ) -> Result<Measures, Refusal>
        ensures gives { (path : ACurrentPath) → Gives
            (λ measures. reached_at measures self.new path input.new) result
            (spec.circle_measures (given_to self.old)
            (lookahead_of first self.old path input.old)) }
        ensures kept { OnOk result (KeepsDrawn self.old self.new) }
        ensures high { steps.new ≤ most_steps steps.old self.old (with_taken first input.old) }
        ensures most { OnOk result (most_steps steps.new self.new (length input.new.rest)
            ≤ most_steps steps.old self.old (with_taken first input.old)) }
    {
        if !is_there(first, '(') {
            return self.measures_from(input, first, steps);
        }
        let place = input.place(first);
        let text = self.text_behind(input, place)?;
        let radii = radii_in(&text, &self.state.font_units(), place)?;
        Ok(Measures {
            radii,
            ..Measures::of(self.state.graphics())
        })
    }

    /// Draws a circle or an ellipse round the current point.
    #[tactic(auto, unfolding(crate::specs::Operations::circle_with))]
    fn circle_with(
        &self,
        path: &mut CurrentPath,
        at: u32,
        measures: Measures,
    ) -> Result<(), Refusal>
        ensures { (rest : Unread) → Gives (λ _. configuration_of self.now path.new rest) result
            (spec.circle_with at measures (configuration_of self.now path.old rest)) }
    {
        let (rx, ry) = measures.radii_lengths(at)?;
        let alloc = self.state.allocator();
        let done = path.circle(alloc, &self.origin(), measures.matrix, rx, ry)?;
        Ok(answer_at(done, at)?)
    }

    // ---- arcs

    /// Draws an arc that begins at the current point, whose word stands at that place.
    #[tactic(auto, unfolding(crate::specs::Operations::arc))]
    pub(crate) fn arc<L: Ledger>(
        &mut self,
        input: &mut Input,
        path: &mut CurrentPath,
        at: u32,
        steps: &mut Steps<L>,
    ) -> Result<(), Refusal>
        ensures gives { Gives (λ _. configuration_of self.new path.new input.new) result
            (spec.arc (given_to self.old) at (configuration_of self.old path.old input.old)) }
        ensures kept { OnOk result (KeepsDrawn self.old self.new) }
        ensures high { steps.new ≤ most_steps steps.old self.old (length input.old.rest) }
        ensures most { OnOk result (most_steps steps.new self.new (length input.new.rest)
            ≤ most_steps steps.old self.old (length input.old.rest)) }
    {
        let first = self.ahead(input)?;
        match self.arc_measures(input, at, first, steps) {
            Ok(arc) => self.arc_with(path, at, arc),
            Err(refusal) => Err(refusal),
        }
    }

    /// What an arc is measured by, where the first token behind its word was taken.
    #[tactic(auto, unfolding(crate::specs::Operations::arc_measures))]
    fn arc_measures<L: Ledger>(
        &mut self,
        input: &mut Input,
        at: u32,
        first: Option<Tok>,
        steps: &mut Steps<L>,
    ) -> Result<ArcMeasures, Refusal>
        ensures gives { (path : ACurrentPath) → Gives
            (λ measures. reached_at measures self.new path input.new) result
            (spec.arc_measures (given_to self.old) at
            (lookahead_of first self.old path input.old)) }
        ensures kept { OnOk result (KeepsDrawn self.old self.new) }
        ensures high { steps.new ≤ most_steps steps.old self.old (with_taken first input.old) }
        ensures most { OnOk result (most_steps steps.new self.new (length input.new.rest)
            ≤ most_steps steps.old self.old (with_taken first input.old)) }
    {
        let place = input.place(first);
        if is_there(first, '(') {
            let text = self.text_behind(input, place)?;
            let ArcText { sweep, radii } = arc_in(&text, &self.state.font_units(), place)?;
            let measures = Measures {
                radii,
                ..Measures::of(self.state.graphics())
            };
            return Ok(ArcMeasures { measures, sweep });
        }
        if !is_there(first, '[') {
            return Err(misfit(place));
        }
        let measures = self.inner_measures(input, place, steps)?;
        let sweep = measures.sweep(at)?;
        Ok(ArcMeasures { measures, sweep })
    }

    /// Draws an arc that begins at the current point.
    #[tactic(auto, unfolding(crate::specs::Operations::arc_with))]
    fn arc_with(&self, path: &mut CurrentPath, at: u32, arc: ArcMeasures) -> Result<(), Refusal>
        ensures { (rest : Unread) → Gives (λ _. configuration_of self.now path.new rest) result
            (spec.arc_with at arc (configuration_of self.now path.old rest)) }
    {
        let ArcMeasures { measures, sweep } = arc;
        let (rx, ry) = measures.radii_lengths(at)?;
        let done = path.arc(&self.origin(), measures.matrix, &sweep, rx, ry)?;
        Ok(answer_at(done, at)?)
    }

    // ---- grids

    /// Draws a grid from the current point to the coordinate that is next, with options of its own; its word stands at
    /// that place.
    #[tactic(auto, unfolding(crate::specs::Operations::grid))]
    pub(crate) fn grid<L: Ledger>(
        &mut self,
        input: &mut Input,
        path: &mut CurrentPath,
        at: u32,
        steps: &mut Steps<L>,
    ) -> Result<(), Refusal>
        ensures gives { Gives (λ _. configuration_of self.new path.new input.new) result
            (spec.grid (given_to self.old) at (configuration_of self.old path.old input.old)) }
        ensures kept { OnOk result (KeepsDrawn self.old self.new) }
        ensures high { steps.new ≤ most_steps steps.old self.old (length input.old.rest) }
        ensures most { OnOk result (most_steps steps.new self.new (length input.new.rest)
            ≤ most_steps steps.old self.old (length input.old.rest)) }
    {
        let first = self.ahead(input)?;
        match self.measures_from(input, first, steps) {
            Ok(measures) => self.grid_by(input, path, at, measures),
            Err(refusal) => Err(refusal),
        }
    }

    /// Draws a grid from the current point to the coordinate that is next.
    #[tactic(auto, unfolding(crate::specs::Operations::grid_by))]
    fn grid_by(
        &mut self,
        input: &mut Input,
        path: &mut CurrentPath,
        at: u32,
        measures: Measures,
    ) -> Result<(), Refusal>
        ensures gives { Gives (λ _. configuration_of self.new path.new input.new) result
            (spec.grid_by (given_to self.old) at measures
            (configuration_of self.old path.old input.old)) }
        ensures pays { OnOk result (OnlyPays self.old self.new) }
    {
        let to = self.goal_ahead(input, path)?;
        self.grid_to(path, at, &measures, &to)
    }

    /// Draws a grid from the current point to a goal.
    #[tactic(auto, unfolding(crate::specs::Operations::grid_to))]
    fn grid_to(
        &mut self,
        path: &mut CurrentPath,
        at: u32,
        measures: &Measures,
        to: &Goal,
    ) -> Result<(), Refusal>
        ensures gives { (rest : Unread) → Gives
            (λ _. configuration_of self.new path.new rest) result
            (spec.grid_to self.old.state.budget at measures.now to.now
            (configuration_of self.old path.old rest)) }
        ensures pays { OnOk result (OnlyPays self.old self.new) }
    {
        let mesh = measures.mesh(at)?;
        let alloc = self.state.allocator();
        let mut units = self.state.units();
        path.grid(alloc, &self.origin(), &mesh, to, &mut units, at)?;
        self.state.set_used(units.used);
        Ok(())
    }
}
