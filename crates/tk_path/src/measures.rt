//! What circles, arcs and grids with options of their own are measured by.

ghost use Rattle.std.specs.Prelude.{◌≡◌, ◌≤◌, OnOk, length};
ghost use Rattle.tk_token.specs.Refusals.{Gives};
ghost use Rattle.tk_outline.specs.CurrentPaths.{CurrentPath as ACurrentPath};
ghost use Rattle.tk_path.specs.Measures as spec;
ghost use Rattle.tk_path.specs.Views.{given_to, configuration_of, lookahead_of, reached_at, KeepsDrawn};
ghost use Rattle.tk_path.specs.Undoing.{most_steps, with_taken};

use crate::drawer::Drawer;
use crate::keys::option_list;
use std::sync::ledger::Ledger;
use tk_expand::{Input, is_there};
use tk_outline::Measures;
use tk_store::Steps;
use tk_token::{Refusal, Tok};

impl Drawer {
    /// The measures of an operation that may have options of its own, where the first token behind its word was taken.
    #[tactic(auto, unfolding(crate::specs::Measures::measures_from))]
    pub(crate) fn measures_from<L: Ledger>(
        &mut self,
        input: &mut Input,
        first: Option<Tok>,
        steps: &mut Steps<L>,
    ) -> Result<Measures, Refusal>
        ensures gives { (path : ACurrentPath) → Gives
            (λ measures. reached_at measures self.new path input.new) result
            (spec.measures_from (given_to self.old) (lookahead_of first self.old path input.old)) }
        ensures kept { OnOk result (KeepsDrawn self.old self.new) }
        ensures high { steps.new ≤ most_steps steps.old self.old (with_taken first input.old) }
        ensures most { OnOk result (most_steps steps.new self.new (length input.new.rest)
            ≤ most_steps steps.old self.old (with_taken first input.old)) }
    {
        if is_there(first, '[') {
            let at = input.place(first);
            return self.inner_measures(input, at, steps);
        }
        self.put_back(input, first)?;
        Ok(Measures::of(self.state.graphics()))
    }

    /// The measures at the end of options in a level of their own, whose `[` was taken at that place.
    #[tactic(auto, unfolding(crate::specs::Measures::inner_measures, crate::specs::Keys::option_list), using(tk_expr::proofs::Runs::evaluated_is_the_answer))]
    pub(crate) fn inner_measures<L: Ledger>(
        &mut self,
        input: &mut Input,
        at: u32,
        steps: &mut Steps<L>,
    ) -> Result<Measures, Refusal>
        ensures gives { (path : ACurrentPath) → Gives
            (λ measures. reached_at measures self.new path input.new) result
            (spec.inner_measures (given_to self.old) at
            (configuration_of self.old path input.old)) }
        ensures kept { OnOk result (KeepsDrawn self.old self.new) }
        ensures high { steps.new ≤ most_steps steps.old self.old (length input.old.rest) }
        ensures most { OnOk result (most_steps steps.new self.new (length input.new.rest)
            ≤ most_steps steps.old self.old (length input.old.rest)) }
    {
        let list = option_list(input, at)?;
        self.state.open(at)?;
        self.run_keys(&list, at, steps)?;
        let measures = Measures::of(self.state.graphics());
        self.state.close(steps);
        Ok(measures)
    }
}
