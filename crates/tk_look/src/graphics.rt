//! Where and how what follows is drawn.

ghost use Rattle.std.specs.Prelude.{◌≡◌, option_copied};
ghost use Rattle.tk_token.specs.Refusals.{Gives};
ghost use Rattle.tk_affine.specs.Steps.{with_steps};
ghost use Rattle.tk_expr.specs.Evaluated.{evaluated};
ghost use Rattle.tk_expr.specs.Evaluates.{Evaluation, IsEvaluation};
ghost use Rattle.tk_look.specs.Graphics as spec;

use crate::steps::KeySteps;
use crate::{GraphicsState, Look};
use std::alloc::Global;
use tk_affine::{AffFault, Matrix, answer_at, concat, identity};
use tk_expr::FontUnits;
use tk_native::Native;
use tk_token::{Refusal, Tok};

impl GraphicsState {
    /// Nothing is moved, and nothing was set. This takes no memory.
    pub fn initial(font: FontUnits) -> GraphicsState
        ensures { result ≡ spec.initial_graphics font }
    {
        GraphicsState {
            matrix: identity(),
            look: Look::initial(font),
        }
    }

    /// The same in a level that opens: what it draws has no name yet. This takes no memory.
    pub fn below(&self) -> GraphicsState
        ensures { result ≡ spec.graphics_below self.now }
    {
        GraphicsState {
            matrix: self.matrix,
            look: self.look.below(),
        }
    }

    /// What `set` does, where the values of expressions are those of the machine.
    #[tactic(auto, unfolding(crate::specs::Graphics::graphics_by))]
    fn set_by_machine(
        &mut self,
        alloc: Global,
        key: Native,
        name: &str,
        value: Option<&[Tok]>,
        font: FontUnits,
        at: u32,
    ) -> Result<(), Refusal>
        ensures { Gives (λ _. self.new) result
            (spec.graphics_by at evaluated font key name.now (option_copied value.entry) self.old) }
    {
        let steps = self.look.apply(alloc, key, name, value, font, at)?;
        self.matrix = answer_at(with_steps(self.matrix, &steps), at)?;
        Ok(())
    }

    /// Sets what a native key says, as `apply` does for the look; the steps that it makes come behind those of the
    /// matrix, and TooLarge stands at `at` where a number of the matrix is then out of range. After a refusal the state
    /// is fit only to be dropped.
    pub fn set(
        &mut self,
        alloc: Global,
        key: Native,
        name: &str,
        value: Option<&[Tok]>,
        font: FontUnits,
        at: u32,
    ) -> Result<(), Refusal>
        ensures { (ev : Evaluation) → IsEvaluation ev → Gives (λ _. self.new) result
            (spec.graphics_by at ev font key name.now (option_copied value.entry) self.old) }
    {
        self.set_by_machine(alloc, key, name, value, font, at)
    }
}

/// The matrix with steps behind its own.
fn with_steps(matrix: Matrix, steps: &KeySteps) -> Result<Matrix, AffFault>
    ensures { result ≡ with_steps matrix steps.now.items }
{
    let mut moved = matrix;
    let mut rest = steps.as_slice();
    while let Some((step, tail)) = rest.split_first() {
        moved = concat(moved, *step)?;
        rest = tail;
    }
    Ok(moved)
}
