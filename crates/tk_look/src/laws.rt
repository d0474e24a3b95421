//! Laws of the definitions.

ghost use Rattle.std.specs.Prelude.{◌≡◌, ◌++◌, [], ℕ, List, Option, IfOk};
ghost use Rattle.tk_token.specs.declared.Tok.{Tok as AToken};
ghost use Rattle.tk_native.specs.declared.Native.{Native as AKey};
ghost use Rattle.tk_affine.specs.declared.Step.{Step as AStep};
ghost use Rattle.tk_expr.specs.declared.FontUnits.{FontUnits as TheFontUnits};
ghost use Rattle.tk_expr.specs.Evaluates.{Evaluation, IsEvaluation};
ghost use Rattle.tk_look.specs.declared.GraphicsState.{GraphicsState as AState};
ghost use Rattle.tk_look.specs.Applied.{native_applied};
ghost use Rattle.tk_look.specs.Ranges.{IsInRange};
ghost use Rattle.tk_look.specs.Graphics.{IsMadeBy, initial_graphics, graphics_below, graphics_by, graphics_behind};

/// The one matrix that is kept is that of all steps that were written so far: of none at the beginning, of the same in
/// a level that opens; and where a key puts steps behind them, it is what the whole list makes, or has its fault.
pub fn a_matrix_is_that_of_its_steps()
    ensures begins { (font : TheFontUnits) → IsMadeBy [] (initial_graphics font) }
    ensures below { (steps : List AStep) (g : AState) → IsMadeBy steps g
        → IsMadeBy steps (graphics_below g) }
    ensures behind { (steps : List AStep) (g : AState) → IsMadeBy steps g
        → (at : ℕ) (ev : Evaluation) (font : TheFontUnits) (key : AKey) (name : List ℕ)
        → (value : Option (List AToken)) → graphics_by at ev font key name value g
        ≡ graphics_behind at ev font key name value steps g.look }
    ensures longer { (steps : List AStep) (g : AState) → IsMadeBy steps g
        → (at : ℕ) (ev : Evaluation) (font : TheFontUnits) (key : AKey) (name : List ℕ)
        → (value : Option (List AToken))
        → IfOk (native_applied at ev font key name value g.look) (λ new.
        IfOk (graphics_by at ev font key name value g) (IsMadeBy (steps ++ new.steps))) }
{}

/// The matrix and the pen are in range, of each state that keys leave: at the beginning, in a level that opens, and behind
/// a key, by each evaluation that meets the grammar.
pub fn a_look_stays_in_its_ranges()
    ensures begins { (font : TheFontUnits) → IsInRange (initial_graphics font) }
    ensures below { (g : AState) → IsInRange g → IsInRange (graphics_below g) }
    ensures behind { (g : AState) → IsInRange g → (ev : Evaluation) → IsEvaluation ev
        → (at : ℕ) (font : TheFontUnits) (key : AKey) (name : List ℕ) (value : Option (List AToken))
        → IfOk (graphics_by at ev font key name value g) IsInRange }
{}
