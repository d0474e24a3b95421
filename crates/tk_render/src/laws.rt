//! Laws of what sources come to.

ghost use Rattle.std.specs.Prelude.{◌≡◌, ℕ, List};
ghost use Rattle.tk_token.specs.Answers.{Answer};
ghost use Rattle.tk_item.specs.declared.Drawing.{Drawing as ADrawing};
ghost use Rattle.tk_picture.specs.declared.Asked.{Asked as AnAsked};
ghost use Rattle.tk_render.specs.Rendered.{ComesTo};

/// A source draws one thing, or has one first fault, and never both, where the same is asked of it.
pub fn a_source_comes_to_one_answer()
    ensures { (asked : AnAsked) (source : List ℕ) (a b : Answer ADrawing)
        → ComesTo asked source a
        → ComesTo asked source b
        → a ≡ b }
{}
