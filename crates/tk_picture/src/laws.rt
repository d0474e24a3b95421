//! Laws of what sources stand for.

ghost use Rattle.std.specs.Prelude.{◌≡◌, ℕ, List, Ok, Err};
ghost use Rattle.tk_token.specs.declared.Fault.{Fault as AFault};
ghost use Rattle.tk_token.specs.Answers.{Answer};
ghost use Rattle.tk_token.specs.Recursion.{by_size};
ghost use Rattle.tk_keys.specs.Given.{Given};
ghost use Rattle.tk_svg.specs.Fitting.{Fits};
ghost use Rattle.tk_picture.specs.declared.Asked.{Asked as AnAsked};
ghost use Rattle.tk_picture.specs.declared.Compiled.{Compiled as ACompiled};
ghost use Rattle.tk_picture.specs.Progress.{Progress};
ghost use Rattle.tk_picture.specs.Commands.{Block, block_work, commands, commands_step};
ghost use Rattle.tk_picture.specs.Outcome.{IsOutcome, IsPlace};

/// Each source stands for a drawing or has a fault, whatever is asked of it.
pub fn each_source_has_an_outcome()
    ensures { (asked : AnAsked) (source : List ℕ) → (outcome : Answer ACompiled)
        × IsOutcome asked source outcome }
{}

/// No source stands for two drawings, has two faults, or both, where the same is asked of it.
pub fn a_source_has_one_outcome()
    ensures { (asked : AnAsked) (source : List ℕ) (a b : Answer ACompiled)
        → IsOutcome asked source a
        → IsOutcome asked source b
        → a ≡ b }
{}

/// A source's fault stands in it, with whole characters before.
pub fn a_fault_stands_in_its_source()
    ensures { (asked : AnAsked) (source : List ℕ) (fault : AFault)
        → IsOutcome asked source (Err fault)
        → IsPlace source fault.at }
{}

/// A source's drawing fits an SVG document: its frame is a box that a document can have, and each of its paths begins with a
/// move, is drawn with no negative width, and has a miter limit of at least one.
pub fn a_drawing_fits_a_document()
    ensures { (asked : AnAsked) (source : List ℕ) (found : ACompiled)
        → IsOutcome asked source (Ok found)
        → Fits found.drawing }
{}

/// Commands are what one step of their definition says.
pub fn commands_are_their_step()
    ensures { (given : Given) (b : Block) → commands given b
        ≡ commands_step given (commands given) b }
{}

/// They are the same whatever the answer is where no work is left: no bound on how deep the steps go is met.
pub fn commands_are_never_stuck()
    ensures { (given : Given) (stuck : Answer Progress) (b : Block)
        → commands given b ≡ by_size (block_work given) stuck (commands_step given) b }
{}
