//! Laws of the definitions.

ghost use Rattle.std.specs.Prelude.{◌≡◌, ◌≤◌, ℕ, List, Some, Ok, IfOk, MatchResult};
ghost use Rattle.std.specs.FinMap as map;
ghost use Rattle.tk_token.specs.declared.Tok.{Tok as AToken};
ghost use Rattle.tk_token.specs.Answers.{Answer};
ghost use Rattle.tk_token.specs.Recursion.{by_size};
ghost use Rattle.tk_store.specs.declared.Macro.{Macro as AMacro};
ghost use Rattle.tk_store.specs.Levels.{Macros};
ghost use Rattle.tk_expand.specs.Expand.{Stream, work, front, front_step, full, full_step, IsExpanded, StandsStill};
ghost use Rattle.tk_expand.specs.Expand.{StandWithin};
ghost use Rattle.tk_expand.specs.Reading.{Next, next_solid, next_solid_step};

/// The front of a list is what one step of its definition says.
pub fn a_front_is_its_step()
    ensures { (budget : ℕ) (macros : Macros) (s : Stream)
        → front budget macros s ≡ front_step budget macros (front budget macros) s }
{}

/// It is the same whatever the answer is where no work is left: no bound on how deep the steps go is met.
pub fn a_front_is_never_stuck()
    ensures { (budget : ℕ) (macros : Macros) (stuck : Answer Stream) (s : Stream)
        → front budget macros s ≡ by_size (work budget) stuck (front_step budget macros) s }
{}

/// A full expansion is what one step of its definition says.
pub fn a_full_expansion_is_its_step()
    ensures { (budget : ℕ) (macros : Macros) (s : Stream)
        → full budget macros s ≡ full_step budget macros (full budget macros) s }
{}

/// It is the same whatever the answer is where no work is left.
pub fn a_full_expansion_is_never_stuck()
    ensures { (budget : ℕ) (macros : Macros) (stuck : Answer Stream) (s : Stream)
        → full budget macros s ≡ by_size (work budget) stuck (full_step budget macros) s }
{}

/// The next token that is no Space is what one step of its definition says.
pub fn a_solid_token_is_its_step()
    ensures { (budget : ℕ) (macros : Macros) (s : Stream)
        → next_solid budget macros s ≡ next_solid_step budget macros (next_solid budget macros) s }
{}

/// It is the same whatever the answer is where no work is left.
pub fn a_solid_token_is_never_stuck()
    ensures { (budget : ℕ) (macros : Macros) (stuck : Answer Next) (s : Stream)
        → next_solid budget macros s
        ≡ by_size (work budget) stuck (next_solid_step budget macros) s }
{}

/// A macro call is never in front of what the front of a list is rewritten to.
pub fn no_call_is_in_front()
    ensures { (budget : ℕ) (macros : Macros) (s : Stream)
        → IfOk (front budget macros s) (λ r. StandsStill macros r.list.rest) }
{}

/// A full expansion has no macro call.
pub fn no_call_is_left()
    ensures { (budget : ℕ) (macros : Macros) (s : Stream)
        → IfOk (full budget macros s) (λ r. IsExpanded macros r.list.rest) }
{}

/// A list in which nothing calls is its own expansion, and costs nothing.
pub fn a_list_without_calls_is_its_own_expansion()
    ensures { (budget : ℕ) (macros : Macros) (s : Stream)
        → IsExpanded macros s.list.rest
        → full budget macros s ≡ Ok s }
{}

/// Where all tokens of a list and of the bodies stand within a source, those of its full expansion do, and so does its
/// fault.
pub fn an_expansion_stands_within_the_source()
    ensures { (len budget : ℕ) (macros : Macros) (s : Stream)
        → ((w : ℕ) (m : AMacro) → map.get macros w ≡ Some m → StandWithin len m.body)
        → StandWithin len s.list.rest
        → MatchResult (full budget macros s) (λ r. StandWithin len r.list.rest) (λ f. f.at ≤ len) }
{}
