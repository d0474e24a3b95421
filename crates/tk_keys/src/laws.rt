//! Laws of the runs.

ghost use Rattle.std.specs.Prelude.{◌≡◌};
ghost use Rattle.tk_token.specs.Answers.{Answer};
ghost use Rattle.tk_token.specs.Recursion.{by_size};
ghost use Rattle.tk_keys.specs.Given.{Given};
ghost use Rattle.tk_keys.specs.Settings.{Ending, Runnable, run_step, runs, work_of};

/// A run is what one step of its definition makes of it.
pub fn a_run_is_its_step()
    ensures { (given : Given) (job : Runnable) → runs given job ≡ run_step given (runs given) job }
{}

/// A run is the same whatever would stand for one that has no less work left: no step asks for one.
pub fn a_run_is_never_stuck()
    ensures { (given : Given) (stuck : Answer Ending) (job : Runnable)
        → runs given job ≡ by_size (work_of given) stuck (run_step given) job }
{}
