//! Laws of what paths draw.

ghost use Rattle.std.specs.Prelude.{◌≡◌, true};
ghost use Rattle.tk_token.specs.Answers.{Answer};
ghost use Rattle.tk_token.specs.Recursion.{by_size};
ghost use Rattle.tk_keys.specs.Given.{Given};
ghost use Rattle.tk_path.specs.Configurations.{Configuration};
ghost use Rattle.tk_path.specs.Paths.{Stretch, stretch_work, operations, operations_step};
ghost use Rattle.tk_path.specs.Words.{are_told_by_two_letters, operation_words, node_words, target_words, control_words};

/// The operations of a path are what one step of their definition says.
pub fn operations_are_their_step()
    ensures { (given : Given) (s : Stretch) → operations given s
        ≡ operations_step given (operations given) s }
{}

/// They are the same whatever the answer is where no work is left: no bound on how deep the steps go is met.
pub fn operations_are_never_stuck()
    ensures { (given : Given) (stuck : Answer Configuration) (s : Stretch)
        → operations given s ≡ by_size (stretch_work given) stuck (operations_step given) s }
{}

/// The first two letters of a word tell which word of its table it is.
pub fn two_letters_tell_a_word()
    ensures operations { are_told_by_two_letters operation_words ≡ true }
    ensures nodes { are_told_by_two_letters node_words ≡ true }
    ensures targets { are_told_by_two_letters target_words ≡ true }
    ensures controls { are_told_by_two_letters control_words ≡ true }
{}
