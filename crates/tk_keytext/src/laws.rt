//! Laws of the definitions.

ghost use Rattle.std.specs.Prelude.{◌≡◌, List, length};
ghost use Rattle.tk_token.specs.declared.Tok.{Tok};
ghost use Rattle.tk_token.specs.Recursion.{by_size};
ghost use Rattle.tk_keytext.specs.Parts.{KeyPart, parts_step, parts_of};

/// The parts of a key list are what one step of their definition makes of it.
pub fn parts_are_their_step()
    ensures { (ts : List Tok) → parts_of ts ≡ parts_step parts_of ts }
{}

/// The parts of a key list are the same whatever would stand for those of a list that is no shorter: no step asks for
/// them.
pub fn parts_are_never_stuck()
    ensures { (stuck : List KeyPart) (ts : List Tok)
        → parts_of ts ≡ by_size length stuck parts_step ts }
{}
