//! Laws of the definitions.

ghost use Rattle.std.specs.Prelude.{◌≡◌, ◌<◌, ◌≤◌, ℕ, Bool, true, List, ◌++◌, length, take, Ok, Err, IfSome};
ghost use Rattle.std.specs.List.{AllByRecursion};
ghost use Rattle.std.specs.Str.{IsUtf8};
ghost use Rattle.tk_token.specs.declared.Fault.{Fault as AFault};
ghost use Rattle.tk_token.specs.declared.Tok.{Tok};
ghost use Rattle.tk_token.specs.Answers.{Answer};
ghost use Rattle.tk_token.specs.Cutting.{Tokens};
ghost use Rattle.tk_token.specs.Faults.{Lexes};
ghost use Rattle.tk_token.specs.Groups.{first_outside};
ghost use Rattle.tk_token.specs.Token.{Token};
ghost use Rattle.tk_token.specs.Words.{EachOnce, words_of};

/// Characters are cut into one list of tokens alone.
pub fn characters_have_one_list_of_tokens()
    ensures { (n : ℕ) (cs : List ℕ) (a b : List Token) → Tokens n cs a → Tokens n cs b → a ≡ b }
{}

/// All characters can be cut into tokens.
pub fn all_characters_have_tokens()
    ensures { (n : ℕ) (cs : List ℕ) → (toks : List Token) × Tokens n cs toks }
{}

/// No source has two lists of tokens, two faults, or both.
pub fn a_source_lexes_in_one_way()
    ensures { (source : List ℕ) (a b : Answer (List Token))
        → Lexes source a → Lexes source b → a ≡ b }
{}

/// Each source has tokens or a fault.
pub fn each_source_lexes()
    ensures { (source : List ℕ) → (answer : Answer (List Token)) × Lexes source answer }
{}

/// The bytes before the fault of a source are UTF-8, and its place lies within the source, so that it has a line and a
/// column.
pub fn what_stands_before_a_fault_is_text()
    ensures { (source : List ℕ) (fault : AFault) → Lexes source (Err fault)
        → (fault.at ≤ length source) × IsUtf8 (take fault.at source) }
{}

/// A source that has no fault is UTF-8, and so are the bytes before each of its tokens, which thus has a line and a
/// column.
pub fn a_source_without_fault_is_text()
    ensures { (source : List ℕ) (toks : List Token) → Lexes source (Ok toks)
        → IsUtf8 source
        × AllByRecursion (λ (t : Token). (t.at < length source) × IsUtf8 (take t.at source)) toks }
{}

/// Each word stands once among the words of tokens, so that its number stands for it alone.
pub fn words_stand_once()
    ensures { (toks : List Token) → EachOnce (words_of toks) }
{}

/// What a search finds are the two parts of the list, and what was sought is in front of the second.
pub fn a_search_parts_the_list()
    ensures { (sought : List Tok → Bool) (toks : List Tok)
        → IfSome (first_outside sought toks) (λ found. (found.front ++ found.rest ≡ toks)
        × (sought found.rest ≡ true)) }
{}
