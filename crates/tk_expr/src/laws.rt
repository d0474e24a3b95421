//! Laws of the definitions.

ghost use Rattle.std.specs.Prelude.{◌≡◌, ℕ, ℤ, List, IfErr, IfOk};
ghost use Rattle.tk_num.specs.Number.{IsScaled};
ghost use Rattle.tk_token.specs.declared.Tok.{Tok};
ghost use Rattle.tk_token.specs.Answers.{Answer};
ghost use Rattle.tk_expr.specs.declared.FontUnits.{FontUnits as TheFontUnits};
ghost use Rattle.tk_expr.specs.declared.Value.{Value as AValue};
ghost use Rattle.tk_expr.specs.declared.ValuePair.{ValuePair as APair};
ghost use Rattle.tk_expr.specs.Evaluated.{evaluated};
ghost use Rattle.tk_expr.specs.Evaluates.{Evaluates, Evaluation, IsEvaluation};
ghost use Rattle.tk_expr.specs.Pairs.{paired, vector_of};
ghost use Rattle.tk_expr.specs.Places.{IsPlaceOf};

/// What the machine makes of tokens is their answer by the grammar.
pub fn evaluated_is_the_answer()
    ensures { IsEvaluation evaluated }
{}

/// No tokens have two answers.
pub fn a_text_has_one_answer()
    ensures { (font : TheFontUnits) (at : ℕ) (toks : List Tok) (a b : Answer AValue)
        → Evaluates font at toks a → Evaluates font at toks b → a ≡ b }
{}

/// The value of an expression is in range, whatever the units of the font are.
pub fn a_value_is_in_range()
    ensures { (font : TheFontUnits) (at : ℕ) (toks : List Tok) (answer : Answer AValue) → Evaluates font at toks answer
        → IfOk answer (λ value. IsScaled value.number) }
{}

/// The fault of an expression stands at one of its tokens, or at the given place.
pub fn a_fault_stands_in_its_text()
    ensures { (font : TheFontUnits) (at : ℕ) (toks : List Tok) (answer : Answer AValue)
        → Evaluates font at toks answer → IfErr answer (λ fault. IsPlaceOf at toks fault.at) }
{}

/// So does the fault of a pair.
pub fn a_fault_of_a_pair_stands_in_its_text()
    ensures { (ev : Evaluation) → IsEvaluation ev → (font : TheFontUnits) (at : ℕ) (toks : List Tok)
        → IfErr (paired ev font at toks) (λ fault. IsPlaceOf at toks fault.at) }
{}

/// The fault of a vector stands at the place that is given for it.
pub fn a_fault_of_a_vector_stands_at_its_place()
    ensures { (x y : ℤ) (at : ℕ) (pair : APair)
        → IfErr (vector_of x y at pair) (λ fault. fault.at ≡ at) }
{}
