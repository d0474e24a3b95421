//! Laws of the definitions.

ghost use Rattle.std.specs.Prelude.{◌≡◌, ℕ, List, length, Option, Ok, IfErr};
ghost use Rattle.tk_item.specs.declared.Point.{Point as APoint};
ghost use Rattle.tk_token.specs.declared.Tok.{Tok};
ghost use Rattle.tk_token.specs.Answers.{Answer};
ghost use Rattle.tk_token.specs.Recursion.{by_size};
ghost use Rattle.tk_affine.specs.declared.Matrix.{Matrix as AMatrix};
ghost use Rattle.tk_affine.specs.Images.{IsPoint};
ghost use Rattle.tk_affine.specs.Steps.{unmoved};
ghost use Rattle.tk_expr.specs.declared.FontUnits.{FontUnits as TheFontUnits};
ghost use Rattle.tk_expr.specs.Evaluates.{Evaluation, IsEvaluation};
ghost use Rattle.tk_expr.specs.Places.{IsPlaceOf};
ghost use Rattle.tk_look.specs.declared.Look.{Look as ALook};
ghost use Rattle.tk_coord.specs.declared.corners.CornerSign.TheVariants as signs;
ghost use Rattle.tk_coord.specs.Coordinates.{corner_between, point_step, absolute_point, target_of};

/// The point of a coordinate without `+` is what one step of its definition says.
pub fn a_point_is_its_step()
    ensures { (ev : Evaluation) (font : TheFontUnits) (look : ALook) (matrix : AMatrix) (at : ℕ)
        → (text : List Tok) → absolute_point ev font look matrix at text
        ≡ point_step ev font look matrix at (absolute_point ev font look matrix at) text }
{}

/// It is the same whatever would stand for the point of a text that is no shorter: no step asks for it.
pub fn a_point_is_never_stuck()
    ensures { (ev : Evaluation) (font : TheFontUnits) (look : ALook) (matrix : AMatrix) (at : ℕ)
        (stuck : Answer APoint) (text : List Tok)
        → absolute_point ev font look matrix at text
        ≡ by_size length stuck (point_step ev font look matrix at) text }
{}

/// The fault of a coordinate stands at one of its tokens, or at its `(`.
pub fn a_fault_of_a_coordinate_stands_in_its_text()
    ensures { (ev : Evaluation) → IsEvaluation ev
        → (font : TheFontUnits) (look : ALook) (matrix : AMatrix) (at : ℕ)
        → (from : Option APoint) (text : List Tok)
        → IfErr (target_of ev font look matrix at from text) (λ fault. IsPlaceOf at text fault.at) }
{}

/// Where nothing is moved, the corner of `p -| q` has the x of q and the y of p, and that of `p |- q` the x of p and
/// the y of q.
pub fn corners_lie_straight_where_nothing_is_moved()
    ensures horizontal { (p q : APoint) → IsPoint p → IsPoint q
        → corner_between signs.HorizontalFirst unmoved p q ≡ Ok (record { x = q.x; y = p.y }) }
    ensures vertical { (p q : APoint) → IsPoint p → IsPoint q
        → corner_between signs.VerticalFirst unmoved p q ≡ Ok (record { x = p.x; y = q.y }) }
{}
