//! What holds of all matrices and lists of steps.

ghost use Rattle.std.specs.Prelude.{◌≡◌, List, [], ◌∷◌, ◌++◌};
ghost use Rattle.tk_item.specs.declared.Point.{Point as APoint};
ghost use Rattle.tk_affine.specs.declared.Matrix.{Matrix as AMatrix};
ghost use Rattle.tk_affine.specs.declared.Step.{Step as AStep};
ghost use Rattle.tk_affine.specs.Images as images;
ghost use Rattle.tk_affine.specs.Inverses as inverses;
ghost use Rattle.tk_affine.specs.Steps as steps;

/// Steps behind others go on from the matrix of those, and a step behind a list is taken last.
pub fn steps_go_on()
    ensures more { (m : AMatrix) (list more : List AStep) → steps.with_steps m (list ++ more)
        ≡ steps.then_steps (steps.with_steps m list) more }
    ensures last { (list : List AStep) (step : AStep) → steps.matrix_of (list ++ (step ∷ []))
        ≡ steps.then_step (steps.matrix_of list) step }
{}

/// What moves nothing changes nothing before or behind another matrix.
pub fn unmoved_is_neutral()
    ensures before { (m : AMatrix) → steps.IsMatrix m → steps.composed m steps.unmoved ≡ Ok m }
    ensures behind { (m : AMatrix) → steps.IsMatrix m → steps.composed steps.unmoved m ≡ Ok m }
{}

/// Where nothing is moved each point is its own image and its own inverse image, and a corner has the x of
/// one point and the y of the other.
pub fn unmoved_points_stay()
    ensures image { (p : APoint) → images.IsPoint p → images.image steps.unmoved p ≡ Ok p }
    ensures vector { (p : APoint) → images.IsPoint p → images.vector_image steps.unmoved p ≡ Ok p }
    ensures inverse { (p : APoint) → images.IsPoint p
        → inverses.inverse_image steps.unmoved p ≡ Ok p }
    ensures corner { (p q : APoint) → images.IsPoint p → images.IsPoint q
        → inverses.corner_of steps.unmoved p q ≡ Ok (record { x = q.x; y = p.y }) }
{}
