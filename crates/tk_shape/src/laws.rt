//! What holds of all nodes and their names.

ghost use Rattle.std.specs.Prelude.{◌≡◌, ℕ, ℤ, pos, Ok, List, reverse};
ghost use Rattle.std.specs.Map.{lookup};
ghost use Rattle.std.specs.Str.{bytes_eq};
ghost use Rattle.std.specs.FinMap as map;
ghost use Rattle.tk_item.specs.declared.Point.{Point as APoint};
ghost use Rattle.tk_affine.specs.declared.Anchor.{Anchor as AnAnchor};
ghost use Rattle.tk_affine.specs.declared.Anchor.TheVariants.{Center};
ghost use Rattle.tk_affine.specs.declared.Shape.TheVariants.{Rectangle, Circle, Coordinate};
ghost use Rattle.tk_affine.specs.Steps.{IsMatrix};
ghost use Rattle.tk_shape.specs.declared.NodeRecord.{NodeRecord as ANode};
ghost use Rattle.tk_shape.specs.Anchors as anchors;
ghost use Rattle.tk_shape.specs.Borders as borders;
ghost use Rattle.tk_shape.specs.Nodes.{names_given};

/// Of the nodes that were given one name the last is found; where none was, none is.
pub fn the_last_node_of_a_name_is_found()
    ensures { (given : List (List ℕ × ANode)) (name : List ℕ)
        → map.get (names_given map.empty given) name ≡ lookup (bytes_eq name) (reverse given) }
{}

/// The anchor `Center` of each node is the place of its matrix's shift, and so is each anchor of a coordinate, and the point
/// of its border toward any other.
pub fn a_coordinate_is_one_point()
    ensures centre { (node : ANode) → IsMatrix node.matrix
        → anchors.anchor_of Center node ≡ Ok (anchors.centre node) }
    ensures anchors { (node : ANode) (anchor : AnAnchor) → IsMatrix node.matrix → node.shape ≡ Coordinate
        → anchors.anchor_of anchor node ≡ Ok (anchors.centre node) }
    ensures toward { (node : ANode) (p : APoint) → node.shape ≡ Coordinate
        → anchors.border_toward p node ≡ Ok (anchors.centre node) }
{}

/// A border whose halves aren't negative lies within them.
pub fn borders_lie_within_the_halves()
    ensures rectangle { (x y : ℕ) (u v : ℤ)
        → borders.IsWithin x y (borders.border Rectangle (pos x) (pos y) u v) }
    ensures circle { (x y : ℕ) (u v : ℤ)
        → borders.IsWithin x x (borders.border Circle (pos x) (pos y) u v) }
{}
