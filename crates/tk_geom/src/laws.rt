//! What holds of all arcs and grids.

ghost use Rattle.std.specs.Prelude.{◌≡◌, ◌↔◌, ℕ, ◌*◌, ◌≤◌, IsOk, Contains, ℤ, pos, ◌-ℤ◌, ◌*ℤ◌, ◌≤ℤ◌, ◌<ℤ◌};
ghost use Rattle.std.specs.Prelude.{unsigned_abs};
ghost use Rattle.std.specs.List.{AllPairs};
ghost use Rattle.tk_item.specs.declared.Point.{Point as APoint};
ghost use Rattle.tk_num.specs.Angle.{degrees, tangent};
ghost use Rattle.tk_geom.specs.Arcs.{piece_count, angle_at};
ghost use Rattle.tk_geom.specs.GridLines.{multiples_between};
ghost use Rattle.tk_geom.specs.Pieces.{sum_of, difference_of};

/// The multiples of a positive step between two bounds are those of exactly the whole numbers in the list, and the list
/// rises.
pub fn multiples_lie_between()
    ensures among { (low high s k : ℤ) → pos 0 <ℤ s
        → Contains (multiples_between low high s) k ↔ ((low ≤ℤ (k *ℤ s)) × ((k *ℤ s) ≤ℤ high)) }
    ensures rise { (low high s : ℤ) → AllPairs (λ j k. j <ℤ k) (multiples_between low high s) }
{}

/// An arc has as few pieces as make at most 90 degrees each.
pub fn arcs_have_few_pieces()
    ensures enough { (a b : ℤ) → unsigned_abs (b -ℤ a) ≤ degrees 90 * piece_count a b }
    ensures fewest { (a b : ℤ) (n : ℕ) → unsigned_abs (b -ℤ a) ≤ degrees 90 * n
        → piece_count a b ≤ n }
{}

/// The angles of an arc's pieces begin at its first angle and end at its second, and a vector that was taken off a
/// point leads back to it.
pub fn arcs_run_from_angle_to_angle()
    ensures point { (c v : APoint) → sum_of (difference_of c v) v ≡ c }
    ensures first { (a b : ℤ) (n : ℕ) → angle_at a b n 0 ≡ a }
    ensures last { (a b : ℤ) (n : ℕ) → 1 ≤ n → angle_at a b n n ≡ b }
{}

/// An angle of at most 22.5 degrees has a tangent.
pub fn small_angles_have_tangents()
    ensures { (angle : ℤ) → 2 * unsigned_abs angle ≤ degrees 45 → IsOk (tangent angle) }
{}
