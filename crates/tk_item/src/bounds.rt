//! The frame of a drawing.

ghost use Rattle.std.specs.Prelude.{◌≡◌, ◌↔◌, [], pos, ◌≤ℤ◌, None, IsNone, Some, IfSome};
ghost use Rattle.tk_item.specs.Frame.{half_width, points_of_path, points_of_piece, box_round, joined, with_box};
ghost use Rattle.tk_item.specs.Frame.{round_points, boxes_of, IsLeastRound, IsProperFrame};

use crate::{Frame, Point, Seg};
use tk_num::Scaled;

/// Half of a width, rounded up: what each point of a drawn path is widened by.
pub fn half_width(width: Scaled) -> i64
    requires { pos 0 ≤ℤ width }
    ensures value { result ≡ half_width width }
    ensures low { pos 0 ≤ℤ result }
    ensures high { result ≤ℤ pos 536870912 }
{
    (width.sp() + 1) / 2
}

/// The frame, where there is one, widened so that it takes in all points and control points of the
/// pieces, each widened by `half` on four sides, in scaled points. It is none where no frame was given
/// and no piece has a point.
pub fn widen(frame: Option<Frame>, segs: &[Seg], half: i64) -> Option<Frame>
    requires low { pos 0 ≤ℤ half }
    requires high { half ≤ℤ pos 536870912 }
    ensures value { result ≡ round_points half frame (points_of_path segs.now) }
    ensures none { IsNone result ↔ ((frame ≡ None) × (points_of_path segs.now ≡ [])) }
    ensures least { IfSome result (IsLeastRound (boxes_of half frame (points_of_path segs.now))) }
    ensures proper { IfSome frame IsProperFrame → IfSome result IsProperFrame }
{
    let mut widened = frame;
    for seg in segs {
        widened = widen_by_seg(widened, *seg, half);
    }
    widened
}

/// The same for the points of one piece.
fn widen_by_seg(frame: Option<Frame>, seg: Seg, half: i64) -> Option<Frame>
    requires low { pos 0 ≤ℤ half }
    requires high { half ≤ℤ pos 536870912 }
    ensures value { result ≡ round_points half frame (points_of_piece seg) }
    ensures proper { IfSome frame IsProperFrame → IfSome result IsProperFrame }
{
    match seg {
        Seg::Move(p) | Seg::Line(p) => Some(widen_by_point(frame, p, half)),
        Seg::Curve(p, q, r) => {
            let frame = widen_by_point(frame, p, half);
            let frame = widen_by_point(Some(frame), q, half);
            Some(widen_by_point(Some(frame), r, half))
        }
        Seg::Close => frame,
    }
}

/// The same for one point.
fn widen_by_point(frame: Option<Frame>, p: Point, half: i64) -> Frame
    requires low { pos 0 ≤ℤ half }
    requires high { half ≤ℤ pos 536870912 }
    ensures value { with_box frame (box_round half p) ≡ Some result }
    ensures proper { IfSome frame IsProperFrame → IsProperFrame result }
{
    let own = box_of(p, half);
    match frame {
        None => own,
        Some(frame) => join(frame, own),
    }
}

/// The box round one point.
fn box_of(p: Point, half: i64) -> Frame
    requires low { pos 0 ≤ℤ half }
    requires high { half ≤ℤ pos 536870912 }
    ensures value { result ≡ box_round half p }
    ensures proper { IsProperFrame result }
{
    Frame {
        left: p.x.sp() - half,
        bottom: p.y.sp() - half,
        right: p.x.sp() + half,
        top: p.y.sp() + half,
    }
}

/// The least box round two.
fn join(f: Frame, g: Frame) -> Frame
    ensures value { result ≡ joined f g }
    ensures proper { IsProperFrame f → IsProperFrame g → IsProperFrame result }
{
    Frame {
        left: f.left.min(g.left),
        bottom: f.bottom.min(g.bottom),
        right: f.right.max(g.right),
        top: f.top.max(g.top),
    }
}
