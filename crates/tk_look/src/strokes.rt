//! How a look paints a path, or the border of a node.

ghost use Rattle.std.specs.Prelude.{◌≡◌, ◌≤ℤ◌, pos, IfSome};
ghost use Rattle.tk_look.specs.Strokes as spec;

use crate::Look;
use tk_item::{Fill, Stroke, half_width};

/// How a look fills a path; None where it doesn't. This takes no memory.
pub fn look_fill(look: &Look) -> Option<Fill>
    ensures { result ≡ spec.look_fill look.now }
{
    if !look.fill_on {
        return None;
    }
    Some(Fill {
        rgb: look.fill,
        rule: look.fill_rule,
    })
}

/// How a look draws a path; None where it doesn't. This takes no memory.
pub fn look_stroke(look: &Look) -> Option<Stroke>
    ensures stroke { result ≡ spec.look_stroke look.now }
    ensures width { IfSome result (λ stroke. pos 0 ≤ℤ stroke.width) }
    ensures miter { IfSome result (λ stroke. pos 65536 ≤ℤ stroke.miter) }
{
    if !look.draw_on {
        return None;
    }
    Some(Stroke {
        rgb: look.draw,
        width: look.line_width.length(),
        cap: look.line_cap,
        join: look.line_join,
        miter: look.miter_limit.number(),
        dash: look.dash_pattern.copy(),
        phase: look.dash_phase,
    })
}

/// How far a path reaches round its points, in scaled points: half the width of its lines, rounded up, if it is drawn.
pub fn look_reach(look: &Look) -> i64
    ensures value { result ≡ spec.look_reach look.now }
    ensures sign { pos 0 ≤ℤ result }
    ensures most { result ≤ℤ pos 536870912 }
{
    if look.draw_on {
        half_width(look.line_width.length())
    } else {
        0
    }
}
