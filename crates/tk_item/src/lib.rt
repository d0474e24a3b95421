//! What is drawn: paths and labels in scaled points, with y upward, and the frame round them.
#![tactic(auto)]

mod bounds;
mod dashes;
mod laws;
mod lists;

pub use bounds::{half_width, widen};
pub use dashes::Dashes;
pub use laws::frames_are_least;
pub use lists::{Items, Segs, Text};
use tk_num::Scaled;

/// A point, in scaled points.
#[derive(Clone, Copy, PartialEq, Eq)]
pub struct Point {
    pub x: Scaled,
    pub y: Scaled,
}

/// A piece of a path. A path that is drawn begins with a `Move`; each other piece starts where the one
/// before ended, and `Close` goes back to the last `Move`. `Curve` has its two control points and its
/// end.
#[derive(Clone, Copy, PartialEq, Eq)]
pub enum Seg {
    Move(Point),
    Line(Point),
    Curve(Point, Point, Point),
    Close,
}

/// A colour of red, green and blue.
#[derive(Clone, Copy, PartialEq, Eq)]
pub struct Rgb {
    pub r: u8,
    pub g: u8,
    pub b: u8,
}

/// Which points are inside a path (SVG 1.1, section 11.3, Fill Properties, `fill-rule`).
#[derive(Clone, Copy, PartialEq, Eq)]
pub enum Rule {
    NonZero,
    EvenOdd,
}

/// How an open line ends (SVG 1.1, section 11.4, Stroke Properties, `stroke-linecap`).
#[derive(Clone, Copy, PartialEq, Eq)]
pub enum Cap {
    Butt,
    Round,
    Square,
}

/// How two lines meet (SVG 1.1, section 11.4, Stroke Properties, `stroke-linejoin`).
#[derive(Clone, Copy, PartialEq, Eq)]
pub enum Join {
    Miter,
    Round,
    Bevel,
}

/// How a path is filled.
#[derive(Clone, Copy, PartialEq, Eq)]
pub struct Fill {
    pub rgb: Rgb,
    pub rule: Rule,
}

/// How a path is drawn. The width, the dashes and their phase are lengths, and `miter` is a ratio in
/// 65536ths. In a drawing that is written no width is negative, and no miter limit is below 65536, that
/// is, 1.
#[derive(Drop)]
pub struct Stroke {
    pub rgb: Rgb,
    pub width: Scaled,
    pub cap: Cap,
    pub join: Join,
    pub miter: Scaled,
    pub dash: Dashes,
    pub phase: Scaled,
}

/// A text at a point. The linear part of its matrix is `a`, `b`, `c`, `d` in 65536ths: the text's own
/// (x, y) stands at (a*x + c*y, b*x + d*y) from the point.
#[derive(Drop)]
pub struct Label {
    pub at: Point,
    pub a: Scaled,
    pub b: Scaled,
    pub c: Scaled,
    pub d: Scaled,
    pub rgb: Rgb,
    pub text: Text,
}

/// A thing in a drawing.
#[derive(Drop)]
pub enum Item {
    Path(Segs, Option<Fill>, Option<Stroke>),
    Label(Label),
}

/// A box, in scaled points. What `widen` makes has its left side at most at the right one, and its bottom
/// at most at the top. A side may lie past the range of `Scaled`, by half of a width.
#[derive(Clone, Copy, PartialEq, Eq)]
pub struct Frame {
    pub left: i64,
    pub bottom: i64,
    pub right: i64,
    pub top: i64,
}

/// What a picture draws: its items from the back to the front, the frame round them, and the font.
/// `size` is the font's size in scaled points.
#[derive(Drop)]
pub struct Drawing {
    pub frame: Frame,
    pub family: Text,
    pub size: Scaled,
    pub items: Items,
}
