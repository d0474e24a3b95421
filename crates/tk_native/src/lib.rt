//! The keys and styles below /tikz that are there from the beginning, by their names (the PGF manual, sections "Actions
//! on Paths", "Transformations" and "Nodes and Edges").
#![tactic(auto)]

mod laws;
mod tables;

pub use laws::names_stand_for_their_keys;
pub use tables::{NATIVES, STYLES};

/// A key that is there from the beginning.
#[derive(Clone, Copy)]
pub enum Native {
    /// It sets something of the look.
    Look(LookKey),
    /// It makes steps of the transformation.
    Transform(TransformKey),
}

/// A key that sets something of the look, by what its value is.
#[derive(Clone, Copy)]
pub enum LookKey {
    /// A colour.
    Colour(ColourKey),
    /// Nothing, `none`, or a colour.
    Paint(PaintKey),
    /// A length of any sign.
    Length(LengthKey),
    /// An angle.
    Angle(AngleKey),
    /// A length, or a number of vectors of the picture.
    Measure(MeasureKey),
    /// Nothing that matters.
    Flag(FlagKey),
    /// A length that isn't negative.
    LineWidth,
    /// The end of open lines: `butt`, `round` or `rect`.
    LineCap,
    /// The corners of lines: `miter`, `round` or `bevel`.
    LineJoin,
    /// A number from 1 on.
    MiterLimit,
    /// Lengths, as in `on 3pt off 2pt`.
    DashPattern,
    /// `rectangle`, `circle` or `coordinate`.
    Shape,
    /// The name of an anchor, or an angle.
    Anchor,
    /// A number from -8 to 8.
    Pos,
    /// The name of a node.
    Name,
    /// Nothing: the name of the key itself is a colour or a shape.
    Unknown,
}

/// A key that makes steps of the transformation, by what its value is.
#[derive(Clone, Copy)]
pub enum TransformKey {
    /// A number or a length.
    Step(StepKey),
    /// Nothing, or a length; a node stands at that side of its place.
    Beside(Side),
    /// A pair, as in `(1,2)`.
    Shift,
    /// An angle and a pair, as in `30:(1,2)`.
    RotateAround,
    /// Four numbers and a pair, as in `1,0,0,1,(1,2)`.
    Cm,
}

/// What takes a colour.
#[derive(Clone, Copy)]
pub enum ColourKey {
    /// Lines, fills and text.
    Color,
    /// Text alone.
    Text,
}

/// How a path is painted.
#[derive(Clone, Copy)]
pub enum PaintKey {
    Draw,
    Fill,
}

/// What takes a length.
#[derive(Clone, Copy)]
pub enum LengthKey {
    DashPhase,
    X,
    Y,
    InnerSep,
    InnerXSep,
    InnerYSep,
    OuterSep,
    OuterXSep,
    OuterYSep,
    MinimumSize,
    MinimumWidth,
    MinimumHeight,
}

/// An angle of an arc.
#[derive(Clone, Copy)]
pub enum AngleKey {
    Start,
    End,
    Delta,
}

/// What keeps whether a unit was written.
#[derive(Clone, Copy)]
pub enum MeasureKey {
    Radius,
    XRadius,
    YRadius,
    GridStep,
    XStep,
    YStep,
}

/// A step of the transformation that is made of one number.
#[derive(Clone, Copy)]
pub enum StepKey {
    XShift,
    YShift,
    Rotate,
    Scale,
    XScale,
    YScale,
    XSlant,
    YSlant,
}

/// What is so where the key stands, whatever its value.
#[derive(Clone, Copy)]
pub enum FlagKey {
    Solid,
    Dotted,
    DenselyDotted,
    LooselyDotted,
    EvenOddRule,
    NonZeroRule,
    Sloped,
    Baseline,
}

/// A side of a place.
#[derive(Clone, Copy)]
pub enum Side {
    Above,
    Below,
    Left,
    Right,
    AboveLeft,
    AboveRight,
    BelowLeft,
    BelowRight,
}
