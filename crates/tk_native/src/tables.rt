//! The names of keys and styles.

use crate::{
    AngleKey, ColourKey, FlagKey, LengthKey, LookKey, MeasureKey, Native, PaintKey, Side, StepKey,
    TransformKey,
};

/// Each key below /tikz that is there from the beginning, by its name.
pub const NATIVES: [(&str, Native); 62] = [
    ("color", Native::Look(LookKey::Colour(ColourKey::Color))),
    ("text", Native::Look(LookKey::Colour(ColourKey::Text))),
    ("draw", Native::Look(LookKey::Paint(PaintKey::Draw))),
    ("fill", Native::Look(LookKey::Paint(PaintKey::Fill))),
    ("line width", Native::Look(LookKey::LineWidth)),
    ("line cap", Native::Look(LookKey::LineCap)),
    ("line join", Native::Look(LookKey::LineJoin)),
    ("miter limit", Native::Look(LookKey::MiterLimit)),
    ("dash pattern", Native::Look(LookKey::DashPattern)),
    (
        "dash phase",
        Native::Look(LookKey::Length(LengthKey::DashPhase)),
    ),
    ("solid", Native::Look(LookKey::Flag(FlagKey::Solid))),
    ("dotted", Native::Look(LookKey::Flag(FlagKey::Dotted))),
    (
        "densely dotted",
        Native::Look(LookKey::Flag(FlagKey::DenselyDotted)),
    ),
    (
        "loosely dotted",
        Native::Look(LookKey::Flag(FlagKey::LooselyDotted)),
    ),
    (
        "even odd rule",
        Native::Look(LookKey::Flag(FlagKey::EvenOddRule)),
    ),
    (
        "nonzero rule",
        Native::Look(LookKey::Flag(FlagKey::NonZeroRule)),
    ),
    ("x", Native::Look(LookKey::Length(LengthKey::X))),
    ("y", Native::Look(LookKey::Length(LengthKey::Y))),
    ("shift", Native::Transform(TransformKey::Shift)),
    (
        "xshift",
        Native::Transform(TransformKey::Step(StepKey::XShift)),
    ),
    (
        "yshift",
        Native::Transform(TransformKey::Step(StepKey::YShift)),
    ),
    (
        "rotate",
        Native::Transform(TransformKey::Step(StepKey::Rotate)),
    ),
    (
        "scale",
        Native::Transform(TransformKey::Step(StepKey::Scale)),
    ),
    (
        "xscale",
        Native::Transform(TransformKey::Step(StepKey::XScale)),
    ),
    (
        "yscale",
        Native::Transform(TransformKey::Step(StepKey::YScale)),
    ),
    (
        "xslant",
        Native::Transform(TransformKey::Step(StepKey::XSlant)),
    ),
    (
        "yslant",
        Native::Transform(TransformKey::Step(StepKey::YSlant)),
    ),
    (
        "rotate around",
        Native::Transform(TransformKey::RotateAround),
    ),
    ("cm", Native::Transform(TransformKey::Cm)),
    ("radius", Native::Look(LookKey::Measure(MeasureKey::Radius))),
    (
        "x radius",
        Native::Look(LookKey::Measure(MeasureKey::XRadius)),
    ),
    (
        "y radius",
        Native::Look(LookKey::Measure(MeasureKey::YRadius)),
    ),
    ("start angle", Native::Look(LookKey::Angle(AngleKey::Start))),
    ("end angle", Native::Look(LookKey::Angle(AngleKey::End))),
    ("delta angle", Native::Look(LookKey::Angle(AngleKey::Delta))),
    ("step", Native::Look(LookKey::Measure(MeasureKey::GridStep))),
    ("xstep", Native::Look(LookKey::Measure(MeasureKey::XStep))),
    ("ystep", Native::Look(LookKey::Measure(MeasureKey::YStep))),
    ("shape", Native::Look(LookKey::Shape)),
    (
        "inner sep",
        Native::Look(LookKey::Length(LengthKey::InnerSep)),
    ),
    (
        "inner xsep",
        Native::Look(LookKey::Length(LengthKey::InnerXSep)),
    ),
    (
        "inner ysep",
        Native::Look(LookKey::Length(LengthKey::InnerYSep)),
    ),
    (
        "outer sep",
        Native::Look(LookKey::Length(LengthKey::OuterSep)),
    ),
    (
        "outer xsep",
        Native::Look(LookKey::Length(LengthKey::OuterXSep)),
    ),
    (
        "outer ysep",
        Native::Look(LookKey::Length(LengthKey::OuterYSep)),
    ),
    (
        "minimum size",
        Native::Look(LookKey::Length(LengthKey::MinimumSize)),
    ),
    (
        "minimum width",
        Native::Look(LookKey::Length(LengthKey::MinimumWidth)),
    ),
    (
        "minimum height",
        Native::Look(LookKey::Length(LengthKey::MinimumHeight)),
    ),
    ("anchor", Native::Look(LookKey::Anchor)),
    (
        "above",
        Native::Transform(TransformKey::Beside(Side::Above)),
    ),
    (
        "below",
        Native::Transform(TransformKey::Beside(Side::Below)),
    ),
    ("left", Native::Transform(TransformKey::Beside(Side::Left))),
    (
        "right",
        Native::Transform(TransformKey::Beside(Side::Right)),
    ),
    (
        "above left",
        Native::Transform(TransformKey::Beside(Side::AboveLeft)),
    ),
    (
        "above right",
        Native::Transform(TransformKey::Beside(Side::AboveRight)),
    ),
    (
        "below left",
        Native::Transform(TransformKey::Beside(Side::BelowLeft)),
    ),
    (
        "below right",
        Native::Transform(TransformKey::Beside(Side::BelowRight)),
    ),
    ("pos", Native::Look(LookKey::Pos)),
    ("sloped", Native::Look(LookKey::Flag(FlagKey::Sloped))),
    ("name", Native::Look(LookKey::Name)),
    ("baseline", Native::Look(LookKey::Flag(FlagKey::Baseline))),
    (".unknown", Native::Look(LookKey::Unknown)),
];

/// Each style below /tikz that is there from the beginning: its name, and the key list for which it stands.
pub const STYLES: [(&str, &str); 16] = [
    ("ultra thin", "line width=0.1pt"),
    ("very thin", "line width=0.2pt"),
    ("thin", "line width=0.4pt"),
    ("semithick", "line width=0.6pt"),
    ("thick", "line width=0.8pt"),
    ("very thick", "line width=1.2pt"),
    ("ultra thick", "line width=1.6pt"),
    ("dashed", "dash pattern=on 3pt off 3pt"),
    ("densely dashed", "dash pattern=on 3pt off 2pt"),
    ("loosely dashed", "dash pattern=on 3pt off 6pt"),
    ("at start", "pos=0"),
    ("near start", "pos=.25"),
    ("midway", "pos=.5"),
    ("near end", "pos=.75"),
    ("at end", "pos=1"),
    ("help lines", "color=gray,line width=0.2pt"),
];
