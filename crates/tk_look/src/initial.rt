//! The look at the beginning, and inside a level.

ghost use Rattle.std.specs.Prelude.{◌≡◌, pos};
ghost use Rattle.tk_num.specs.Number.{product};
ghost use Rattle.tk_look.specs.Looks as spec;

use crate::{LineWidth, Look, MiterLimit};
use tk_affine::{Anchor, Shape};
use tk_expr::{FontUnits, Value};
use tk_item::{Cap, Dashes, Join, Rgb, Rule};
use tk_num::{ONE, Scaled, mul};

/// A length in scaled points that was written with its unit.
fn length_written(number: Scaled) -> Value
    ensures { result ≡ spec.length_written number }
{
    Value { number, unit: true }
}

impl Look {
    /// The look in which nothing was set: lines of 0.4pt with miters up to 10, vectors of 1cm, and rectangular nodes
    /// that are at least 1pt wide, 0.3333em round their text. This takes no memory.
    pub fn initial(font: FontUnits) -> Look
        ensures { result ≡ spec.initial_look font }
    {
        let black = Rgb { r: 0, g: 0, b: 0 };
        let centimetre = Scaled::within(1_864_679);
        Look {
            name: None,
            draw_on: false,
            fill_on: false,
            draw: black,
            fill: black,
            text: black,
            line_width: line_width(),
            line_cap: Cap::Butt,
            line_join: Join::Miter,
            miter_limit: miter_limit(),
            dash_pattern: Dashes::new(),
            dash_phase: Scaled::within(0),
            fill_rule: Rule::NonZero,
            x: centimetre,
            y: centimetre,
            x_radius: length_written(Scaled::within(0)),
            y_radius: length_written(Scaled::within(0)),
            start_angle: None,
            end_angle: None,
            delta_angle: None,
            xstep: length_written(centimetre),
            ystep: length_written(centimetre),
            shape: Shape::Rectangle,
            inner_xsep: inner_sep(font.em),
            inner_ysep: inner_sep(font.em),
            outer_xsep: None,
            outer_ysep: None,
            minimum_width: Scaled::within(ONE),
            minimum_height: Scaled::within(ONE),
            anchor: Anchor::Center,
            pos: None,
            sloped: false,
        }
    }

    /// The look in a level that opens: the same without a name. This takes no memory.
    pub fn below(&self) -> Look
        ensures { result ≡ spec.look_below self.now }
    {
        Look {
            name: None,
            dash_pattern: self.dash_pattern.copy(),
            ..*self
        }
    }
}

/// The width of lines at the beginning, 0.4pt.
fn line_width() -> LineWidth
    ensures { result ≡ pos 26214 }
{
    match LineWidth::new(Scaled::within(26_214)) {
        Some(width) => width,
        None => unreachable!(),
    }
}

/// The limit of miters at the beginning, 10.
fn miter_limit() -> MiterLimit
    ensures { result ≡ pos 655360 }
{
    match MiterLimit::new(Scaled::within(655_360)) {
        Some(limit) => limit,
        None => unreachable!(),
    }
}

/// What a node has round its text at the beginning, 0.3333em.
fn inner_sep(em: Scaled) -> Scaled
    ensures { result ≡ product (pos 21843) em }
{
    match mul(Scaled::within(21_843), em) {
        Ok(length) => length,
        Err(_) => unreachable!(),
    }
}
