//! What the keys that are there from the beginning make of a look.

ghost use Rattle.std.specs.Prelude.{◌≡◌, ◌∷◌, [], ◌≤ℤ◌, pos, option_copied, MatchResult, Ok, Err};
ghost use Rattle.tk_token.specs.Refusals.{Gives};
ghost use Rattle.tk_expr.specs.Evaluated.{evaluated};
ghost use Rattle.tk_expr.specs.Evaluates.{Evaluation, IsEvaluation};
ghost use Rattle.tk_look.specs.Applied as spec;

use crate::colours::colour;
use crate::dashes::pattern_value;
use crate::steps::{
    KeySteps, facing, matrix_step, one_step, shift_by, shift_to, step_of, turn_around,
};
use crate::values::{
    anchor_value, cap_value, colour_value, join_value, limit_value, measure_value, number_value,
    position_value, shape_value, width_value,
};
use crate::words::shape_named;
use crate::{LineWidth, Look, NodeName};
use arrayvec::ArrayVec;
use std::alloc::Global;
use tk_affine::Step;
use tk_expr::{FontUnits, Value};
use tk_item::{Dashes, Rgb, Rule};
use tk_native::{
    AngleKey, ColourKey, FlagKey, LengthKey, LookKey, MeasureKey, Native, PaintKey, Side,
    TransformKey,
};
use tk_num::{ONE, Scaled};
use tk_token::{Code, Fault, Refusal, Tok, text_in, trimmed};

impl Look {
    /// Sets a colour.
    fn set_colour(&mut self, key: ColourKey, colour: Rgb)
        ensures { self.new ≡ spec.coloured key colour self.old }
    {
        match key {
            ColourKey::Color => {
                self.draw = colour;
                self.fill = colour;
                self.text = colour;
            }
            ColourKey::Text => self.text = colour,
        }
    }

    /// Sets whether a path is drawn or filled.
    fn switch(&mut self, key: PaintKey, on: bool)
        ensures { self.new ≡ spec.switched key on self.old }
    {
        match key {
            PaintKey::Draw => self.draw_on = on,
            PaintKey::Fill => self.fill_on = on,
        }
    }

    /// Has paths drawn or filled in a colour.
    fn paint_with(&mut self, key: PaintKey, colour: Rgb)
        ensures { self.new ≡ spec.painted key colour self.old }
    {
        match key {
            PaintKey::Draw => {
                self.draw_on = true;
                self.draw = colour;
            }
            PaintKey::Fill => {
                self.fill_on = true;
                self.fill = colour;
            }
        }
    }

    /// `draw` and `fill`: without a value and with a colour a path is painted, with `none` it isn't.
    fn paint(
        &mut self,
        alloc: Global,
        key: PaintKey,
        value: Option<&[Tok]>,
        at: u32,
    ) -> Result<(), Refusal>
        ensures { Gives (λ _. self.new) result
            (spec.paint at key (option_copied value.entry) self.old) }
    {
        let Some(list) = value else {
            self.switch(key, true);
            return Ok(());
        };
        let Some(text) = text_in(alloc, list)? else {
            return Err(Refusal::new(Code::Colour, at));
        };
        if text.as_str() == "none" {
            self.switch(key, false);
            return Ok(());
        }
        let Some(colour) = colour(&text) else {
            return Err(Refusal::new(Code::Colour, at));
        };
        self.paint_with(key, colour);
        Ok(())
    }

    /// Sets a length.
    fn set_length(&mut self, key: LengthKey, length: Scaled)
        ensures { self.new ≡ spec.with_length key length self.old }
    {
        match key {
            LengthKey::DashPhase => self.dash_phase = length,
            LengthKey::X => self.x = length,
            LengthKey::Y => self.y = length,
            LengthKey::InnerSep => {
                self.inner_xsep = length;
                self.inner_ysep = length;
            }
            LengthKey::InnerXSep => self.inner_xsep = length,
            LengthKey::InnerYSep => self.inner_ysep = length,
            LengthKey::OuterSep => {
                self.outer_xsep = Some(length);
                self.outer_ysep = Some(length);
            }
            LengthKey::OuterXSep => self.outer_xsep = Some(length),
            LengthKey::OuterYSep => self.outer_ysep = Some(length),
            LengthKey::MinimumSize => {
                self.minimum_width = length;
                self.minimum_height = length;
            }
            LengthKey::MinimumWidth => self.minimum_width = length,
            LengthKey::MinimumHeight => self.minimum_height = length,
        }
    }

    /// Sets an angle of arcs.
    fn set_angle(&mut self, key: AngleKey, angle: Scaled)
        ensures { self.new ≡ spec.with_angle key angle self.old }
    {
        match key {
            AngleKey::Start => self.start_angle = Some(angle),
            AngleKey::End => self.end_angle = Some(angle),
            AngleKey::Delta => self.delta_angle = Some(angle),
        }
    }

    /// Sets a radius, or a step of grids.
    fn set_measure(&mut self, key: MeasureKey, value: Value)
        ensures { self.new ≡ spec.with_measure key value self.old }
    {
        // The checker copies no `Value` that is used twice, since a `Scaled` lies in it: so it is taken apart.
        let Value { number, unit } = value;
        match key {
            MeasureKey::Radius => {
                self.x_radius = Value { number, unit };
                self.y_radius = Value { number, unit };
            }
            MeasureKey::XRadius => self.x_radius = Value { number, unit },
            MeasureKey::YRadius => self.y_radius = Value { number, unit },
            MeasureKey::GridStep => {
                self.xstep = Value { number, unit };
                self.ystep = Value { number, unit };
            }
            MeasureKey::XStep => self.xstep = Value { number, unit },
            MeasureKey::YStep => self.ystep = Value { number, unit },
        }
    }

    /// Has lines dotted: dots as long as the line is wide, with so much between them.
    fn set_dots(&mut self, gap: Scaled)
        requires { pos 0 ≤ℤ gap }
        ensures { self.new ≡ spec.dotted gap self.old }
    {
        let mut dots = Dashes::new();
        dots.push(self.line_width.length());
        dots.push(gap);
        self.dash_pattern = dots;
    }

    /// Sets what is so without a value.
    fn set_flag(&mut self, key: FlagKey)
        ensures { self.new ≡ spec.flagged key self.old }
    {
        match key {
            FlagKey::Solid => self.dash_pattern = Dashes::new(),
            FlagKey::Dotted => self.set_dots(Scaled::within(131_072)),
            FlagKey::DenselyDotted => self.set_dots(Scaled::within(ONE)),
            FlagKey::LooselyDotted => self.set_dots(Scaled::within(262_144)),
            FlagKey::EvenOddRule => self.fill_rule = Rule::EvenOdd,
            FlagKey::NonZeroRule => self.fill_rule = Rule::NonZero,
            FlagKey::Sloped => self.sloped = true,
            FlagKey::Baseline => (),
        }
    }

    /// Puts a node at a side of its place; gives its shift.
    fn put_beside(
        &mut self,
        side: Side,
        value: Option<&[Tok]>,
        font: FontUnits,
        at: u32,
    ) -> Result<Step, Fault>
        ensures { MatchResult result
            (λ step. spec.beside at evaluated font side (option_copied value.entry) self.old
            ≡ Ok (spec.stepping self.new (step ∷ [])))
            (λ fault. spec.beside at evaluated font side (option_copied value.entry) self.old
            ≡ Err fault) }
    {
        let length = match value {
            Some(_) => number_value(value, font, at)?,
            None => Scaled::within(0),
        };
        self.anchor = facing(side);
        Ok(shift_to(side, length))
    }

    /// `name`: an empty one is none.
    fn set_name(&mut self, alloc: Global, value: Option<&[Tok]>, at: u32) -> Result<(), Refusal>
        ensures { Gives (λ _. self.new) result
            (spec.with_name at (option_copied value.entry) self.old) }
    {
        let Some(list) = value else {
            return Err(Refusal::new(Code::ValueRequired, at));
        };
        let Some(name) = text_in(alloc, trimmed(list))? else {
            return Err(Refusal::new(Code::Coordinate, at));
        };
        self.name = if name.is_empty() {
            None
        } else {
            Some(NodeName::new(alloc, &name)?)
        };
        Ok(())
    }

    /// A key that isn't known: its own name is a colour or a shape, and it has no value.
    fn set_by_own_name(&mut self, name: &str, value: Option<&[Tok]>, at: u32) -> Result<(), Refusal>
        ensures { Gives (λ _. self.new) result
            (spec.by_own_name at name.now (option_copied value.entry) self.old) }
    {
        if value.is_some() {
            return Err(Refusal::new(Code::UnknownKey, at));
        }
        if let Some(colour) = colour(name) {
            self.set_colour(ColourKey::Color, colour);
            return Ok(());
        }
        let Some(shape) = shape_named(name) else {
            return Err(Refusal::new(Code::UnknownKey, at));
        };
        self.shape = shape;
        Ok(())
    }

    /// Sets what a key says. `name` is the name of the key.
    #[tactic(auto, unfolding(crate::specs::Applied::set_look))]
    fn set(
        &mut self,
        alloc: Global,
        key: LookKey,
        name: &str,
        value: Option<&[Tok]>,
        font: FontUnits,
        at: u32,
    ) -> Result<(), Refusal>
        ensures { Gives (λ _. self.new) result
            (spec.set_look at evaluated font key name.now (option_copied value.entry) self.old) }
    {
        match key {
            LookKey::Colour(key) => self.set_colour(key, colour_value(alloc, value, at)?),
            LookKey::Paint(key) => return self.paint(alloc, key, value, at),
            LookKey::Length(key) => self.set_length(key, number_value(value, font, at)?),
            LookKey::Angle(key) => self.set_angle(key, number_value(value, font, at)?),
            LookKey::Measure(key) => self.set_measure(key, measure_value(value, font, at)?),
            LookKey::Flag(key) => self.set_flag(key),
            LookKey::LineWidth => self.line_width = width_value(value, font, at)?,
            LookKey::LineCap => self.line_cap = cap_value(alloc, value, at)?,
            LookKey::LineJoin => self.line_join = join_value(alloc, value, at)?,
            LookKey::MiterLimit => self.miter_limit = limit_value(value, font, at)?,
            LookKey::DashPattern => self.dash_pattern = pattern_value(value, font, at)?,
            LookKey::Shape => self.shape = shape_value(alloc, value, at)?,
            LookKey::Anchor => self.anchor = anchor_value(alloc, value, font, at)?,
            LookKey::Pos => self.pos = Some(position_value(value, font, at)?),
            LookKey::Name => return self.set_name(alloc, value, at),
            LookKey::Unknown => return self.set_by_own_name(name, value, at),
        }
        Ok(())
    }

    /// The steps that a key makes. `above` and its like also set the anchor.
    #[tactic(auto, unfolding(crate::specs::Applied::transformed))]
    fn transform(
        &mut self,
        key: TransformKey,
        value: Option<&[Tok]>,
        font: FontUnits,
        at: u32,
    ) -> Result<KeySteps, Fault>
        ensures { MatchResult result
            (λ steps. spec.transformed at evaluated font key (option_copied value.entry) self.old
            ≡ Ok (spec.stepping self.new steps.items))
            (λ fault. spec.transformed at evaluated font key (option_copied value.entry) self.old
            ≡ Err fault) }
    {
        match (key, value) {
            (TransformKey::Step(key), _) => {
                Ok(one_step(step_of(key, number_value(value, font, at)?)))
            }
            (TransformKey::Beside(side), _) => {
                Ok(one_step(self.put_beside(side, value, font, at)?))
            }
            (_, None) => Err(Fault::new(Code::ValueRequired, at)),
            (TransformKey::Shift, Some(list)) => { Ok(one_step(shift_by(self, list, font, at)?)) }
            (TransformKey::RotateAround, Some(list)) => turn_around(self, list, font, at),
            (TransformKey::Cm, Some(list)) => Ok(one_step(matrix_step(self, list, font, at)?)),
        }
    }

    /// What the function `apply` does, where the values of expressions are those of the machine.
    pub(crate) fn apply(
        &mut self,
        alloc: Global,
        key: Native,
        name: &str,
        value: Option<&[Tok]>,
        font: FontUnits,
        at: u32,
    ) -> Result<KeySteps, Refusal>
        ensures { Gives (λ steps. spec.stepping self.new steps.items) result
            (spec.native_applied at evaluated font key name.now (option_copied value.entry)
            self.old) }
    {
        match key {
            Native::Look(key) => {
                self.set(alloc, key, name, value, font, at)?;
                Ok(ArrayVec::new())
            }
            Native::Transform(key) => Ok(self.transform(key, value, font, at)?),
        }
    }
}

/// What a key that is there from the beginning makes of its value and of a look: the look changes, and the steps are
/// those that it puts behind the others of the transformation, in order.
///
/// The value is expanded already, and `name` is the last part of the path of the key that was asked. `at` is the place
/// of the key's part in its list, at which these faults stand: `ValueRequired` where a value has to be there and isn't,
/// `UnknownChoice` where it isn't a word of the key, `Colour` where it isn't the text of a colour, `NoAnchor` where it
/// is neither the name of an anchor nor an expression, `Coordinate` where a pair in parentheses or the name of a node
/// has to stand and doesn't, `Domain` where the key doesn't take the number or where a sign or word of its form is
/// missing, `TooLarge` where the vector of a pair is too long, and `UnknownKey` where the key isn't known. The faults
/// of expressions stand where `eval` puts them. After a refusal the look is fit only to be dropped.
pub fn apply(
    alloc: Global,
    look: &mut Look,
    key: Native,
    name: &str,
    value: Option<&[Tok]>,
    font: FontUnits,
    at: u32,
) -> Result<ArrayVec<Step, 3>, Refusal>
    ensures { (ev : Evaluation) → IsEvaluation ev
        → Gives (λ steps. spec.stepping look.new steps.items) result
        (spec.native_applied at ev font key name.now (option_copied value.entry) look.old) }
{
    look.apply(alloc, key, name, value, font, at)
}
