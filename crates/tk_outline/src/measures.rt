//! What circles, arcs and grids are measured by.

ghost use Rattle.std.specs.Prelude.{◌≡◌, Ok, Err, MatchResult};
ghost use Rattle.tk_characters.specs.Characters.{colon};
ghost use Rattle.tk_token.specs.declared.Code.TheVariants.{PathSyntax};
ghost use Rattle.tk_token.specs.Answers.{◌>>=◌ as ◌followed_by◌, or_fault};
ghost use Rattle.tk_token.specs.Groups.{cut, before_char as spec_before_char};
ghost use Rattle.tk_expr.specs.Evaluated.{evaluated};
ghost use Rattle.tk_outline.specs.Measures as spec;

use crate::current_path::Mesh;
use tk_affine::Matrix;
use tk_expr::{FontUnits, Value, eval, length_along, placed};
use tk_look::GraphicsState;
use tk_num::{Scaled, add, sub};
use tk_token::{Code, Fault, Sought, Tok, before_char, first_outside};

/// What circles, arcs and grids are measured by.
#[derive(Clone, Copy)]
pub struct Measures {
    pub matrix: Matrix,
    /// The lengths of the x and y vectors.
    pub x: Scaled,
    pub y: Scaled,
    pub radii: Radii,
    pub start_angle: Option<Scaled>,
    pub end_angle: Option<Scaled>,
    pub delta_angle: Option<Scaled>,
    pub xstep: Value,
    pub ystep: Value,
}

/// Two radii as they were given: a number without a unit counts x or y vectors.
#[derive(Clone, Copy)]
pub struct Radii {
    pub x: Value,
    pub y: Value,
}

/// The angles between which an arc goes, in 65536ths of a degree.
#[derive(Clone, Copy)]
pub struct Sweep {
    pub from: Scaled,
    pub to: Scaled,
}

/// What an arc is measured by.
#[derive(Clone, Copy)]
pub struct ArcMeasures {
    pub measures: Measures,
    pub sweep: Sweep,
}

/// The angles and radii of an arc as a text in parentheses has them.
#[derive(Clone, Copy)]
pub struct ArcText {
    pub sweep: Sweep,
    pub radii: Radii,
}

impl Measures {
    /// Those where and how is drawn so.
    pub fn of(graphics: &GraphicsState) -> Measures
        ensures { result ≡ spec.measures_of graphics.now }
    {
        let GraphicsState { matrix, look } = graphics;
        Measures {
            matrix: *matrix,
            x: look.x,
            y: look.y,
            radii: Radii {
                x: look.x_radius,
                y: look.y_radius,
            },
            start_angle: look.start_angle,
            end_angle: look.end_angle,
            delta_angle: look.delta_angle,
            xstep: look.xstep,
            ystep: look.ystep,
        }
    }

    /// The length of a number across, where one without a unit counts x vectors.
    pub fn length_across(&self, value: Value, at: u32) -> Result<Scaled, Fault>
        ensures { result ≡ spec.length_across self.now at value }
    {
        length_along(self.x, value, at)
    }

    /// The same upward, with y vectors.
    pub fn length_upward(&self, value: Value, at: u32) -> Result<Scaled, Fault>
        ensures { result ≡ spec.length_upward self.now at value }
    {
        length_along(self.y, value, at)
    }

    /// The lengths of the radii.
    pub fn radii_lengths(&self, at: u32) -> Result<(Scaled, Scaled), Fault>
        ensures { result ≡ spec.length_across self.now at self.now.radii.x
            followed_by (λ rx. spec.length_upward self.now at self.now.radii.y followed_by
            (λ ry. Ok (rx, ry))) }
    {
        let rx = self.length_across(self.radii.x, at)?;
        let ry = self.length_upward(self.radii.y, at)?;
        Ok((rx, ry))
    }

    /// The steps of a grid as lengths, with its matrix.
    pub fn mesh(&self, at: u32) -> Result<Mesh, Fault>
        ensures { result ≡ spec.length_across self.now at self.now.xstep
            followed_by (λ xstep. spec.length_upward self.now at self.now.ystep
            followed_by (λ ystep. Ok
            (record { matrix = self.now.matrix; xstep = xstep; ystep = ystep }))) }
    {
        let xstep = self.length_across(self.xstep, at)?;
        let ystep = self.length_upward(self.ystep, at)?;
        Ok(Mesh {
            matrix: self.matrix,
            xstep,
            ystep,
        })
    }

    /// The angles of an arc by keys: two of them tell the third.
    #[tactic(auto, unfolding(crate::specs::Measures::sweep_of))]
    pub fn sweep(&self, at: u32) -> Result<Sweep, Fault>
        ensures { result
            ≡ spec.sweep_of at self.now.start_angle self.now.end_angle self.now.delta_angle }
    {
        match (self.start_angle, self.end_angle, self.delta_angle) {
            (Some(from), Some(to), _) => Ok(Sweep { from, to }),
            (Some(from), None, Some(delta)) => Ok(Sweep {
                from,
                to: placed(at, add(from, delta))?,
            }),
            (None, Some(to), Some(delta)) => Ok(Sweep {
                from: placed(at, sub(to, delta))?,
                to,
            }),
            _ => Err(Fault::new(Code::PathSyntax, at)),
        }
    }
}

/// The radii of a text, `r and s` or `r`, which is both; `at` is the place of an empty one.
#[tactic(auto, unfolding(crate::specs::Measures::radii_in))]
pub fn radii_in(text: &[Tok], font: &FontUnits, at: u32) -> Result<Radii, Fault>
    ensures { result ≡ spec.radii_in evaluated font.now at text.now }
{
    match first_outside(text, Sought::And) {
        Some((front, rest)) => two_radii(front, rest.get(3..).unwrap_or(&[]), font, at),
        None => one_radius(text, font, at),
    }
}

/// The radii of a text for each.
fn two_radii(first: &[Tok], second: &[Tok], font: &FontUnits, at: u32) -> Result<Radii, Fault>
    ensures { result ≡ evaluated font.now at first.now
        followed_by (λ x. evaluated font.now at second.now followed_by
        (λ y. Ok (record { x = x; y = y }))) }
{
    let x = eval(first, *font, at)?;
    let y = eval(second, *font, at)?;
    Ok(Radii { x, y })
}

/// The radii of a text for both.
fn one_radius(text: &[Tok], font: &FontUnits, at: u32) -> Result<Radii, Fault>
    ensures { result ≡ evaluated font.now at text.now followed_by
        (λ r. Ok (record { x = r; y = r })) }
{
    let radius = &eval(text, *font, at)?;
    Ok(Radii {
        x: *radius,
        y: *radius,
    })
}

/// The angles and radii of `a:b:r` or `a:b:r and s`, whose `(` stands at `at`.
#[tactic(auto, unfolding(crate::specs::Measures::arc_in))]
pub fn arc_in(text: &[Tok], font: &FontUnits, at: u32) -> Result<ArcText, Fault>
    ensures { result ≡ spec.arc_in evaluated font.now at text.now }
{
    let (first, rest) = before_colon(text, at)?;
    let (second, rest) = before_colon(rest, at)?;
    let sweep = sweep_in(first, second, font, at)?;
    let radii = radii_in(rest, font, at)?;
    Ok(ArcText { sweep, radii })
}

/// What stands before the first `:` of a text, and behind it.
fn before_colon(text: &[Tok], at: u32) -> Result<(&[Tok], &[Tok]), Fault>
    ensures { MatchResult result
        (λ parts. or_fault (spec_before_char colon text.now) PathSyntax at
        ≡ Ok (cut parts.0.now parts.1.now))
        (λ fault. or_fault (spec_before_char colon text.now) PathSyntax at ≡ Err fault) }
{
    before_char(text, ':').ok_or(Fault::new(Code::PathSyntax, at))
}

/// The angles of two texts.
fn sweep_in(from: &[Tok], to: &[Tok], font: &FontUnits, at: u32) -> Result<Sweep, Fault>
    ensures { result ≡ spec.angle_in evaluated font.now at from.now
        followed_by (λ a. spec.angle_in evaluated font.now at to.now
        followed_by (λ b. Ok (record { from = a; to = b }))) }
{
    let from = eval(from, *font, at)?.number;
    let to = eval(to, *font, at)?.number;
    Ok(Sweep { from, to })
}
