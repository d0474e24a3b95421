//! How paths look, as the attributes of SVG that present them. What is written of a path behind its data is kept, and
//! copied for each path that looks like the one before.

ghost use Rattle.std.specs.Prelude.{◌≡◌, ◌∷◌, ◌++◌, [], OnOk, IfOk, IsTrue, Some};
ghost use Rattle.tk_svgwrite.specs.Presentations.{presentation_text, IsPresentation, IsKept};

use crate::elements::{put_fill, put_stroke};
use std::alloc::{AllocError, Global};
use tk_item::{Dashes, Fill, Stroke};

/// A fill and a stroke, with the bytes that are written of them behind a path's data: for one that is not
/// filled, and drawn in black with a width of 1, these are `" fill="none" stroke="#000000"/>` and a line
/// feed.
#[derive(Drop)]
pub(crate) struct Presentation {
    fill: Option<Fill>,
    stroke: Option<Stroke>,
    text: Vec<u8>,
}

impl Presentation {
    /// The presentation of a path that is neither filled nor drawn.
    pub(crate) fn new(alloc: Global) -> Result<Presentation, AllocError>
        ensures { IfOk result IsKept }
    {
        let mut text = Vec::new(alloc);
        put_presentation(&mut text, None, &None)?;
        Ok(Presentation {
            fill: None,
            stroke: None,
            text,
        })
    }

    /// Becomes the presentation of this fill and stroke. The bytes are found anew only where it was another.
    pub(crate) fn set(
        &mut self,
        fill: Option<Fill>,
        stroke: &Option<Stroke>,
    ) -> Result<(), AllocError>
        requires { IsKept self.old }
        ensures kept { OnOk result (IsKept self.new) }
        ensures fill { OnOk result (self.new.fill ≡ fill) }
        ensures stroke { OnOk result (self.new.stroke ≡ stroke.now) }
    {
        if self.fill == fill && are_same(&self.stroke, stroke) {
            return Ok(());
        }
        self.text.clear();
        put_presentation(&mut self.text, fill, stroke)?;
        self.fill = fill;
        self.stroke = copy_of(stroke);
        Ok(())
    }

    /// The bytes of the presentation.
    pub(crate) fn as_slice(&self) -> &[u8]
        ensures { result.now ≡ self.now.text.items }
    {
        self.text.as_slice()
    }
}

/// Writes the bytes of a presentation.
fn put_presentation(
    out: &mut Vec<u8>,
    fill: Option<Fill>,
    stroke: &Option<Stroke>,
) -> Result<(), AllocError>
    requires { out.old.items ≡ [] }
    ensures { OnOk result (IsPresentation fill stroke.now out.new.items) }
{
    out.push(b'"')?;
    put_fill(out, fill)?;
    put_stroke(out, stroke)?;
    out.extend_from_slice(b"/>\n")?;
    Ok(())
}

/// Whether two strokes, or their absence, are the same.
fn are_same(one: &Option<Stroke>, other: &Option<Stroke>) -> bool
    ensures { IsTrue result → one.now ≡ other.now }
{
    match (one, other) {
        (None, None) => true,
        (Some(one), Some(other)) => is_same(one, other),
        _ => false,
    }
}

/// Whether two strokes are the same.
fn is_same(one: &Stroke, other: &Stroke) -> bool
    ensures { IsTrue result → one.now ≡ other.now }
{
    if !is_painted_alike(one, other) || !is_measured_alike(one, other) {
        return false;
    }
    one.dash.as_slice() == other.dash.as_slice()
}

/// Whether two strokes have the same colour and the same shape of ends and corners.
fn is_painted_alike(one: &Stroke, other: &Stroke) -> bool
    ensures rgb { IsTrue result → one.now.rgb ≡ other.now.rgb }
    ensures cap { IsTrue result → one.now.cap ≡ other.now.cap }
    ensures join { IsTrue result → one.now.join ≡ other.now.join }
{
    one.rgb == other.rgb && one.cap == other.cap && one.join == other.join
}

/// Whether two strokes have the same numbers, but for their dashes.
#[tactic(auto, using(crate::proofs::Strokes::same_number))]
fn is_measured_alike(one: &Stroke, other: &Stroke) -> bool
    ensures width { IsTrue result → one.now.width ≡ other.now.width }
    ensures miter { IsTrue result → one.now.miter ≡ other.now.miter }
    ensures phase { IsTrue result → one.now.phase ≡ other.now.phase }
{
    one.width == other.width && one.miter == other.miter && one.phase == other.phase
}

/// The same stroke once more.
fn copy_of(stroke: &Option<Stroke>) -> Option<Stroke>
    ensures { result ≡ stroke.now }
{
    match stroke {
        None => None,
        Some(stroke) => Some(Stroke {
            rgb: stroke.rgb,
            width: stroke.width,
            cap: stroke.cap,
            join: stroke.join,
            miter: stroke.miter,
            dash: stroke.dash.copy(),
            phase: stroke.phase,
        }),
    }
}
