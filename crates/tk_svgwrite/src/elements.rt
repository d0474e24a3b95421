//! Elements, one a line. Each call writes at the end of `out`, or runs out of memory.

ghost use Rattle.std.specs.Prelude.{◌≡◌, ◌∷◌, ◌++◌, [], OnOk, Some, codes, flat_map, neg_ℤ};
ghost use Rattle.std.specs.List.{AllByRecursion};
ghost use Rattle.tk_num.specs.Number.{IsScaled};
ghost use Rattle.tk_num.specs.Text.{text_of};
ghost use Rattle.tk_item.specs.declared.Item.TheVariants.{Path};
ghost use Rattle.tk_svg.specs.Document.{IsFamily, size_of};
ghost use Rattle.tk_svg.specs.Fitting.{Fits, FitsBox};
ghost use Rattle.tk_svgwrite.specs.Plain.{fill_attributes, stroke_attributes};
ghost use Rattle.tk_svgwrite.specs.Values.{attribute_text, attributes_text, differing};
ghost use Rattle.tk_svgwrite.specs.Plain.{item_text, points_text, box_text, frame_width, frame_height};
ghost use Rattle.tk_svgwrite.specs.Values.{numbers_text};
ghost use Rattle.tk_svgwrite.specs.Plain.{svg_text};
ghost use Rattle.tk_svgwrite.specs.Presentations.{IsKept};
ghost use Rattle.tk_svgwrite.specs.Ranges.{FillInRange, StrokeInRange, StrokeNumbersInRange, ItemInRange};

use crate::attributes::{
    close_attribute, open_attribute, put_dashes, put_optional, put_optional_number,
};
use crate::labels::put_label;
use crate::presentation::Presentation;
use crate::values::{
    cap_word, join_word, put_data, put_number, put_pair, put_scaled, rgb_digits, rule_word,
};
use std::alloc::{AllocError, Global};
use tk_item::{Drawing, Fill, Frame, Item, Seg, Stroke, Text};
use tk_num::Scaled;

/// Writes the elements of items.
pub(crate) fn put_items(out: &mut Vec<u8>, alloc: Global, items: &[Item]) -> Result<(), AllocError>
    ensures text { OnOk result (out.new.items ≡ out.old.items ++ flat_map item_text items.now) }
    ensures range { OnOk result (AllByRecursion ItemInRange items.now) }
{
    let mut presentation = Presentation::new(alloc)?;
    for item in items {
        put_item(out, &mut presentation, item)?;
    }
    Ok(())
}

/// Writes the element of an item. `presentation` is that of the path before.
#[tactic(auto, unfolding(crate::specs::Plain::item_text))]
fn put_item(
    out: &mut Vec<u8>,
    presentation: &mut Presentation,
    item: &Item,
) -> Result<(), AllocError>
    requires { IsKept presentation.old }
    ensures text { OnOk result (out.new.items ≡ out.old.items ++ item_text item.now) }
    ensures range { OnOk result (ItemInRange item.now) }
    ensures kept { OnOk result (IsKept presentation.new) }
{
    match item {
        Item::Path(segs, fill, stroke) => {
            presentation.set(*fill, stroke)?;
            put_path(out, segs.as_slice(), presentation)
        }
        Item::Label(label) => put_label(out, label),
    }
}

/// Writes the element of a path that looks so.
fn put_path(out: &mut Vec<u8>, segs: &[Seg], presentation: &Presentation) -> Result<(), AllocError>
    requires { IsKept presentation.now }
    ensures text { OnOk result (out.new.items ≡ out.old.items
        ++ item_text (Path segs.now presentation.now.fill presentation.now.stroke)) }
    ensures range { OnOk result
        (ItemInRange (Path segs.now presentation.now.fill presentation.now.stroke)) }
{
    out.extend_from_slice(b"<path d=\"")?;
    put_data(out, segs)?;
    out.extend_from_slice(presentation.as_slice())?;
    Ok(())
}

/// Writes how a path is filled.
pub(crate) fn put_fill(out: &mut Vec<u8>, fill: Option<Fill>) -> Result<(), AllocError>
    ensures text { OnOk result
        (out.new.items ≡ out.old.items ++ attributes_text (differing (fill_attributes fill))) }
    ensures range { OnOk result (FillInRange fill) }
{
    match fill {
        None => put_optional(out, b"fill", b"#000000", b"none"),
        Some(fill) => {
            put_optional(out, b"fill", b"#000000", &rgb_digits(fill.rgb))?;
            put_optional(out, b"fill-rule", b"nonzero", rule_word(fill.rule))
        }
    }
}

/// Writes how a path is drawn.
#[tactic(auto, unfolding(crate::specs::Values::differing))]
pub(crate) fn put_stroke(out: &mut Vec<u8>, stroke: &Option<Stroke>) -> Result<(), AllocError>
    ensures text { OnOk result (out.new.items
        ≡ out.old.items ++ attributes_text (differing (stroke_attributes stroke.now))) }
    ensures range { OnOk result (StrokeInRange stroke.now) }
{
    match stroke {
        None => Ok(()),
        Some(stroke) => put_pen(out, stroke),
    }
}

fn put_pen(out: &mut Vec<u8>, stroke: &Stroke) -> Result<(), AllocError>
    ensures text { OnOk result (out.new.items
        ≡ out.old.items ++ attributes_text (differing (stroke_attributes (Some stroke.now)))) }
    ensures range { OnOk result (StrokeNumbersInRange stroke.now) }
{
    put_optional(out, b"stroke", b"none", &rgb_digits(stroke.rgb))?;
    put_optional_number(out, b"stroke-width", b"1", stroke.width)?;
    put_optional(out, b"stroke-linecap", b"butt", cap_word(stroke.cap))?;
    put_optional(out, b"stroke-linejoin", b"miter", join_word(stroke.join))?;
    put_optional_number(out, b"stroke-miterlimit", b"4", stroke.miter)?;
    put_dashes(out, &stroke.dash)?;
    put_optional_number(out, b"stroke-dashoffset", b"0", stroke.phase)
}

/// Writes the start tag of the outermost element.
pub(crate) fn put_svg(out: &mut Vec<u8>, drawing: &Drawing) -> Result<(), AllocError>
    requires { Fits drawing.now }
    ensures text { OnOk result (out.new.items ≡ out.old.items ++ svg_text drawing.now) }
    ensures range { OnOk result (IsScaled drawing.now.size) }
{
    out.extend_from_slice(b"<svg xmlns=\"http://www.w3.org/2000/svg\" version=\"1.1\"")?;
    put_frame(out, drawing.frame)?;
    put_family(out, &drawing.family)?;
    put_size(out, drawing.size)?;
    out.extend_from_slice(b">\n")?;
    Ok(())
}

/// Writes the size of the document, and what is seen in it.
fn put_frame(out: &mut Vec<u8>, frame: Frame) -> Result<(), AllocError>
    requires top { FitsBox frame.top }
    requires width { FitsBox (frame_width frame) }
    requires height { FitsBox (frame_height frame) }
    ensures { OnOk result (out.new.items ≡ out.old.items
        ++ attributes_text ((codes "width", points_text (frame_width frame))
        ∷ (codes "height", points_text (frame_height frame))
        ∷ (codes "viewBox", box_text frame) ∷ [])) }
{
    put_width(out, frame)?;
    put_height(out, frame)?;
    put_view_box(out, frame)
}

/// Writes how wide the document is.
fn put_width(out: &mut Vec<u8>, frame: Frame) -> Result<(), AllocError>
    requires { FitsBox (frame_width frame) }
    ensures { OnOk result (out.new.items ≡ out.old.items
        ++ attribute_text (codes "width", points_text (frame_width frame))) }
{
    put_points(out, b"width", frame.right - frame.left)
}

/// Writes how high the document is.
fn put_height(out: &mut Vec<u8>, frame: Frame) -> Result<(), AllocError>
    requires { FitsBox (frame_height frame) }
    ensures { OnOk result (out.new.items ≡ out.old.items
        ++ attribute_text (codes "height", points_text (frame_height frame))) }
{
    put_points(out, b"height", frame.top - frame.bottom)
}

/// Writes an attribute that is a length in SVG's points, of which 800 are as long as 803 of TeX's.
fn put_points(out: &mut Vec<u8>, name: &[u8], length: i64) -> Result<(), AllocError>
    requires { FitsBox length }
    ensures { OnOk result
        (out.new.items ≡ out.old.items ++ attribute_text (name.now, points_text length)) }
{
    open_attribute(out, name)?;
    put_number(out, svg_points(length))?;
    out.extend_from_slice(b"pt")?;
    close_attribute(out)
}

/// The length in SVG's points.
fn svg_points(length: i64) -> i64
    requires { FitsBox length }
    ensures { result ≡ size_of length }
{
    length * 800 / 803
}

/// Writes the view box, whose y is downward.
fn put_view_box(out: &mut Vec<u8>, frame: Frame) -> Result<(), AllocError>
    requires top { FitsBox frame.top }
    requires width { FitsBox (frame_width frame) }
    requires height { FitsBox (frame_height frame) }
    ensures { OnOk result
        (out.new.items ≡ out.old.items ++ attribute_text (codes "viewBox", box_text frame)) }
{
    open_attribute(out, b"viewBox")?;
    put_box(out, frame)?;
    close_attribute(out)
}

/// Writes its left side, its top, its width and its height.
fn put_box(out: &mut Vec<u8>, frame: Frame) -> Result<(), AllocError>
    requires top { FitsBox frame.top }
    requires width { FitsBox (frame_width frame) }
    requires height { FitsBox (frame_height frame) }
    ensures { OnOk result (out.new.items ≡ out.old.items ++ box_text frame) }
{
    put_box_corner(out, frame)?;
    out.push(b' ')?;
    put_box_width(out, frame)?;
    out.push(b' ')?;
    put_box_height(out, frame)
}

fn put_box_corner(out: &mut Vec<u8>, frame: Frame) -> Result<(), AllocError>
    requires { FitsBox frame.top }
    ensures { OnOk result
        (out.new.items ≡ out.old.items ++ numbers_text (frame.left ∷ neg_ℤ frame.top ∷ [])) }
{
    put_pair(out, frame.left, -frame.top)
}

fn put_box_width(out: &mut Vec<u8>, frame: Frame) -> Result<(), AllocError>
    requires { FitsBox (frame_width frame) }
    ensures { OnOk result (out.new.items ≡ out.old.items ++ text_of (frame_width frame)) }
{
    put_number(out, frame.right - frame.left)
}

fn put_box_height(out: &mut Vec<u8>, frame: Frame) -> Result<(), AllocError>
    requires { FitsBox (frame_height frame) }
    ensures { OnOk result (out.new.items ≡ out.old.items ++ text_of (frame_height frame)) }
{
    put_number(out, frame.top - frame.bottom)
}

fn put_family(out: &mut Vec<u8>, family: &Text) -> Result<(), AllocError>
    requires { IsFamily family.now }
    ensures { OnOk result
        (out.new.items ≡ out.old.items ++ attribute_text (codes "font-family", family.now)) }
{
    open_attribute(out, b"font-family")?;
    for letter in family.as_slice() {
        out.push(*letter as u8)?;
    }
    close_attribute(out)
}

fn put_size(out: &mut Vec<u8>, size: Scaled) -> Result<(), AllocError>
    ensures text { OnOk result
        (out.new.items ≡ out.old.items ++ attribute_text (codes "font-size", text_of size)) }
    ensures range { OnOk result (IsScaled size) }
{
    open_attribute(out, b"font-size")?;
    put_scaled(out, size)?;
    close_attribute(out)
}
