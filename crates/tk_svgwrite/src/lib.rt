//! Writes a drawing as an SVG document.
//!
//! A drawing has one document: an element a line, and each attribute that may be left out exactly where its
//! value is not the initial one, in a fixed order. Lengths are in TeX's points, which are the user units of
//! the document, with at most five digits after the point. A drawing's y is upward, a document's
//! downward.
#![tactic(auto)]

ghost use Rattle.std.specs.Prelude.{◌≡◌, ◌++◌, IfOk, OnOk};
ghost use Rattle.std.specs.List.{AllByRecursion};
ghost use Rattle.tk_num.specs.Number.{IsScaled};
ghost use Rattle.tk_svg.specs.Document.{IsDocument};
ghost use Rattle.tk_svg.specs.Fitting.{Fits};
ghost use Rattle.tk_svgwrite.specs.Plain.{document_text};
ghost use Rattle.tk_svgwrite.specs.Ranges.{ItemInRange};

mod attributes;
mod elements;
mod labels;
mod presentation;
mod values;

use elements::{put_items, put_svg};
use std::alloc::{AllocError, Global};
use tk_item::Drawing;

/// The room that is asked for at first for each item. Where its line is longer, more is asked for.
const LINE: usize = 64;

/// Writes the SVG document of a drawing, in time linear in its length. The document means
/// this drawing and no other. The only error is want of memory.
pub fn write_svg(alloc: Global, drawing: &Drawing) -> Result<Vec<u8>, AllocError>
    requires fits { Fits drawing.now }
    ensures text { IfOk result (λ v. v.items ≡ document_text drawing.now) }
    ensures means { IfOk result (λ v. IsDocument v.items drawing.now) }
{
    let room = drawing.items.as_slice().len().saturating_mul(LINE);
    let mut out = Vec::with_capacity(alloc, room)?;
    put_document(&mut out, alloc, drawing)?;
    Ok(out)
}

/// Writes the document of a drawing at the end of `out`, or runs out of memory.
fn put_document(out: &mut Vec<u8>, alloc: Global, drawing: &Drawing) -> Result<(), AllocError>
    requires { Fits drawing.now }
    ensures text { OnOk result (out.new.items ≡ out.old.items ++ document_text drawing.now) }
    ensures size { OnOk result (IsScaled drawing.now.size) }
    ensures range { OnOk result (AllByRecursion ItemInRange drawing.now.items) }
{
    out.extend_from_slice(b"<?xml version=\"1.0\" encoding=\"UTF-8\"?>\n")?;
    put_svg(out, drawing)?;
    put_items(out, alloc, drawing.items.as_slice())?;
    out.extend_from_slice(b"</svg>\n")?;
    Ok(())
}
