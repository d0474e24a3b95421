//! How a caller uses the libraries: the document of a source, and whether two sources draw the same. What is promised
//! here is proved from the contract of `render` alone.
#![tactic(auto)]

ghost use Rattle.std.specs.Prelude.{◌≤◌, length, IfOk, IfErr};
ghost use Rattle.tk_render.specs.Rendered.{IsSvgOf, Explains};
ghost use Rattle.uses.specs.Documents.{asked, Compares};

use std::alloc::Global;
use tk_picture::Asked;
use tk_render::{NoSvg, render};

/// The SVG document of a source, whose run may cost a million units; or its first fault, with line and column.
pub fn svg_of(alloc: Global, source: &[u8]) -> Result<Vec<u8>, NoSvg>
    requires short { length source.now ≤ 16777216 }
    ensures document { IfOk result (λ document. IsSvgOf asked source.now document.items) }
    ensures fault { IfErr result (Explains asked source.now) }
{
    let budget = 1_000_000;
    render(alloc, source, Asked { budget })
}

/// Whether two sources draw the same. Documents tell that: one drawing has one document, and a document reads back as
/// one drawing.
pub fn draw_alike(alloc: Global, one: &[u8], other: &[u8]) -> Result<bool, NoSvg>
    requires one_short { length one.now ≤ 16777216 }
    requires other_short { length other.now ≤ 16777216 }
    ensures { IfOk result (λ same. Compares same one.now other.now) }
{
    let first = svg_of(alloc, one)?;
    let second = svg_of(alloc, other)?;
    Ok(first.as_slice() == second.as_slice())
}
