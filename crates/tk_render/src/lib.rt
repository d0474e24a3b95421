//! From the source of a picture to the bytes of its SVG document, or to its first fault with line and column.
#![tactic(auto)]

ghost use Rattle.std.specs.Prelude.{◌≡◌, ◌<◌, ◌≤◌, length, take, IfOk, IfErr};
ghost use Rattle.std.specs.Str.{IsUtf8};
ghost use Rattle.tk_token.specs.Refusals.{OnFault};
ghost use Rattle.tk_render.specs.declared.NoSvg.TheVariants.{OutOfMemory};
ghost use Rattle.tk_render.specs.Causes.{cause_of};
ghost use Rattle.tk_render.specs.Rendered.{IsSvgOf, Explains};

mod laws;

pub use laws::a_source_comes_to_one_answer;
use std::alloc::{AllocError, Global};
use std::marker::Brand;
use std::sync::ledger::{Blank, Ledger};
use tk_picture::{Asked, compile};
use tk_store::Steps;
use tk_svg::document_means_one;
use tk_svgwrite::write_svg;
use tk_token::{Code, Refusal, place};

/// A fault with its line and column, counted from 1. The column counts characters.
#[derive(Clone, Copy, PartialEq, Eq)]
pub struct Placed {
    pub code: Code,
    pub line: u32,
    pub column: u32,
}

/// Why a source has no document.
#[derive(Clone, Copy, PartialEq, Eq)]
pub enum NoSvg {
    /// The source's first fault.
    Fault(Placed),
    /// No memory was left.
    OutOfMemory,
}

impl From<AllocError> for NoSvg {
    ghost from_gives = { λ _ e. e ≡ OutOfMemory };

    fn from(_: AllocError) -> Self {
        NoSvg::OutOfMemory
    }
}

/// The SVG document of what a source draws, or the source's first fault. The document reads back as that drawing, and
/// as no other. [`compile`] says which faults there are and where they stand, and which time and memory a run takes.
pub fn render(alloc: Global, source: &[u8], asked: Asked) -> Result<Vec<u8>, NoSvg>
    requires short { length source.now ≤ 16777216 }
    requires few { asked.budget ≤ 20000000 }
    ensures document { IfOk result (λ document. IsSvgOf asked source.now document.items) }
    ensures fault { IfErr result (Explains asked source.now) }
{
    render_counting::<Brand>(alloc, source, asked, Blank::new(1))
}

/// The same, with a count of the steps of its own.
fn render_counting<L: Ledger>(
    alloc: Global,
    source: &[u8],
    asked: Asked,
    blank: Blank,
) -> Result<Vec<u8>, NoSvg>
    requires short { length source.now ≤ 16777216 }
    requires few { asked.budget ≤ 20000000 }
    requires name { blank.name ≡ L.name }
    requires parts { blank.parts ≡ L.parts }
    requires some { 0 < L.parts }
    ensures document { IfOk result (λ document. IsSvgOf asked source.now document.items) }
    ensures fault { IfErr result (Explains asked source.now) }
{
    match compile::<L>(alloc, source, asked, &mut Steps::new(blank)) {
        Ok(compiled) => {
            // A law, for the proof: the document reads back as no other drawing.
            document_means_one();
            Ok(write_svg(alloc, &compiled.drawing)?)
        }
        Err(refusal) => Err(explained(source, refusal)),
    }
}

/// A refusal of a source, with the line and the column of its fault.
fn explained(source: &[u8], refusal: Refusal) -> NoSvg
    requires short { length source.now ≤ 16777216 }
    requires place { OnFault refusal (λ f. f.at ≤ length source.now) }
    requires text { OnFault refusal (λ f. IsUtf8 (take f.at source.now)) }
    ensures { result ≡ cause_of source.now refusal }
{
    match refusal {
        Refusal::Fault(fault) => {
            let (line, column) = place(source, fault.at);
            let code = fault.code;
            NoSvg::Fault(Placed { code, line, column })
        }
        Refusal::OutOfMemory => NoSvg::OutOfMemory,
    }
}
