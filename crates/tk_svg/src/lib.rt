//! What the bytes of an SVG document mean: definitions, which the writer and the reader share, and
//! the laws that no bytes mean two things, and that what they mean fits the form.
//!
//! The form is a part of SVG 1.1. A document is an `svg` element with seven attributes. In it stand `path`
//! elements with the commands `M`, `L`, `C` and `Z`, `text` elements, and groups of these. The attributes of
//! fill and stroke that a group has hold in it, where no nearer element has its own.
#![tactic(auto)]

ghost use Rattle.std.specs.Prelude.{◌≡◌, ℕ, List};
ghost use Rattle.tk_item.specs.declared.Drawing.{Drawing};
ghost use Rattle.tk_item.specs.declared.Seg.{Seg};
ghost use Rattle.tk_svg.specs.Document.{IsDocument};
ghost use Rattle.tk_svg.specs.Fitting.{Fits};
ghost use Rattle.tk_svg.specs.PathData.{IsPathData};

/// No bytes are path data for two lists of pieces.
pub fn path_data_means_one()
    ensures { (bytes : List ℕ) (a b : List Seg) → IsPathData bytes a → IsPathData bytes b → a ≡ b }
{}

/// No bytes are a document for two drawings.
pub fn document_means_one()
    ensures { (bytes : List ℕ) (a b : Drawing) → IsDocument bytes a → IsDocument bytes b → a ≡ b }
{}

/// Whatever a document stands for fits the form.
pub fn document_drawing_fits()
    ensures { (bytes : List ℕ) (d : Drawing) → IsDocument bytes d → Fits d }
{}
