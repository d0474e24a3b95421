//! The document of a file.

ghost use Rattle.std.specs.Prelude.{◌≡◌, IfOk, IfErr};
ghost use Rattle.tk_program.specs.Commands.{order_of, IsWithinBudget};
ghost use Rattle.tk_program.specs.Run.{UsesOne};
ghost use Rattle.tk_program.specs.Refused.{Refuses, IsDocumentOf, read_cause, source_cause};

use crate::words::Order;
use std::alloc::Global;
use tk_io::{ReadRefusal, Shelf, read_all};
use tk_render::{NoSvg, Placed, render};

/// Why a file gives no document.
#[derive(Clone, Copy, PartialEq, Eq)]
pub(crate) enum NoDocument {
    /// The shelf failed.
    ReadFault,
    /// The file has more than 16,777,216 bytes.
    TooLong,
    /// The first fault of the source.
    Fault(Placed),
    /// No memory was left.
    OutOfMemory,
}

impl From<ReadRefusal> for NoDocument {
    ghost from_gives = { λ refusal e. e ≡ read_cause refusal };

    fn from(refusal: ReadRefusal) -> Self {
        match refusal {
            ReadRefusal::Failed => NoDocument::ReadFault,
            ReadRefusal::TooLong => NoDocument::TooLong,
            ReadRefusal::OutOfMemory => NoDocument::OutOfMemory,
        }
    }
}

impl From<NoSvg> for NoDocument {
    ghost from_gives = { λ cause e. e ≡ source_cause cause };

    fn from(cause: NoSvg) -> Self {
        match cause {
            NoSvg::Fault(placed) => NoDocument::Fault(placed),
            NoSvg::OutOfMemory => NoDocument::OutOfMemory,
        }
    }
}

/// The document of a file's drawing, whole in memory. The file's bytes are given back by then.
pub(crate) fn document_of<H: Shelf>(
    alloc: Global,
    shelf: &mut H,
    order: Order<'_>,
) -> Result<Vec<u8>, NoDocument>
    requires few { IsWithinBudget order }
    ensures document { IfOk result (λ v.
        IsDocumentOf (order_of order.entry) (H.meaning shelf.old) (H.meaning shelf.new) v.items) }
    ensures refused { IfErr result (λ e.
        Refuses (order_of order.entry) (H.meaning shelf.old) (H.meaning shelf.new) e) }
    ensures shelf { UsesOne order.entry.file.now (H.meaning shelf.old) (H.meaning shelf.new) }
{
    let source = read_all(alloc, shelf, order.file)?;
    Ok(render(alloc, source.as_slice(), order.asked)?)
}
