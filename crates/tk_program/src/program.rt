//! The whole program over any shelf and any sinks.

ghost use Rattle.std.specs.Prelude.{◌≡◌, ◌≤◌, IfOk, map, string_bytes};
ghost use Rattle.tk_program.specs.Commands.{asked_by, order_of, IsWithinBudget, IsWithinBudgets};
ghost use Rattle.tk_program.specs.Words.{command_of as asked};
ghost use Rattle.tk_program.specs.Lines.{usage_line, out_of_memory_line};
ghost use Rattle.tk_program.specs.Run.{world, Runs, Says, UsesOne};
ghost use Rattle.tk_program.specs.Endings.{Ends, EndsAsAsked, Delivers, Reports, line_of_cause, status_of_cause};

use crate::document::{NoDocument, document_of};
use crate::lines::{fault_line, read_fault_line};
use crate::words::{Command, NoWords, Order, command_of};
use std::alloc::{AllocError, Global};
use tk_io::{Shelf, Sink, write_all};
use tk_render::{Placed, a_source_comes_to_one_answer};
use tk_token::Code;

const USAGE: &[u8] = b"tikzsvg: Usage\n";

const WRITE_FAULT: &[u8] = b"tikzsvg: WriteFault\n";

const OUT_OF_MEMORY: &[u8] = b"tikzsvg: OutOfMemory\n";

/// How a run ends. Its number is the status of the process.
#[derive(Clone, Copy, PartialEq, Eq)]
pub(crate) enum Status {
    /// The document was written.
    Done = 0,
    /// The source has a fault.
    Fault = 1,
    /// The words are faulty.
    Usage = 2,
    /// The shelf failed.
    ReadFault = 3,
    /// `out` failed.
    WriteFault = 4,
    /// No memory was left.
    OutOfMemory = 5,
}

/// Runs the program: does what the words ask for, and answers the status of the process.
///
/// `words` are those of the command line without the program's own name. `render FILE` writes the
/// SVG document of a file's drawing to `out`; the file `-` is standard input. What went wrong is
/// said in one line to `err`:
///
/// | status | line | when |
/// |---|---|---|
/// | 0 | none | the document was written |
/// | 1 | `FILE:LINE:COLUMN: FAULT` | the source has a fault, or more than 16,777,216 bytes |
/// | 2 | `tikzsvg: Usage` | the words are faulty |
/// | 3 | `FILE: ReadFault` | the shelf failed |
/// | 4 | `tikzsvg: WriteFault` | `out` failed |
/// | 5 | `tikzsvg: OutOfMemory` | no memory was left |
///
/// The document is whole in memory before its first byte is written, so `out` takes nothing with a
/// status of 1, 2, 3 or 5. A failure of `err` changes no status, and leaves a part of the line.
pub fn run<H: Shelf, O: Sink, E: Sink>(
    alloc: Global,
    words: &[String],
    shelf: &mut H,
    out: &mut O,
    err: &mut E,
) -> u8
    ensures { Runs (asked (map string_bytes words.now))
        (world (H.meaning shelf.old) (O.meaning out.old) (E.meaning err.old))
        (world (H.meaning shelf.new) (O.meaning out.new) (E.meaning err.new))
        result }
{
    // A law, for the proof: there is one status for what a source comes to.
    a_source_comes_to_one_answer();
    answer(alloc, words, shelf, out, err) as u8
}

/// Ends a program whose words the host refused, and answers its status.
pub fn without_words<E: Sink>(cause: NoWords, err: &mut E) -> u8
    ensures usage { cause ≡ NoWords.Unreadable
        → (result ≡ 2) × Says (E.meaning err.old) (E.meaning err.new) usage_line }
    ensures memory { cause ≡ NoWords.OutOfMemory
        → (result ≡ 5) × Says (E.meaning err.old) (E.meaning err.new) out_of_memory_line }
{
    match cause {
        NoWords::OutOfMemory => {
            say(err, OUT_OF_MEMORY);
            Status::OutOfMemory as u8
        }
        NoWords::Unreadable => {
            say(err, USAGE);
            Status::Usage as u8
        }
    }
}

/// Does what the words ask for.
fn answer<H: Shelf, O: Sink, E: Sink>(
    alloc: Global,
    words: &[String],
    shelf: &mut H,
    out: &mut O,
    err: &mut E,
) -> Status
    ensures { EndsAsAsked (asked (map string_bytes words.now))
        (world (H.meaning shelf.old) (O.meaning out.old) (E.meaning err.old))
        (world (H.meaning shelf.new) (O.meaning out.new) (E.meaning err.new))
        result }
{
    match command_of(words) {
        Some(command) => obey(alloc, command, shelf, out, err),
        None => {
            say(err, USAGE);
            Status::Usage
        }
    }
}

/// Does what a command asks for.
fn obey<H: Shelf, O: Sink, E: Sink>(
    alloc: Global,
    command: Command<'_>,
    shelf: &mut H,
    out: &mut O,
    err: &mut E,
) -> Status
    requires { IsWithinBudgets command }
    ensures { EndsAsAsked (Some (asked_by command.entry))
        (world (H.meaning shelf.old) (O.meaning out.old) (E.meaning err.old))
        (world (H.meaning shelf.new) (O.meaning out.new) (E.meaning err.new))
        result }
{
    match command {
        Command::Render(order) => render_file(alloc, order, shelf, out, err),
    }
}

/// Writes the document of a file.
fn render_file<H: Shelf, O: Sink, E: Sink>(
    alloc: Global,
    order: Order<'_>,
    shelf: &mut H,
    out: &mut O,
    err: &mut E,
) -> Status
    requires few { IsWithinBudget order }
    ensures status { Ends (order_of order.entry)
        (world (H.meaning shelf.old) (O.meaning out.old) (E.meaning err.old))
        (world (H.meaning shelf.new) (O.meaning out.new) (E.meaning err.new))
        result }
    ensures shelf { UsesOne order.entry.file.now (H.meaning shelf.old) (H.meaning shelf.new) }
{
    match document_of(alloc, shelf, order) {
        Ok(document) => deliver(document.as_slice(), out, err),
        Err(cause) => report(alloc, order.file, cause, err),
    }
}

/// Writes a document, and says so where `out` fails.
fn deliver<O: Sink, E: Sink>(document: &[u8], out: &mut O, err: &mut E) -> Status
    ensures { Delivers document.now
        (O.meaning out.old) (O.meaning out.new)
        (E.meaning err.old) (E.meaning err.new)
        result }
{
    match write_all(out, document) {
        Ok(()) => Status::Done,
        Err(_) => {
            say(err, WRITE_FAULT);
            Status::WriteFault
        }
    }
}

/// Says why there is no document.
fn report<E: Sink>(alloc: Global, file: &str, cause: NoDocument, err: &mut E) -> Status
    ensures { Reports file.now cause (E.meaning err.old) (E.meaning err.new) result }
{
    match cause_line(alloc, file, cause) {
        Ok(line) => {
            say(err, line.as_bytes());
            cause_status(cause)
        }
        Err(_) => {
            say(err, OUT_OF_MEMORY);
            Status::OutOfMemory
        }
    }
}

/// The line of a cause.
fn cause_line(alloc: Global, file: &str, cause: NoDocument) -> Result<String, AllocError>
    ensures { IfOk result (λ line. string_bytes line ≡ line_of_cause file.now cause) }
{
    match cause {
        NoDocument::ReadFault => read_fault_line(alloc, file),
        NoDocument::TooLong => {
            let first = Placed {
                code: Code::TooLong,
                line: 1,
                column: 1,
            };
            fault_line(alloc, file, first)
        }
        NoDocument::Fault(placed) => fault_line(alloc, file, placed),
        NoDocument::OutOfMemory => Err(AllocError),
    }
}

/// The status of a cause.
fn cause_status(cause: NoDocument) -> Status
    ensures { result ≡ status_of_cause cause }
{
    match cause {
        NoDocument::ReadFault => Status::ReadFault,
        NoDocument::TooLong | NoDocument::Fault(_) => Status::Fault,
        NoDocument::OutOfMemory => Status::OutOfMemory,
    }
}

/// Writes a line, or a part of it where the sink fails.
fn say<E: Sink>(err: &mut E, line: &[u8])
    ensures { Says (E.meaning err.old) (E.meaning err.new) line.now }
{
    let _ = write_all(err, line);
}
