//! The outside: shelves of files to read, and sinks for what is written.
//!
//! A [`Shelf`] opens files by their names and hands out their bytes, and a [`Sink`] takes bytes.
//! [`read_all`] and [`write_all`] work over any of them. [`FileShelf`], [`OutSink`] and
//! [`ErrSink`] are the files and the standard streams of the host; [`MemShelf`] and [`MemSink`]
//! are in memory, and fail where a test wants it; [`SureShelf`] and [`SureSink`] never fail.
#![tactic(auto)]

mod desk;
mod reading;
mod shelves;
mod sinks;
mod streams;
mod sure;
mod writing;

ghost use Rattle.std.specs.Prelude.{◌≡◌, List, ℕ, true};
ghost use Rattle.tk_io.specs.Shelf.{Shelved, Opens, Reads};
ghost use Rattle.tk_io.specs.Sink.{Sunk, Writes};

pub use desk::{MemFile, names_differ};
pub use reading::{MOST_BYTES, ReadRefusal, read_all};
pub use shelves::MemShelf;
pub use sinks::{MemSink, SureSink};
pub use streams::{ErrSink, FileShelf, OutSink};
pub use sure::SureShelf;
pub use writing::write_all;

/// The one way in which a call of a shelf or a sink fails.
#[derive(Clone, Copy, PartialEq, Eq)]
pub struct Failed;

/// Files under their names, of which one is open at a time. The name `-` is standard input.
pub trait Shelf {
    ghost meaning: { Self → Shelved };

    /// Opens the file of that name at its front. A second `open` of `-` goes on where the
    /// reads after the first stopped.
    fn open(&mut self, name: &str) -> Result<(), Failed>
        ensures { Opens name.now (meaning self.old) (meaning self.new) result };

    /// Hands out the next bytes of the open file into the front of `buf`, and answers how many.
    /// None into a buffer that has room is the end of the file.
    fn read(&mut self, buf: &mut [u8]) -> Result<usize, Failed>
        requires { (name : List ℕ) × ((meaning self.old).is_open name ≡ true) }
        ensures { (name : List ℕ)
            → (meaning self.old).is_open name ≡ true
            → Reads name (meaning self.old) (meaning self.new) result buf.new };
}

/// What takes bytes.
pub trait Sink {
    ghost meaning: { Self → Sunk };

    /// Takes the first bytes of a piece, and answers how many: at least one of a piece that isn't
    /// empty. One that fails has taken none.
    fn write(&mut self, piece: &[u8]) -> Result<usize, Failed>
        ensures { Writes piece.now (meaning self.old) (meaning self.new) result };
}
