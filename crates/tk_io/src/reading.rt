//! Reading all of a file.

ghost use Rattle.std.specs.Prelude.{◌≡◌};
ghost use Rattle.std.specs.Result.{result_map_both};
ghost use Rattle.tk_io.specs.Reading.{ReadsAll};
ghost use Rattle.tk_io.specs.declared.reading.ReadRefusal.TheVariants.{OutOfMemory};

use crate::{Failed, Shelf};
use std::alloc::{AllocError, Global};

/// The most bytes of an input: 16 MiB.
pub const MOST_BYTES: usize = 16_777_216;

/// How many bytes one call asks for.
const STEP: usize = 65_536;

/// Why a file isn't read.
#[derive(Clone, Copy, PartialEq, Eq)]
pub enum ReadRefusal {
    /// A call of the shelf failed.
    Failed,
    /// The file has more than [`MOST_BYTES`] bytes.
    TooLong,
    /// No memory was left for the bytes.
    OutOfMemory,
}

impl From<AllocError> for ReadRefusal {
    ghost from_gives = { λ _ e. e ≡ OutOfMemory };

    fn from(_: AllocError) -> Self {
        ReadRefusal::OutOfMemory
    }
}

impl From<Failed> for ReadRefusal {
    ghost use Rattle.std.specs.Prelude.{◌≡◌};
    ghost use Rattle.tk_io.specs.declared.reading.ReadRefusal.TheVariants.{Failed as ShelfFailed};

    ghost from_gives = { λ _ e. e ≡ ShelfFailed };

    fn from(_: Failed) -> Self {
        ReadRefusal::Failed
    }
}

/// Opens a file and reads all of its bytes. A file that goes on after [`MOST_BYTES`] bytes is
/// refused once one byte more was taken, so this ends on every shelf.
pub fn read_all<H: Shelf>(alloc: Global, shelf: &mut H, name: &str) -> Result<Vec<u8>, ReadRefusal>
    ensures { ReadsAll name.now (H.meaning shelf.old) (H.meaning shelf.new)
        (result_map_both (λ v. v.items) (λ e. e) result) }
{
    shelf.open(name)?;
    let mut bytes = Vec::new(alloc);
    let mut buffer = [0; STEP];
    while bytes.len() <= MOST_BYTES {
        let room = (MOST_BYTES + 1 - bytes.len()).min(STEP);
        let count = shelf.read(&mut buffer[..room])?;
        if count == 0 {
            return Ok(bytes);
        }
        bytes.extend_from_slice(&buffer[..count])?;
    }
    Err(ReadRefusal::TooLong)
}
