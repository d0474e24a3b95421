//! Writing all of a piece.

ghost use Rattle.tk_io.specs.Sink.{WritesAll};

use crate::{Failed, Sink};

/// Writes all of a piece, in as many calls as it takes. Where a call fails the sink has taken a
/// part of the piece that isn't the whole.
pub fn write_all<O: Sink>(out: &mut O, piece: &[u8]) -> Result<(), Failed>
    ensures { WritesAll piece.now (O.meaning out.old) (O.meaning out.new) result }
{
    let mut done = 0;
    while done < piece.len() {
        done += out.write(&piece[done..])?;
    }
    Ok(())
}
