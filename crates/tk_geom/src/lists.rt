//! Pieces that are put behind others.

ghost use Rattle.std.specs.Prelude.{◌≡◌, ◌++◌, [], OnOk, Ok, MatchResult};
ghost use Rattle.tk_geom.specs.Pieces.{Continues};

use std::alloc::AllocError;
use tk_affine::AffFault;
use tk_item::{Seg, Segs};

/// Puts pieces at the end.
pub(crate) fn push_all(segs: &mut Segs, pieces: &[Seg]) -> Result<(), AllocError>
    ensures ok { OnOk result (segs.new ≡ segs.old ++ pieces.now) }
    ensures kept { Continues segs.old segs.new }
{
    for piece in pieces {
        segs.push(*piece)?;
    }
    Ok(())
}

/// The pieces that a call put into an empty list, or its fault.
pub(crate) fn finished(segs: Segs, done: Result<(), AffFault>) -> Result<Segs, AffFault>
    ensures { MatchResult done (λ _. result ≡ Ok segs) (λ fault. result ≡ Err fault) }
{
    done?;
    Ok(segs)
}
