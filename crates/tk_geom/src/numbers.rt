//! Parts of lengths.

ghost use Rattle.std.specs.Prelude.{◌≡◌, ◌≤◌, unsigned_abs};
ghost use Rattle.tk_num.specs.Number.{one, product};

use tk_num::{Scaled, mul};

/// A part of a length, which is a ratio of at most one in 65536ths, cut toward zero.
pub(crate) fn portion(length: Scaled, ratio: Scaled) -> Scaled
    requires { unsigned_abs ratio ≤ one }
    ensures { result ≡ product length ratio }
{
    match mul(length, ratio) {
        Ok(portion) => portion,
        Err(_) => unreachable!(),
    }
}
