//! The tables of the code are those of the definitions.

ghost use Rattle.std.specs.Prelude.{◌≡◌, map};
ghost use Rattle.tk_native.specs.Natives.{natives, styles};

use crate::tables::{NATIVES, STYLES};

/// The code's tables have the names and the keys of the definitions, in the same order.
pub fn names_stand_for_their_keys()
    ensures keys { map (λ row. (row.0.now, row.1)) NATIVES ≡ natives }
    ensures styles { map (λ row. (row.0.now, row.1.now)) STYLES ≡ styles }
{}
