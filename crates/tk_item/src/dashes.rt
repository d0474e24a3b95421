//! The lengths of dashes.

ghost use Rattle.std.specs.Prelude.{◌≡◌, ◌++◌, ◌∷◌, [], ◌<◌, length, pos, ◌≤ℤ◌};
ghost use Rattle.tk_item.specs.Lengths.{AreDashes};

use arrayvec::ArrayVec;
use std::marker::Model;
use tk_num::Scaled;

/// The lengths on and off in turn, at most sixteen, of which none is negative. It takes no memory.
#[derive(Drop)]
pub struct Dashes {
    lengths: ArrayVec<Scaled, 16>,
}

impl Model for Dashes {
    ghost use Rattle.std.specs.Prelude.{List, ℤ};
    ghost use Rattle.tk_item.specs.Lengths.{AreDashes};

    ghost Value = { List ℤ };

    ghost view = { λ s. s.lengths.items };

    ghost invariant = { λ s. AreDashes s.lengths.items };
}

impl Dashes {
    /// No lengths.
    pub fn new() -> Self
        ensures { result ≡ [] }
    {
        Dashes {
            lengths: ArrayVec::new(),
        }
    }

    /// Puts a length, in scaled points, at the end.
    pub fn push(&mut self, dash: Scaled)
        requires room { length self.old < 16 }
        requires sign { pos 0 ≤ℤ dash }
        ensures { self.new ≡ self.old ++ dash ∷ [] }
    {
        self.lengths.push(dash);
    }

    /// The lengths, in order.
    pub fn as_slice(&self) -> &[Scaled]
        ensures value { result.now ≡ self.now }
        ensures dashes { AreDashes self.now }
    {
        self.lengths.as_slice()
    }

    /// The same lengths once more.
    pub fn copy(&self) -> Dashes
        ensures { result ≡ self.now }
    {
        let mut copy = Dashes::new();
        for dash in self.lengths.as_slice() {
            copy.lengths.push(*dash);
        }
        copy
    }
}
