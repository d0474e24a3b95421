//! Units: what is paid before a thing is done.

ghost use Rattle.std.specs.Prelude.{◌≡◌, Ok, Err, MatchResult, OnErr};
ghost use Rattle.tk_expand.specs.Expand.{pay};

use tk_token::{Code, Fault};

/// The units that were paid, and how many may be paid.
#[derive(Clone, Copy, PartialEq, Eq)]
pub struct Units {
    pub used: u64,
    pub budget: u64,
}

impl Units {
    /// Pays a cost. The fault is `Budget` at the place, exactly where the units would pass the budget; then nothing is
    /// paid. This takes no memory.
    pub fn pay(&mut self, cost: u64, at: u32) -> Result<(), Fault>
        ensures pays { MatchResult result
            (λ _. pay self.old.budget self.old.used cost at ≡ Ok self.new.used)
            (λ fault. pay self.old.budget self.old.used cost at ≡ Err fault) }
        ensures budget { self.new.budget ≡ self.old.budget }
        ensures err { OnErr result (self.new ≡ self.old) }
    {
        let Units { used, budget } = *self;
        match used.checked_add(cost) {
            Some(sum) if sum <= budget => {
                self.used = sum;
                Ok(())
            }
            _ => Err(Fault {
                code: Code::Budget,
                at,
            }),
        }
    }
}
