//! What stands next once no macro call is in front.

ghost use Rattle.std.specs.Prelude.{◌≡◌, ◌+◌, ◌-◌, ◌<◌, ◌≤◌, [], ◌++◌, length, true, false, IfOk, IfErr, IfNone, OnOk};
ghost use Rattle.std.specs.Prelude.{OnErr};
ghost use Rattle.std.specs.Option.{option_to_list};
ghost use Rattle.tk_token.specs.Kinds.{is_char};
ghost use Rattle.tk_token.specs.Refusals.{Gives};
ghost use Rattle.tk_expand.specs.Expand.{stream};
ghost use Rattle.tk_expand.specs.Reading.{taken, is_there, place_of, next_solid};

use crate::reading::require;
use crate::{Input, Units};
use tk_store::Store;
use tk_token::{Code, Fault, Refusal, Tok};

impl Input {
    /// Takes the next token that is no Space, with the Spaces before it, as `next` takes each.
    pub fn next_solid(&mut self, store: &Store, units: &mut Units) -> Result<Option<Tok>, Refusal>
        ensures gives { Gives (λ token. taken token (stream units.new.used self.new)) result
            (next_solid units.old.budget store.now.top.macros (stream units.old.used self.old)) }
        ensures none { IfOk result (λ token. IfNone token (self.new.rest ≡ [])) }
        ensures end { OnOk result (self.new.end ≡ self.old.end) }
        ensures budget { units.new.budget ≡ units.old.budget }
        ensures used { OnOk result (units.old.used ≤ units.new.used) }
        ensures work { IfOk result (λ token.
            (units.new.budget - units.new.used) + length (option_to_list token ++ self.new.rest)
            ≤ (units.old.budget - units.old.used) + length self.old.rest) }
    {
        while let Some(tok) = self.next(store, units)? {
            if !tok.kind.is_space() {
                return Ok(Some(tok));
            }
        }
        Ok(None)
    }

    /// Asks that a token that was taken is that character. The fault stands at another token, or where the list runs
    /// out.
    pub fn expect(&self, code: Code, token: Option<Tok>, wanted: char) -> Result<(), Fault>
        ensures met { OnOk result (is_there (is_char wanted) token ≡ true) }
        ensures missed { OnErr result (is_there (is_char wanted) token ≡ false) }
        ensures fault { IfErr result (λ fault.
            fault ≡ record { code = code; at = place_of self.now.end token }) }
    {
        require(is_there(token, wanted), code, self.place(token))
    }

    /// Where a token that was taken stands, or where the list runs out.
    pub fn place(&self, token: Option<Tok>) -> u32
        ensures { result ≡ place_of self.now.end token }
    {
        match token {
            Some(tok) => tok.at,
            None => self.end(),
        }
    }
}

/// Whether a token is there and is that character.
pub fn is_there(token: Option<Tok>, wanted: char) -> bool
    ensures { result ≡ is_there (is_char wanted) token }
{
    match token {
        Some(tok) => tok.kind.is_char(wanted),
        None => false,
    }
}
