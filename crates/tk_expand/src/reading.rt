//! What stands next as it is written. None of these calls takes memory.

ghost use Rattle.std.specs.Prelude.{◌≡◌, ◌<◌, ◌≤◌, length, true, false, IfErr, OnOk, OnErr};
ghost use Rattle.tk_token.specs.Kinds.{is_char, is_open, is_close};
ghost use Rattle.tk_expand.specs.Reading.{read, next_token, after_token, after_text, after_name};
ghost use Rattle.tk_expand.specs.Tells.{Tells};

use crate::Input;
use tk_token::{Code, Fault, Tok};

impl Input {
    /// Takes the next token. Where the list runs out, that is the fault, and it stands there.
    #[tactic(auto, unfolding(crate::specs::Reading::next_token))]
    pub fn token(&mut self, code: Code) -> Result<Tok, Fault>
        ensures gives { Tells (λ tok. read tok self.new) result (next_token code self.old) }
        ensures end { OnOk result (self.new.end ≡ self.old.end) }
        ensures shorter { OnOk result (length self.new.rest < length self.old.rest) }
    {
        let end = self.end();
        match self.raw() {
            Some(tok) => Ok(tok),
            None => Err(Fault { code, at: end }),
        }
    }

    /// Takes the next token, which has to be that character. The fault stands at another token.
    #[tactic(auto, unfolding(crate::specs::Reading::after_token))]
    pub fn expect_char(&mut self, code: Code, wanted: char) -> Result<(), Fault>
        ensures gives { Tells (λ _. self.new) result (after_token code (is_char wanted) self.old) }
        ensures end { OnOk result (self.new.end ≡ self.old.end) }
        ensures shorter { OnOk result (length self.new.rest < length self.old.rest) }
    {
        let tok = self.token(code)?;
        require(tok.kind.is_char(wanted), code, tok.at)
    }

    /// Takes the next token, which has to be `{`.
    #[tactic(auto, unfolding(crate::specs::Reading::after_token))]
    pub fn expect_open(&mut self, code: Code) -> Result<(), Fault>
        ensures gives { Tells (λ _. self.new) result (after_token code is_open self.old) }
        ensures end { OnOk result (self.new.end ≡ self.old.end) }
        ensures shorter { OnOk result (length self.new.rest < length self.old.rest) }
    {
        let tok = self.token(code)?;
        require(tok.kind.is_open(), code, tok.at)
    }

    /// Takes the next token, which has to be `}`.
    #[tactic(auto, unfolding(crate::specs::Reading::after_token))]
    pub fn expect_close(&mut self, code: Code) -> Result<(), Fault>
        ensures gives { Tells (λ _. self.new) result (after_token code is_close self.old) }
        ensures end { OnOk result (self.new.end ≡ self.old.end) }
        ensures shorter { OnOk result (length self.new.rest < length self.old.rest) }
    {
        let tok = self.token(code)?;
        require(tok.kind.is_close(), code, tok.at)
    }

    /// Takes the characters of a text, with nothing between them.
    pub fn expect_text(&mut self, code: Code, text: &[u8]) -> Result<(), Fault>
        ensures gives { Tells (λ _. self.new) result (after_text code text.now self.old) }
        ensures end { OnOk result (self.new.end ≡ self.old.end) }
        ensures shorter { OnOk result (length self.new.rest ≤ length self.old.rest) }
    {
        for byte in text {
            self.expect_char(code, char::from(*byte))?;
        }
        Ok(())
    }

    /// Takes a name in braces, with the Spaces before it.
    #[tactic(auto, unfolding(crate::specs::Reading::after_name))]
    pub fn expect_name(&mut self, code: Code, name: &[u8]) -> Result<(), Fault>
        ensures gives { Tells (λ _. self.new) result (after_name code name.now self.old) }
        ensures end { OnOk result (self.new.end ≡ self.old.end) }
        ensures shorter { OnOk result (length self.new.rest < length self.old.rest) }
    {
        self.skip_spaces();
        self.expect_open(code)?;
        self.expect_text(code, name)?;
        self.expect_close(code)
    }
}

/// The fault where a thing isn't as it has to be.
pub(crate) fn require(is_met: bool, code: Code, at: u32) -> Result<(), Fault>
    ensures met { OnOk result (is_met ≡ true) }
    ensures missed { OnErr result (is_met ≡ false) }
    ensures fault { IfErr result (λ fault. fault ≡ record { code = code; at = at }) }
{
    if is_met {
        Ok(())
    } else {
        Err(Fault { code, at })
    }
}
