//! Tests of tokens, and the words that they are.

ghost use Rattle.std.specs.Prelude.{◌≡◌};
ghost use Rattle.tk_token.specs.Kinds as kinds;

use crate::{Kind, Tok};

impl Kind {
    /// Whether it is that character.
    pub fn is_char(self, wanted: char) -> bool
        ensures { result ≡ kinds.is_char wanted self }
    {
        match self {
            Kind::Char(character) => character == wanted,
            _ => false,
        }
    }

    /// Whether it is a gap.
    pub fn is_space(self) -> bool
        ensures { result ≡ kinds.is_space self }
    {
        matches!(self, Kind::Space)
    }

    /// Whether it is `{`.
    pub fn is_open(self) -> bool
        ensures { result ≡ kinds.is_open self }
    {
        matches!(self, Kind::Open)
    }

    /// Whether it is `}`.
    pub fn is_close(self) -> bool
        ensures { result ≡ kinds.is_close self }
    {
        matches!(self, Kind::Close)
    }

    /// Whether it is `#`.
    pub fn is_param(self) -> bool
        ensures { result ≡ kinds.is_param self }
    {
        matches!(self, Kind::Param)
    }

    /// The number of the control word that it is.
    pub fn word(self) -> Option<u32>
        ensures { result ≡ kinds.word_of self }
    {
        match self {
            Kind::Word(number) => Some(number),
            _ => None,
        }
    }
}

/// The number of the one control word that the tokens are.
pub fn one_word(list: &[Tok]) -> Option<u32>
    ensures { result ≡ kinds.one_word list.now }
{
    let (first, rest) = list.split_first()?;
    if rest.is_empty() {
        first.kind.word()
    } else {
        None
    }
}
