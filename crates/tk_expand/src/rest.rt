//! Lists of which the first tokens were read.

ghost use Rattle.std.specs.Prelude.{◌≡◌, ◌<◌, ◌==◌, ◌&&◌, ◌∷◌, length, slice_get, Some, IfOk, IfNone, OnErr};
ghost use Rattle.std.specs.Bool.{OnFalse, OnTrue};
ghost use Rattle.std.specs.Option.{option_map};
ghost use Rattle.tk_token.specs.Groups.{cut};
ghost use Rattle.tk_expand.specs.Stops.{is_stop, sought_of, before_stop};

use std::alloc::AllocError;
use std::marker::Model;
use tk_store::Body;
use tk_token::{Kind, Sought, Tok, first_outside};

/// What ends a search outside braces: one token.
#[derive(Clone, Copy)]
pub(crate) enum Stop {
    Char(char),
    Close,
}

impl Stop {
    /// Whether it is that token, where so many braces are open.
    pub(crate) fn is(self, depth: usize, kind: Kind) -> bool
        ensures { result ≡ (depth == 0 && is_stop self kind) }
    {
        if depth > 0 {
            return false;
        }
        match self {
            Stop::Char(wanted) => kind.is_char(wanted),
            Stop::Close => kind.is_close(),
        }
    }

    fn sought(self) -> Sought
        ensures { result ≡ sought_of self }
    {
        match self {
            Stop::Char(wanted) => Sought::Char(wanted),
            Stop::Close => Sought::Close,
        }
    }
}

/// A list of which the first tokens were read.
#[derive(Drop)]
pub(crate) struct Rest {
    list: Body,
    from: usize,
}

impl Model for Rest {
    ghost use Rattle.std.specs.Prelude.{List, ◌≤◌, drop, length};
    ghost use Rattle.tk_token.specs.declared.Tok.{Tok};

    ghost Value = { List Tok };

    ghost view = { λ rest. drop rest.from rest.list };

    ghost invariant = { λ rest. rest.from ≤ length rest.list };
}

impl Rest {
    pub(crate) fn new(list: Body) -> Rest
        ensures { result ≡ list }
    {
        Rest { list, from: 0 }
    }

    pub(crate) fn is_empty(&self) -> bool
        ensures { result ≡ (length self.now == 0) }
    {
        self.from == self.list.as_slice().len()
    }

    /// The tokens that are left.
    pub(crate) fn as_slice(&self) -> &[Tok]
        ensures { result.now ≡ self.now }
    {
        &self.list.as_slice()[self.from..]
    }

    /// The first token, which stays.
    pub(crate) fn first(&self) -> Tok
        requires { 0 < length self.now }
        ensures { slice_get self.now 0 ≡ Some result }
    {
        self.list.as_slice()[self.from]
    }

    /// Takes the first token.
    pub(crate) fn take(&mut self) -> Tok
        requires { 0 < length self.old }
        ensures { self.old ≡ result ∷ self.new }
    {
        let tok = self.list.as_slice()[self.from];
        self.from += 1;
        tok
    }

    /// Gives back a token that was the last to be taken; it tells whether it was. Else all stays.
    pub(crate) fn give_back(&mut self, tok: Tok) -> bool
        ensures given { OnTrue result (self.new ≡ tok ∷ self.old) }
        ensures kept { OnFalse result (self.new ≡ self.old) }
    {
        if self.from == 0 {
            return false;
        }
        if self.list.as_slice()[self.from - 1] != tok {
            return false;
        }
        self.from -= 1;
        true
    }

    /// Takes the tokens before the first stop outside braces, and the stop, into memory whose own tokens are gone;
    /// where there is none, nothing is taken.
    pub(crate) fn take_before(
        &mut self,
        memory: Vec<Tok>,
        stop: Stop,
    ) -> Result<Option<Vec<Tok>>, AllocError>
        ensures gives { IfOk result
            (λ found. option_map (λ front. cut front.items self.new) found
            ≡ before_stop stop self.old) }
        ensures none { IfOk result (λ found. IfNone found (self.new ≡ self.old)) }
        ensures err { OnErr result (self.new ≡ self.old) }
    {
        let Some((front, rest)) = first_outside(self.as_slice(), stop.sought()) else {
            return Ok(None);
        };
        let front = copied(memory, front)?;
        self.from = self.list.as_slice().len() - rest.len() + 1;
        Ok(Some(front))
    }
}

/// The same tokens, in memory whose own tokens are gone.
fn copied(memory: Vec<Tok>, list: &[Tok]) -> Result<Vec<Tok>, AllocError>
    ensures { IfOk result (λ copy. copy.items ≡ list.now) }
{
    let mut copy = memory;
    copy.clear();
    copy.extend_from_slice(list)?;
    Ok(copy)
}
