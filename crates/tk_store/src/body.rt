//! Lists of tokens that are kept, and the bodies of macros.

ghost use Rattle.std.specs.Prelude.{◌≡◌, ◌≤◌, length, IfOk, IfSome};
ghost use Rattle.std.specs.List.{All};
ghost use Rattle.tk_token.specs.Refusals.{Gives};
ghost use Rattle.tk_store.specs.Bodies.{digit_of, hash_before, body_of, IsArgOf};
ghost use Rattle.tk_store.specs.Kept.{kept, first_kept};

use std::alloc::{AllocError, Global};
use std::marker::Model;
use std::rc::RcSlice;
use std::slice;
use tk_token::{Code, Fault, Kind, Refusal, Tok};

/// A list of tokens. Its copies share the tokens in memory; a single token takes none.
#[derive(Drop)]
pub struct Body {
    toks: Toks,
}

/// The tokens of a body.
#[derive(Drop)]
enum Toks {
    One(Tok),
    Shared(RcSlice<Tok>),
}

impl Model for Body {
    ghost use Rattle.std.specs.Prelude.{List};
    ghost use Rattle.tk_token.specs.declared.Tok.{Tok};
    ghost use Rattle.tk_store.specs.Items.{items_of};

    ghost Value = { List Tok };

    ghost view = { λ body. items_of body.toks };
}

impl Body {
    /// The same tokens, in memory of their own.
    pub fn new(alloc: Global, list: &[Tok]) -> Result<Body, AllocError>
        ensures { IfOk result (λ body. body ≡ list.now) }
    {
        let toks = match list {
            [tok] => Toks::One(*tok),
            _ => Toks::Shared(RcSlice::from_slice(alloc, list)?),
        };
        Ok(Body { toks })
    }

    /// The tokens of the vector, which stay where they are in memory.
    pub fn from_vec(toks: Vec<Tok>) -> Result<Body, AllocError>
        ensures { IfOk result (λ body. body ≡ toks.items) }
    {
        if let [tok] = toks.as_slice() {
            let toks = Toks::One(*tok);
            return Ok(Body { toks });
        }
        let toks = Toks::Shared(RcSlice::from_vec(toks)?);
        Ok(Body { toks })
    }

    /// The body of a macro with so many arguments, as it is written between its braces. `#1` is the place of the first
    /// argument, and `##` is `#`: with one argument `(#1)` becomes `(`, its place and `)`. What doesn't fit is
    /// `MacroSyntax` at the `#`, so that `a#2` with one argument is refused at the place of its second token.
    pub fn parse(alloc: Global, args: u8, written: &[Tok]) -> Result<Body, Refusal>
        ensures gives { Gives (λ body. body) result (body_of args written.now) }
        ensures places { IfOk result (λ body. All (λ tok. IsArgOf args tok.kind) body) }
    {
        let mut toks = Vec::with_capacity(alloc, written.len())?;
        let mut rest = written;
        while let Some((first, tail)) = rest.split_first() {
            let (tok, behind) = first_kept(args, *first, tail)?;
            toks.push(tok)?;
            rest = behind;
        }
        Ok(Body::from_vec(toks)?)
    }

    /// The same list. The tokens are shared.
    pub fn copy(&self) -> Result<Body, AllocError>
        ensures { IfOk result (λ body. body ≡ self.now) }
    {
        let toks = match &self.toks {
            Toks::One(tok) => Toks::One(*tok),
            Toks::Shared(toks) => Toks::Shared(toks.clone()?),
        };
        Ok(Body { toks })
    }

    /// The tokens, in order.
    pub fn as_slice(&self) -> &[Tok]
        ensures { result.now ≡ self.now }
    {
        match &self.toks {
            Toks::One(tok) => slice::from_ref(tok),
            Toks::Shared(toks) => toks.as_slice(),
        }
    }
}

/// The value of a digit.
pub fn digit_of(kind: Kind) -> Option<u8>
    ensures value { result ≡ digit_of kind }
    ensures few { IfSome result (λ digit. digit ≤ 9) }
{
    match kind {
        Kind::Char(character) if character.is_ascii_digit() => Some(character as u8 - b'0'),
        _ => None,
    }
}

/// The token that a body has for the first one that is written, and the tokens behind those that it stands for.
fn first_kept(args: u8, first: Tok, tail: &[Tok]) -> Result<(Tok, &[Tok]), Refusal>
    ensures gives { Gives (λ found. kept found.0 found.1.now) result
        (first_kept args first tail.now) }
    ensures places { IfOk result (λ found. IsArgOf args found.0.kind) }
    ensures shorter { IfOk result (λ found. length found.1.now ≤ length tail.now) }
{
    match first.kind {
        Kind::Param => {
            let Some((next, behind)) = tail.split_first() else {
                return Err(misfit(first.at).into());
            };
            Ok((hash_before(args, next.kind, first.at)?, behind))
        }
        Kind::Arg(_) => Err(misfit(first.at).into()),
        _ => Ok((first, tail)),
    }
}

/// What a `#` at a place stands for before a token of that kind.
fn hash_before(args: u8, kind: Kind, at: u32) -> Result<Tok, Refusal>
    ensures gives { Gives (λ tok. tok) result (hash_before args kind at) }
    ensures places { IfOk result (λ tok. IsArgOf args tok.kind) }
{
    if kind.is_param() {
        return Ok(Tok { kind, at });
    }
    match digit_of(kind) {
        Some(n) if 1 <= n && n <= args => Ok(Tok {
            kind: Kind::Arg(n),
            at,
        }),
        _ => Err(misfit(at).into()),
    }
}

/// The fault of a token that doesn't fit.
fn misfit(at: u32) -> Fault
    ensures { result ≡ record { code = Code.MacroSyntax; at = at } }
{
    Fault {
        code: Code::MacroSyntax,
        at,
    }
}
