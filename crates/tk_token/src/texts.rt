//! Texts of tokens, and tokens of texts.

ghost use Rattle.std.specs.Prelude.{◌≡◌, IfOk, option_map, string_bytes};
ghost use Rattle.tk_token.specs.Texts as texts;

use crate::{Kind, Tok};
use std::alloc::{AllocError, Global};

/// The character of a token: a Space is a blank, and what is neither a character nor a Space has none.
fn character_of(kind: Kind) -> Option<char>
    ensures { result ≡ texts.character_of kind }
{
    match kind {
        Kind::Char(character) => Some(character),
        Kind::Space => Some(' '),
        _ => None,
    }
}

/// The text of tokens that are all characters and Spaces, where a Space is a blank. Other tokens have none.
///
/// It fails only where memory runs out.
pub fn text_in(alloc: Global, list: &[Tok]) -> Result<Option<String>, AllocError>
    ensures { IfOk result (λ text. option_map string_bytes text ≡ texts.text_in list.now) }
{
    text_into(String::with_capacity(alloc, list.len())?, list)
}

/// The same in the memory of a string, whose own text is gone.
pub fn text_into(memory: String, list: &[Tok]) -> Result<Option<String>, AllocError>
    ensures { IfOk result (λ text. option_map string_bytes text ≡ texts.text_in list.now) }
{
    let mut text = memory;
    text.clear();
    let mut rest = list;
    while let Some((first, tail)) = rest.split_first() {
        let Some(character) = character_of(first.kind) else {
            return Ok(None);
        };
        text.push(character)?;
        rest = tail;
    }
    Ok(Some(text))
}

/// What the token of a character in a text is: a blank is a Space.
fn kind_in_text(character: char) -> Kind
    ensures { result ≡ texts.kind_in_text character }
{
    if character == ' ' {
        Kind::Space
    } else {
        Kind::Char(character)
    }
}

/// The tokens of a text, all at that place: each character is one, and a blank is a Space.
///
/// It fails only where memory runs out.
pub fn tokens_of(alloc: Global, at: u32, text: &str) -> Result<Vec<Tok>, AllocError>
    ensures { IfOk result (λ toks. toks.items ≡ texts.tokens_of at text.now) }
{
    let mut toks = Vec::with_capacity(alloc, text.len())?;
    for character in text.chars() {
        toks.push(Tok {
            kind: kind_in_text(character),
            at,
        })?;
    }
    Ok(toks)
}
