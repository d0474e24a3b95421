//! The parts of key lists. None of these calls takes memory.

ghost use Rattle.std.specs.Prelude.{◌≡◌, ◌<◌, length, option_map, option_to_list};
ghost use Rattle.std.specs.Iterator.{YieldsFirstBy, item_count};
ghost use Rattle.tk_characters.specs.Characters.{equals};
ghost use Rattle.tk_token.specs.Groups as groups;
ghost use Rattle.tk_token.specs.Groups.{cut};
ghost use Rattle.tk_keytext.specs.KeyParts.{key_part};
ghost use Rattle.tk_keytext.specs.Parts as parts;
ghost use Rattle.tk_keytext.specs.Parts.{parts_of};

use std::marker::Model;
use tk_token::{Tok, after_spaces, before_char, trimmed, unbraced};

/// A part of a key list: the name of a key, and its value if it has one. The Spaces round both are left out, and then
/// one outer pair of braces of the value.
#[derive(Clone, Copy, PartialEq, Eq)]
pub struct Part<'a> {
    pub name: &'a [Tok],
    pub value: Option<&'a [Tok]>,
    /// The place of its first token that is no Space.
    pub at: u32,
}

/// The parts of a key list that are still to come.
#[derive(Drop)]
pub struct Parts<'a> {
    rest: &'a [Tok],
}

impl<'a> Model for Parts<'a> {
    ghost use Rattle.std.specs.Prelude.{List};
    ghost use Rattle.tk_keytext.specs.Parts.{KeyPart, parts_of};

    ghost Value = { List KeyPart };

    ghost view = { λ parts. parts_of parts.rest.now };
}

/// The parts of a key list, in order: `a, b = {c,d}, ,e` has `a`, `b` with the value `c,d`, and `e`. Each token is
/// looked at a few times at most until all parts were taken.
pub fn split_list(list: &[Tok]) -> Parts<'_>
    ensures { result ≡ parts_of list.now }
{
    Parts { rest: list }
}

impl<'a> Iterator for Parts<'a> {
    type Item = Part<'a>;

    ghost next_gives = { YieldsFirstBy key_part (λ parts. parts) };

    ghost remaining = { item_count (λ parts. parts) };

    fn next(&mut self) -> Option<Part<'a>> {
        let (part, rest) = first_part(self.rest);
        self.rest = rest;
        part
    }
}

/// The first part, if there is one, and the tokens behind it.
fn first_part(list: &[Tok]) -> (Option<Part<'_>>, &[Tok])
    ensures { YieldsFirstBy key_part parts_of list.now result.0 result.1.now }
{
    let mut rest = list;
    while !rest.is_empty() {
        let (piece, behind) = first_piece(rest);
        if let Some(part) = part_of(after_spaces(piece)) {
            return (Some(part), behind);
        }
        rest = behind;
    }
    (None, rest)
}

/// The tokens before the first comma outside braces, and those behind it; without one all are before it.
fn first_piece(list: &[Tok]) -> (&[Tok], &[Tok])
    ensures piece { cut result.0.now result.1.now ≡ parts.first_piece list.now }
    ensures shorter { 0 < length list.now → length result.1.now < length list.now }
{
    match before_char(list, ',') {
        Some(found) => found,
        None => (list, &[]),
    }
}

/// The part that a piece is, behind the Spaces in front, if it has more tokens.
fn part_of(piece: &[Tok]) -> Option<Part<'_>>
    ensures { option_to_list (option_map key_part result) ≡ parts.part_of piece.now }
{
    let (first, _) = piece.split_first()?;
    Some(part_by(first.at, piece))
}

/// The part at a place: what stands before the first `=` outside braces is its name, and what stands behind it its
/// value.
fn part_by(at: u32, piece: &[Tok]) -> Part<'_>
    ensures { key_part result ≡ parts.part_by at piece.now (groups.before_char equals piece.now) }
{
    match before_char(piece, '=') {
        Some((name, value)) => Part {
            name: trimmed(name),
            value: Some(unbraced(trimmed(value))),
            at,
        },
        None => Part {
            name: trimmed(piece),
            value: None,
            at,
        },
    }
}
