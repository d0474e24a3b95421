//! What stands outside braces, one outer pair of braces, and the Spaces round tokens.

ghost use Rattle.std.specs.Prelude.{◌≡◌, ◌==◌, ◌&&◌, ◌∷◌, [], ◌+◌, ◌^◌, ◌<◌, ◌≤◌, length, drop, option_map};
ghost use Rattle.std.specs.List.{list_all, list_any};
ghost use Rattle.tk_characters.specs.Characters.{bar};
ghost use Rattle.tk_token.specs.Groups as groups;
ghost use Rattle.tk_token.specs.Groups.{cut};
ghost use Rattle.tk_token.specs.Kinds as kinds;
ghost use Rattle.tk_token.specs.Sought.{begins_sought};
ghost use Rattle.tk_token.specs.Spaces as spaces;

use crate::{Kind, Tok};

/// What is sought outside braces.
#[derive(Clone, Copy, PartialEq, Eq)]
pub enum Sought {
    /// That character.
    Char(char),
    /// `}`
    Close,
    /// `-|` or `|-`
    Corner,
    /// The letters `and`.
    And,
    /// The letters `on` or `off`.
    Dash,
}

impl Sought {
    /// Whether it is in front.
    fn is_at(self, list: &[Tok]) -> bool
        ensures { result ≡ begins_sought self list.now }
    {
        match self {
            Sought::Char(wanted) => begins_char(list, wanted),
            Sought::Close => begins_close(list),
            Sought::Corner => begins_pair(list, '-', '|') || begins_pair(list, '|', '-'),
            Sought::And => begins_three(list, 'a', 'n', 'd'),
            Sought::Dash => begins_pair(list, 'o', 'n') || begins_three(list, 'o', 'f', 'f'),
        }
    }
}

/// The tokens before the first place outside braces at which what is sought is in front, and those from there on.
///
/// There is no such place where the list ends before it, or a `}` stands before it that closes none of these tokens.
#[tactic(auto, using(crate::proofs::Corners::no_corner))]
pub fn first_outside(list: &[Tok], sought: Sought) -> Option<(&[Tok], &[Tok])>
    ensures { option_map (λ found. cut found.0.now found.1.now) result
        ≡ groups.first_outside (begins_sought sought) list.now }
{
    match sought {
        Sought::Char(wanted) => search(list, Sought::Char(wanted)),
        Sought::Corner if !has_bar(list) => None,
        _ => search(list, sought),
    }
}

/// The same by a walk over the tokens, which is compiled for each thing that is known to be sought.
#[inline(always)]
fn search(list: &[Tok], sought: Sought) -> Option<(&[Tok], &[Tok])>
    ensures { option_map (λ found. cut found.0.now found.1.now) result
        ≡ groups.first_outside (begins_sought sought) list.now }
{
    let mut depth = 0;
    let mut rest = list;
    while let Some((first, tail)) = rest.split_first() {
        if is_found(sought, depth, rest) {
            return Some(list.split_at(list.len() - rest.len()));
        }
        if closes_nothing(depth, first.kind) {
            return None;
        }
        depth = depth_after(depth, first.kind);
        rest = tail;
    }
    None
}

/// Whether a `|` is among the tokens, without which there is no corner.
fn has_bar(list: &[Tok]) -> bool
    ensures { result ≡ list_any (λ tok. kinds.is_char bar tok.kind) list.now }
{
    list.iter().any(|tok| tok.kind.is_char('|'))
}

/// The tokens before that character, at its first place outside braces, and those behind it: `a=b` is parted into `a`
/// and `b` by `=`. There are none where `first_outside` has none.
pub fn before_char(list: &[Tok], wanted: char) -> Option<(&[Tok], &[Tok])>
    ensures { option_map (λ found. cut found.0.now found.1.now) result
        ≡ groups.before_char wanted list.now }
{
    let (front, rest) = first_outside(list, Sought::Char(wanted))?;
    Some((front, without_first(rest, 1)))
}

/// Whether what is sought is in front, and no brace is open.
fn is_found(sought: Sought, depth: usize, list: &[Tok]) -> bool
    ensures { result ≡ (depth == 0 && begins_sought sought list.now) }
{
    depth == 0 && sought.is_at(list)
}

/// Whether a token is a `}` too many, where so many braces are open.
pub fn closes_nothing(depth: usize, kind: Kind) -> bool
    ensures { result ≡ (depth == 0 && kinds.is_close kind) }
{
    depth == 0 && kind.is_close()
}

/// How many braces are open after a token, where so many were open before it.
pub fn depth_after(depth: usize, kind: Kind) -> usize
    requires { depth + 1 < 2 ^ 64 }
    ensures depth { result ≡ groups.depth_after depth kind }
    ensures within { result ≤ depth + 1 }
{
    match kind {
        Kind::Open => depth + 1,
        Kind::Close => depth.saturating_sub(1),
        _ => depth,
    }
}

/// Whether that character is in front.
pub fn begins_char(list: &[Tok], wanted: char) -> bool
    ensures { result ≡ kinds.begins (kinds.is_char wanted) list.now }
{
    match list.split_first() {
        Some((first, _)) => first.kind.is_char(wanted),
        None => false,
    }
}

fn begins_close(list: &[Tok]) -> bool
    ensures { result ≡ kinds.begins kinds.is_close list.now }
{
    match list.split_first() {
        Some((first, _)) => first.kind.is_close(),
        None => false,
    }
}

/// Whether these two characters are in front.
pub fn begins_pair(list: &[Tok], first_wanted: char, second_wanted: char) -> bool
    ensures { result ≡ kinds.begins_text (first_wanted ∷ second_wanted ∷ []) list.now }
{
    match list.split_first() {
        Some((first, rest)) => first.kind.is_char(first_wanted) && begins_char(rest, second_wanted),
        None => false,
    }
}

/// Whether these three characters are in front.
pub fn begins_three(
    list: &[Tok],
    first_wanted: char,
    second_wanted: char,
    third_wanted: char,
) -> bool
    ensures { result
        ≡ kinds.begins_text (first_wanted ∷ second_wanted ∷ third_wanted ∷ []) list.now }
{
    match list.split_first() {
        Some((first, rest)) => {
            first.kind.is_char(first_wanted) && begins_pair(rest, second_wanted, third_wanted)
        }
        None => false,
    }
}

/// The tokens behind the Spaces in front.
#[tactic(auto, using(crate::proofs::Spaces::space_passed))]
pub fn after_spaces(list: &[Tok]) -> &[Tok]
    ensures { result.now ≡ spaces.after_spaces list.now }
{
    let mut rest = list;
    while let Some((first, tail)) = rest.split_first() {
        if !first.kind.is_space() {
            return rest;
        }
        rest = tail;
    }
    rest
}

/// The tokens without the Spaces at their end.
pub fn before_spaces(list: &[Tok]) -> &[Tok]
    ensures { result.now ≡ spaces.before_spaces list.now }
{
    let mut rest = list;
    while let Some((last, front)) = rest.split_last() {
        if !last.kind.is_space() {
            return rest;
        }
        rest = front;
    }
    rest
}

/// The tokens without the Spaces round them.
pub fn trimmed(list: &[Tok]) -> &[Tok]
    ensures { result.now ≡ spaces.trimmed list.now }
{
    before_spaces(after_spaces(list))
}

/// The tokens without the first ones, so many; there are none where the list has no more.
pub fn without_first(list: &[Tok], count: usize) -> &[Tok]
    ensures { result.now ≡ drop count list.now }
{
    if count <= list.len() {
        list.split_at(count).1
    } else {
        &[]
    }
}

fn are_spaces(list: &[Tok]) -> bool
    ensures { result ≡ list_all spaces.is_space_token list.now }
{
    list.iter().all(|tok| tok.kind.is_space())
}

/// The contents of a group whose `{` was read, where only Spaces stand behind its `}`.
fn alone(list: &[Tok]) -> Option<&[Tok]>
    ensures { option_map (λ inside. inside.now) result ≡ groups.alone (groups.group_of list.now) }
{
    let (inside, rest) = first_outside(list, Sought::Close)?;
    if are_spaces(without_first(rest, 1)) {
        Some(inside)
    } else {
        None
    }
}

/// The contents of tokens that are one group and Spaces behind it.
fn contents(list: &[Tok]) -> Option<&[Tok]>
    ensures { option_map (λ inside. inside.now) result ≡ groups.contents list.now }
{
    let (first, rest) = list.split_first()?;
    if first.kind.is_open() {
        alone(rest)
    } else {
        None
    }
}

/// The tokens without one outer pair of braces: where they are one group, Spaces apart, it is what stands in it.
#[tactic(auto, unfolding(crate::specs::Groups::unbraced))]
pub fn unbraced(list: &[Tok]) -> &[Tok]
    ensures { result.now ≡ groups.unbraced list.now }
{
    match contents(after_spaces(list)) {
        Some(inside) => inside,
        None => list,
    }
}
