//! Cutting the characters of a source into tokens.

ghost use Rattle.std.specs.Prelude.{◌∷◌, ◌≡◌, ◌≢◌, ℕ, ◌+◌, ◌<◌, ◌≤◌, List, [], length, chars, not, true, None};
ghost use Rattle.std.specs.Prelude.{Some, Ok, Err, IfOk, IfErr, IfSome, OnOk, MatchOption, IsUtf8};
ghost use Rattle.std.specs.List.{All, after_first};
ghost use Rattle.tk_token.specs.Cutting.{is_indent, is_blank, is_letter, letters_of, after_word, after_comment};
ghost use Rattle.tk_token.specs.Cutting.{after_gap, begins_line_feed, makes_space, single, Tokens};
ghost use Rattle.tk_token.specs.Faults.{after_mark, Lexes};
ghost use Rattle.tk_token.specs.Pieces.{CutsOne};
ghost use Rattle.tk_token.specs.Places.{is_line_end};
ghost use Rattle.tk_token.specs.Refusals.{OnFault};
ghost use Rattle.tk_token.specs.Token.{sign_of, IsWordIn, IsNoArg, Extends};
ghost use Rattle.tk_token.specs.Views.{tokens_in};
ghost use Rattle.tk_token.specs.Words.{EachOnce, with_sign, words_of};

use crate::faults::{balanced, text_of};
use crate::{Kind, Names, Refusal, Tok};
use std::alloc::{AllocError, Global};

/// The tokens of a source, and the words that they name.
#[derive(Drop)]
pub struct Lexed {
    pub toks: Vec<Tok>,
    pub names: Names,
}

/// Cuts a source into its tokens, in time linear in its length.
///
/// A source is refused at its first fault. `NotUtf8` is asked of the whole source first, then `BadChar`; then, in
/// reading order, `Brace` at a `}` too many and `TooDeep` at a 257th open `{`; then `Brace` at the innermost `{` that
/// is left open.
pub fn lex(alloc: Global, source: &[u8]) -> Result<Lexed, Refusal>
    requires { length source.now ≤ 16777216 }
    ensures tokens { IfOk result (λ lexed. Lexes source.now (Ok (tokens_in lexed))) }
    ensures fault { IfErr result
        (λ refusal. OnFault refusal (λ fault. Lexes source.now (Err fault))) }

    // A word is the number of one of the names, which are the words of the tokens, each once, in the order in which
    // they first stand there; no token is the place of an argument.
    ensures words { IfOk result
        (λ lexed. All (λ tok. IsWordIn lexed.names tok.kind) lexed.toks.items) }
    ensures once { IfOk result (λ lexed. EachOnce lexed.names) }
    ensures listed { IfOk result (λ lexed. lexed.names ≡ words_of (tokens_in lexed)) }
    ensures few { IfOk result (λ lexed. length lexed.names ≤ 17000000) }
    ensures no_arg { IfOk result (λ lexed. All (λ tok. IsNoArg tok.kind) lexed.toks.items) }
    ensures places { IfOk result
        (λ lexed. All (λ tok. tok.at < length source.now) lexed.toks.items) }
{
    let text = text_of(source)?;
    let lexed = cut(alloc, text)?;
    balanced(&lexed.toks)?;
    Ok(lexed)
}

/// The tokens of a text.
#[tactic(auto, unfolding(crate::specs::Words::words_of))]
fn cut(alloc: Global, text: &str) -> Result<Lexed, AllocError>
    requires short { length text.now ≤ 16777216 }
    ensures tokens { IfOk result
        (λ lexed. Tokens (length text.now) (after_mark (chars text.now)) (tokens_in lexed)) }
    ensures words { IfOk result
        (λ lexed. All (λ tok. IsWordIn lexed.names tok.kind) lexed.toks.items) }
    ensures once { IfOk result (λ lexed. EachOnce lexed.names) }
    ensures few { IfOk result (λ lexed. length lexed.names ≤ length text.now) }
    ensures listed { IfOk result (λ lexed. lexed.names ≡ words_of (tokens_in lexed)) }
{
    let mut toks = Vec::new(alloc);
    let mut names = Names::new(alloc);
    let mut rest = without_mark(text);
    while let Some((first, tail)) = split_first(rest) {
        if first == '%' {
            rest = after_comment(tail);
            continue;
        }
        let at = (text.len() - rest.len()) as u32;
        let (kind, behind) = next_kind(&mut names, first, tail)?;
        toks.push(Tok { kind, at })?;
        rest = behind;
    }
    Ok(Lexed { toks, names })
}

/// A text without the byte order mark in front.
fn without_mark(text: &str) -> &str
    ensures value { chars result.now ≡ after_mark (chars text.now) }
    ensures within { length result.now ≤ length text.now }
{
    match split_first(text) {
        Some(('\u{feff}', tail)) => tail,
        _ => text,
    }
}

/// The first character of a text, and what stands after it.
pub(crate) fn split_first(text: &str) -> Option<(char, &str)>
    ensures value { MatchOption result
        (chars text.now ≡ [])
        (λ parts. chars text.now ≡ parts.0 ∷ chars parts.1.now) }
    ensures text { IfSome result (λ parts. IsUtf8 parts.1.now) }
    ensures within { IfSome result (λ parts. length parts.1.now < length text.now) }
{
    let mut chars = text.chars();
    let first = chars.next()?;
    Some((first, chars.as_str()))
}

/// The token in front, and what stands after what it takes with it.
#[tactic(auto, using(crate::proofs::Cuts::cuts))]
fn next_kind<'s>(
    names: &mut Names,
    first: char,
    tail: &'s str,
) -> Result<(Kind, &'s str), AllocError>
    requires room { length names.old < 4294967295 }
    requires no_comment { first ≢ 37 }
    ensures cuts { IfOk result (λ found.
        CutsOne (first ∷ chars tail.now) (sign_of names.new found.0) (chars found.1.now)) }
    ensures text { IfOk result (λ found. IsUtf8 found.1.now) }
    ensures within { IfOk result (λ found. length found.1.now ≤ length tail.now) }
    ensures word { IfOk result (λ found. IsWordIn names.new found.0) }
    ensures names { OnOk result (Extends names.old names.new) }
    ensures few { OnOk result (length names.new ≤ length names.old + 1) }
    ensures once { OnOk result (EachOnce names.old → EachOnce names.new) }
    ensures listed { IfOk result
        (λ found. names.new ≡ with_sign names.old (sign_of names.new found.0)) }
{
    if is_blank(first) {
        return Ok((Kind::Space, after_gap(tail)));
    }
    if first == '\\' {
        return next_control(names, tail);
    }
    Ok((single_kind(first), tail))
}

/// The token of a `\` and of what stands after it.
#[tactic(auto, using(crate::proofs::Cuts::cuts))]
fn next_control<'s>(names: &mut Names, tail: &'s str) -> Result<(Kind, &'s str), AllocError>
    requires room { length names.old < 4294967295 }
    ensures cuts { IfOk result (λ found. CutsOne (92 ∷ chars tail.now) (sign_of names.new found.0)
        (chars found.1.now)) }
    ensures text { IfOk result (λ found. IsUtf8 found.1.now) }
    ensures within { IfOk result (λ found. length found.1.now ≤ length tail.now) }
    ensures word { IfOk result (λ found. IsWordIn names.new found.0) }
    ensures names { OnOk result (Extends names.old names.new) }
    ensures few { OnOk result (length names.new ≤ length names.old + 1) }
    ensures once { OnOk result (EachOnce names.old → EachOnce names.new) }
    ensures listed { IfOk result
        (λ found. names.new ≡ with_sign names.old (sign_of names.new found.0)) }
{
    match split_first(tail) {
        None => Ok((Kind::Symbol(' '), tail)),
        Some(_) if makes_space(tail) => Ok((Kind::Symbol(' '), after_gap(tail))),
        Some((second, _)) if is_letter(second) => next_word(names, tail),
        Some((second, more)) => Ok((Kind::Symbol(second), more)),
    }
}

/// The token of a word, whose letters stand in front.
fn next_word<'s>(names: &mut Names, tail: &'s str) -> Result<(Kind, &'s str), AllocError>
    requires room { length names.old < 4294967295 }
    requires letter { (c : ℕ) × (cs : List ℕ) × (chars tail.now ≡ c ∷ cs) × (is_letter c ≡ true) }
    ensures cuts { IfOk result (λ found. CutsOne (92 ∷ chars tail.now) (sign_of names.new found.0)
        (chars found.1.now)) }
    ensures text { IfOk result (λ found. IsUtf8 found.1.now) }
    ensures within { IfOk result (λ found. length found.1.now ≤ length tail.now) }
    ensures word { IfOk result (λ found. IsWordIn names.new found.0) }
    ensures names { OnOk result (Extends names.old names.new) }
    ensures few { OnOk result (length names.new ≤ length names.old + 1) }
    ensures once { OnOk result (EachOnce names.old → EachOnce names.new) }
    ensures listed { IfOk result
        (λ found. names.new ≡ with_sign names.old (sign_of names.new found.0)) }
{
    let (word, after) = split_letters(tail);
    let number = names.add(word)?;
    Ok((Kind::Word(number), after_gap(after)))
}

/// The letters in front of a text, and what stands after them.
fn split_letters(text: &str) -> (&str, &str)
    ensures letters { result.0.now ≡ letters_of (chars text.now) }
    ensures after { chars result.1.now ≡ after_word (chars text.now) }
    ensures text { IsUtf8 result.0.now × IsUtf8 result.1.now }
    ensures within { length result.1.now ≤ length text.now }
{
    let after = after_word(text);
    text.split_at(text.len() - after.len())
}

/// What stands after the letters in front.
fn after_word(text: &str) -> &str
    ensures value { chars result.now ≡ after_word (chars text.now) }
    ensures within { length result.now ≤ length text.now }
{
    let mut rest = text;
    while let Some((first, tail)) = split_first(rest) {
        if !is_letter(first) {
            break;
        }
        rest = tail;
    }
    rest
}

/// What stands after the blanks and comments in front.
fn after_gap(text: &str) -> &str
    ensures value { chars result.now ≡ after_gap (chars text.now) }
    ensures within { length result.now ≤ length text.now }
{
    let mut rest = text;
    while let Some((first, tail)) = split_first(rest) {
        if is_blank(first) {
            rest = tail;
        } else if first == '%' {
            rest = after_line(tail);
        } else {
            break;
        }
    }
    rest
}

/// What stands after a comment, of what stands after its `%`.
fn after_comment(text: &str) -> &str
    ensures value { chars result.now ≡ after_comment (chars text.now) }
    ensures within { length result.now ≤ length text.now }
{
    let mut rest = after_line(text);
    while let Some((first, tail)) = split_first(rest) {
        if !is_indent(first) {
            break;
        }
        rest = tail;
    }
    rest
}

/// What stands after the first line end, or nothing.
fn after_line(text: &str) -> &str
    ensures value { chars result.now ≡ after_first is_line_end (chars text.now) }
    ensures within { length result.now ≤ length text.now }
{
    match text.split_once('\n') {
        Some((_, after)) => after,
        None => "",
    }
}

/// Whether `\` is the control space with what stands after it.
fn makes_space(text: &str) -> bool
    ensures { result ≡ makes_space (chars text.now) }
{
    match split_first(text) {
        Some((first, more)) => {
            is_indent(first) || first == '\n' || (first == '\r' && begins_line_feed(more))
        }
        None => true,
    }
}

/// Whether an LF stands in front.
fn begins_line_feed(text: &str) -> bool
    ensures { result ≡ begins_line_feed (chars text.now) }
{
    match split_first(text) {
        Some((first, _)) => first == '\n',
        None => false,
    }
}

/// The token of a single character.
fn single_kind(character: char) -> Kind
    ensures sign { (names : List (List ℕ)) → sign_of names result ≡ single character }
    ensures no_word { (names : List (List ℕ)) → IsWordIn names result }
{
    match character {
        '{' => Kind::Open,
        '}' => Kind::Close,
        '#' => Kind::Param,
        _ => Kind::Char(character),
    }
}

fn is_letter(character: char) -> bool
    ensures { result ≡ is_letter character }
{
    character.is_ascii_alphabetic()
}

fn is_blank(character: char) -> bool
    ensures { result ≡ is_blank character }
{
    is_indent(character) || character == '\r' || character == '\n'
}

fn is_indent(character: char) -> bool
    ensures { result ≡ is_indent character }
{
    character == ' ' || character == '\t'
}
