//! The faults of a source.

ghost use Rattle.std.specs.Prelude.{◌≡◌, ◌<◌, ◌≤◌, ℕ, List, length, map, reverse, chars, None, Some, MatchResult, IfSome};
ghost use Rattle.std.specs.List.{list_all};
ghost use Rattle.std.specs.Result.{result_map_both};
ghost use Rattle.tk_token.specs.Faults.{is_refused, first_place, text_fault, open_after, balanced};
ghost use Rattle.tk_token.specs.Pieces.{is_plain_byte};
ghost use Rattle.tk_token.specs.Token.{token_of, sign_of};

use crate::lexer::split_first;
use crate::{Code, Fault, Kind, Tok};
use arrayvec::ArrayVec;

/// How many braces may be open.
const MOST_OPEN: usize = 256;

/// The places of the braces that are open, the innermost of which is last.
type OpenBraces = ArrayVec<u32, MOST_OPEN>;

/// A source as text.
pub(crate) fn text_of(source: &[u8]) -> Result<&str, Fault>
    requires { length source.now ≤ 16777216 }
    ensures { MatchResult result
        (λ text. (text.now ≡ source.now) × (text_fault source.now ≡ None))
        (λ fault. text_fault source.now ≡ Some fault) }
{
    let text = match str::from_utf8(source) {
        Ok(text) => text,
        Err(error) => return Err(Fault::new(Code::NotUtf8, error.valid_up_to() as u32)),
    };
    match first_refused(text) {
        Some(at) => Err(Fault::new(Code::BadChar, at as u32)),
        None => Ok(text),
    }
}

/// How many bytes stand before the first character that is refused.
fn first_refused(text: &str) -> Option<usize>
    ensures value { result ≡ first_place is_refused (chars text.now) }
    ensures within { IfSome result (λ at. at < length text.now) }
{
    if is_plain(text.as_bytes()) {
        return None;
    }
    let mut rest = text;
    while let Some((first, tail)) = split_first(rest) {
        if is_refused(first) {
            return Some(text.len() - rest.len());
        }
        rest = tail;
    }
    None
}

/// Whether no byte stands in a character that is refused. Nearly every source is so.
fn is_plain(bytes: &[u8]) -> bool
    ensures { result ≡ list_all is_plain_byte bytes.now }
{
    bytes.iter().all(|byte| is_plain_byte(*byte))
}

/// Whether a byte stands in no character that is refused: it is no control character but tab, LF or CR, and doesn't
/// begin a character from U+F000 to U+FFFF.
fn is_plain_byte(byte: u8) -> bool
    ensures { result ≡ is_plain_byte byte }
{
    (b' ' <= byte && byte != 0xef) || matches!(byte, b'\t' | b'\n' | b'\r')
}

fn is_refused(character: char) -> bool
    ensures { result ≡ is_refused character }
{
    matches!(character, '\0'..='\u{8}' | '\u{b}' | '\u{c}' | '\u{e}'..='\u{1f}' | '\u{fffe}' | '\u{ffff}')
}

/// Asks that braces balance, and that no more than 256 are open at once. This takes no memory.
pub(crate) fn balanced(toks: &[Tok]) -> Result<(), Fault>
    ensures { (names : List (List ℕ))
        → result_map_both (λ _. map (token_of names) toks.now) (λ fault. fault) result
        ≡ balanced (map (token_of names) toks.now) }
{
    let mut open_at = OpenBraces::new();
    for tok in toks {
        open_after(&mut open_at, *tok)?;
    }
    match open_at.last() {
        Some(at) => Err(Fault::new(Code::Brace, *at)),
        None => Ok(()),
    }
}

/// Takes a token into the places of the braces that are open.
fn open_after(open_at: &mut OpenBraces, tok: Tok) -> Result<(), Fault>
    ensures { (names : List (List ℕ))
        → result_map_both (λ _. reverse open_at.new.items) (λ fault. fault) result
        ≡ open_after (reverse open_at.old.items) (sign_of names tok.kind) tok.at }
{
    match tok.kind {
        Kind::Open => {
            if open_at.is_full() {
                return Err(Fault::new(Code::TooDeep, tok.at));
            }
            open_at.push(tok.at);
            Ok(())
        }
        Kind::Close => match open_at.pop() {
            Some(_) => Ok(()),
            None => Err(Fault::new(Code::Brace, tok.at)),
        },
        _ => Ok(()),
    }
}
