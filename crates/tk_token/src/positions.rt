//! Lines and columns of byte offsets, and where tokens run out.

ghost use Rattle.std.specs.Prelude.{◌≡◌, ◌<◌, ◌≤◌, ◌+◌, length, take, count_by};
ghost use Rattle.std.specs.List.{after_last};
ghost use Rattle.std.specs.Str.{chars, IsUtf8};
ghost use Rattle.tk_token.specs.Places.{is_line_end, line_of, column_of, end_of};

use crate::Tok;
use memchr::{memchr_iter, memrchr};

/// The line and the column of a place in a source, both counted from 1. A line ends with an LF; a column counts
/// characters, a byte order mark and a CR among them.
pub fn place(source: &[u8], at: u32) -> (u32, u32)
    requires within { at ≤ length source.now }
    requires short { length source.now ≤ 16777216 }
    requires text { IsUtf8 (take at source.now) }
    ensures line { result.0 ≡ line_of source.now at }
    ensures column { result.1 ≡ column_of source.now at }
{
    let before = &source[..at as usize];
    let line = 1 + line_ends(before) as u32;
    let column = 1 + char_count(last_line(before)) as u32;
    (line, column)
}

/// How many line ends there are.
fn line_ends(bytes: &[u8]) -> usize
    ensures value { result ≡ count_by is_line_end bytes.now }
    ensures within { result ≤ length bytes.now }
{
    memchr_iter(b'\n', bytes).count()
}

/// What stands after the last line end.
fn last_line(text: &[u8]) -> &[u8]
    requires { IsUtf8 text.now }
    ensures value { result.now ≡ after_last is_line_end text.now }
    ensures text { IsUtf8 result.now }
    ensures within { length result.now ≤ length text.now }
{
    match memrchr(b'\n', text) {
        Some(at) => &text[at + 1..],
        None => text,
    }
}

/// How many characters the bytes spell.
fn char_count(text: &[u8]) -> usize
    requires { IsUtf8 text.now }
    ensures value { result ≡ length (chars text.now) }
    ensures within { result ≤ length text.now }
{
    match str::from_utf8(text) {
        Ok(text) => text.chars().count(),
        Err(_) => unreachable!(),
    }
}

/// Where tokens run out: at the last of them, or at that place where there is none.
pub fn end_of(at: u32, list: &[Tok]) -> u32
    ensures { result ≡ end_of at list.now }
{
    match list.split_last() {
        Some((last, _)) => last.at,
        None => at,
    }
}
