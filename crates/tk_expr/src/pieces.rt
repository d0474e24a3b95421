//! The pieces of an expression.

ghost use Rattle.std.specs.Prelude.{◌≡◌, ◌<◌, ◌≤◌, List, [], ◌∷◌, ◌++◌, true, false, length, map, not, MatchOption};
ghost use Rattle.std.specs.Prelude.{IfSome, IfNone};
ghost use Rattle.std.specs.List.{prefix_len, position, list_all};
ghost use Rattle.arrayvec.specs.ArrayString.{array_string_len};
ghost use Rattle.tk_token.specs.declared.Tok.{Tok as ATok};
ghost use Rattle.tk_expr.specs.Pieces as spec;
ghost use Rattle.tk_expr.specs.Letters.{is_letter_kind, letter_of_kind, is_letter_tok, letter_of};

use arrayvec::ArrayString;
use tk_num::Unit;
use tk_token::{Kind, Tok};

/// The letters of the longest name.
const MOST_LETTERS: usize = 6;

/// A function of one argument.
#[derive(Clone, Copy)]
pub enum One {
    Sin,
    Cos,
    Tan,
    Sqrt,
    Abs,
    Sign,
    Floor,
    Ceil,
    Round,
    Int,
}

/// A function of two arguments.
#[derive(Clone, Copy)]
pub enum Two {
    Mod,
    Pow,
    Veclen,
}

/// A function of one or more arguments: the least or the greatest of them.
#[derive(Clone, Copy)]
pub enum Most {
    Min,
    Max,
}

/// What a piece of an expression is.
#[derive(Clone, Copy)]
pub enum Mark {
    /// A digit, by its value.
    Digit(u8),
    Point,
    /// A run of letters that names a unit.
    Measure(Unit),
    /// `r`, which turns radians into degrees.
    Radian,
    Pi,
    /// A run of letters that names a function of one argument.
    Single(One),
    /// A run of letters that names a function of two arguments.
    Double(Two),
    /// A run of letters that names a function of one or more arguments.
    Several(Most),
    /// Any other run of letters.
    Word,
    Plus,
    Minus,
    Star,
    Slash,
    Caret,
    Bar,
    Ampersand,
    Equals,
    Bang,
    Less,
    Greater,
    Question,
    Colon,
    Comma,
    /// `(` or `{`
    Left,
    /// `)` or `}`
    Right,
    Gap,
    Other,
}

/// A piece of an expression, with the place of its first token.
#[derive(Clone, Copy)]
pub struct Piece {
    pub mark: Mark,
    pub at: u32,
}

/// What a character that is no letter is.
#[tactic(auto, unfolding(crate::specs::Pieces::char_mark))]
#[inline(always)]
fn char_mark(c: char) -> Mark
    ensures { result ≡ spec.char_mark c }
{
    match c {
        '0'..='9' => Mark::Digit((c as u32 - '0' as u32) as u8),
        '.' => Mark::Point,
        '+' => Mark::Plus,
        '-' => Mark::Minus,
        '*' => Mark::Star,
        '/' => Mark::Slash,
        '^' => Mark::Caret,
        '|' => Mark::Bar,
        '&' => Mark::Ampersand,
        '=' => Mark::Equals,
        '!' => Mark::Bang,
        '<' => Mark::Less,
        '>' => Mark::Greater,
        '?' => Mark::Question,
        ':' => Mark::Colon,
        ',' => Mark::Comma,
        '(' => Mark::Left,
        ')' => Mark::Right,
        _ => Mark::Other,
    }
}

/// What a single token is.
#[inline(always)]
fn single_mark(kind: Kind) -> Mark
    ensures { result ≡ spec.mark_of kind }
{
    match kind {
        Kind::Char(c) => char_mark(c),
        Kind::Open => Mark::Left,
        Kind::Close => Mark::Right,
        Kind::Space => Mark::Gap,
        _ => Mark::Other,
    }
}

/// What runs of letters are: the units, `r` and `pi`, and the names of functions.
static WORDS: [(&str, Mark); 28] = [
    ("pt", Mark::Measure(Unit::Pt)),
    ("pc", Mark::Measure(Unit::Pc)),
    ("in", Mark::Measure(Unit::In)),
    ("bp", Mark::Measure(Unit::Bp)),
    ("cm", Mark::Measure(Unit::Cm)),
    ("mm", Mark::Measure(Unit::Mm)),
    ("dd", Mark::Measure(Unit::Dd)),
    ("cc", Mark::Measure(Unit::Cc)),
    ("sp", Mark::Measure(Unit::Sp)),
    ("em", Mark::Measure(Unit::Em)),
    ("ex", Mark::Measure(Unit::Ex)),
    ("r", Mark::Radian),
    ("pi", Mark::Pi),
    ("sin", Mark::Single(One::Sin)),
    ("cos", Mark::Single(One::Cos)),
    ("tan", Mark::Single(One::Tan)),
    ("sqrt", Mark::Single(One::Sqrt)),
    ("abs", Mark::Single(One::Abs)),
    ("sign", Mark::Single(One::Sign)),
    ("floor", Mark::Single(One::Floor)),
    ("ceil", Mark::Single(One::Ceil)),
    ("round", Mark::Single(One::Round)),
    ("int", Mark::Single(One::Int)),
    ("mod", Mark::Double(Two::Mod)),
    ("pow", Mark::Double(Two::Pow)),
    ("veclen", Mark::Double(Two::Veclen)),
    ("min", Mark::Several(Most::Min)),
    ("max", Mark::Several(Most::Max)),
];

/// What a run of letters is by a table, or just a word.
fn mark_in(table: &[(&str, Mark)], word: &str) -> Mark
    ensures { result ≡ spec.mark_in (map (λ row. (row.0.now, row.1)) table.now) word.now }
{
    for (text, mark) in table {
        if word == *text {
            return *mark;
        }
    }
    Mark::Word
}

/// What a run of letters is.
#[tactic(auto, unfolding(crate::specs::Pieces::word_mark))]
fn word_mark(word: &str) -> Mark
    ensures { result ≡ spec.word_mark word.now }
{
    mark_in(&WORDS, word)
}

/// Whether a token is an ASCII letter.
#[inline(always)]
fn is_letter(kind: Kind) -> bool
    ensures { result ≡ is_letter_kind kind }
{
    match kind {
        Kind::Char(c) => c.is_ascii_alphabetic(),
        _ => false,
    }
}

/// The letter that a token is.
fn letter(kind: Kind) -> char
    ensures { result ≡ letter_of_kind kind }
{
    match kind {
        Kind::Char(c) => c,
        _ => ' ',
    }
}

/// How many letters stand in front.
fn letters_len(list: &[Tok]) -> usize
    ensures value { result ≡ prefix_len is_letter_tok list.now }
    ensures within { result ≤ length list.now }
{
    first_other(list).unwrap_or(list.len())
}

/// Where the first token stands that is no letter.
fn first_other(list: &[Tok]) -> Option<usize>
    ensures { result ≡ position (λ tok. not (is_letter_tok tok)) list.now }
{
    list.iter().position(|tok| !is_letter(tok.kind))
}

/// Puts a letter at the end of a text.
fn push_letter(text: &mut ArrayString<6>, tok: Tok)
    requires room { array_string_len text.old < 6 }
    requires letter { is_letter_tok tok ≡ true }
    ensures text { text.new.bytes ≡ text.old.bytes ++ letter_of tok ∷ [] }
{
    text.push(letter(tok.kind));
}

/// The text of a run of letters, where it isn't longer than each name.
fn text_of(letters: &[Tok]) -> Option<ArrayString<6>>
    requires { list_all is_letter_tok letters.now ≡ true }
    ensures text { IfSome result (λ text. text.bytes ≡ map letter_of letters.now) }
    ensures long { IfNone result (6 < length letters.now) }
{
    if letters.len() > MOST_LETTERS {
        return None;
    }
    let mut text = ArrayString::new();
    for tok in letters {
        push_letter(&mut text, *tok);
    }
    Some(text)
}

/// What a run of letters is.
fn run_mark(letters: &[Tok]) -> Mark
    requires { list_all is_letter_tok letters.now ≡ true }
    ensures { result ≡ spec.word_mark (map letter_of letters.now) }
{
    match text_of(letters) {
        Some(text) => word_mark(text.as_str()),
        None => Mark::Word,
    }
}

/// The piece in front, and the tokens after it.
#[inline(always)]
pub(crate) fn next_piece(list: &[Tok]) -> Option<(Piece, &[Tok])>
    ensures pieces { MatchOption result (spec.pieces_of list.now ≡ [])
        (λ found. spec.pieces_of list.now ≡ found.0 ∷ spec.pieces_of found.1.now) }
    ensures shorter { IfSome result (λ found. length found.1.now < length list.now) }
{
    let (first, tail) = list.split_first()?;
    if is_letter(first.kind) {
        return Some(run_piece(*first, list));
    }
    let mark = single_mark(first.kind);
    Some((Piece { mark, at: first.at }, tail))
}

/// The piece of the letters in front, of which the first is given, and the tokens after it.
#[inline(never)]
fn run_piece(first: Tok, list: &[Tok]) -> (Piece, &[Tok])
    requires front { (tail : List ATok) × (list.now ≡ first ∷ tail) }
    requires letter { is_letter_kind first.kind ≡ true }
    ensures pieces { spec.pieces_of list.now ≡ result.0 ∷ spec.pieces_of result.1.now }
    ensures shorter { length result.1.now < length list.now }
{
    let (letters, rest) = list.split_at(letters_len(list));
    let mark = run_mark(letters);
    (Piece { mark, at: first.at }, rest)
}
