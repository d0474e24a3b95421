//! The words and signs of paths.

ghost use Rattle.std.specs.Prelude.{◌≡◌, ◌∷◌, Some, OnOk, is_some, option_map, slice_get};
ghost use Rattle.tk_token.specs.declared.Code.TheVariants.{PathSyntax};
ghost use Rattle.tk_token.specs.Answers.{◌>>=◌ as ◌followed_by◌, or_fault};
ghost use Rattle.tk_token.specs.Refusals.{Gives};
ghost use Rattle.tk_outline.specs.CurrentPaths.{CurrentPath as ACurrentPath};
ghost use Rattle.tk_path.specs.Views.{given_to, configuration_of, lookahead_of, reached_at, OnlyPays};
ghost use Rattle.tk_path.specs.Words as spec;

use crate::drawer::{Drawer, misfit};
use tk_expand::{Input, is_there};
use tk_token::{Code, Kind, Refusal, Tok};

/// A word or a sign of a path.
#[derive(Clone, Copy)]
pub(crate) enum PathWord {
    /// `--`
    Line,
    /// `-|`
    AcrossThenUp,
    /// `|-`
    UpThenAcross,
    /// `..`
    Dots,
    To,
    Rectangle,
    /// `circle` or `ellipse`
    Circle,
    Arc,
    Grid,
    Node,
    Coordinate,
    Foreach,
    Cycle,
    And,
}

/// The words that may stand at a place of a path.
#[derive(Clone, Copy)]
pub(crate) enum Words {
    /// What operations begin with.
    Operations,
    /// What may stand before the coordinate to which an operation goes.
    Nodes,
    /// What a line, corner or curve may go to beside a coordinate.
    Targets,
    /// What stands behind the first control point of a curve.
    Controls,
}

/// What is left of a word behind its first two letters, and the word.
type Row = (&'static [u8], PathWord);

/// The operation that begins with those two letters.
fn operation(first: char, second: char) -> Option<Row>
    ensures { option_map (λ row. (row.0.now, row.1)) result
        ≡ slice_get (spec.going_on second (spec.going_on first spec.operation_words)) 0 }
{
    match (first, second) {
        ('-', '-') => Some((b"", PathWord::Line)),
        ('-', '|') => Some((b"", PathWord::AcrossThenUp)),
        ('|', '-') => Some((b"", PathWord::UpThenAcross)),
        ('.', '.') => Some((b"", PathWord::Dots)),
        ('t', 'o') => Some((b"", PathWord::To)),
        ('r', 'e') => Some((b"ctangle", PathWord::Rectangle)),
        ('c', 'i') => Some((b"rcle", PathWord::Circle)),
        ('c', 'o') => Some((b"ordinate", PathWord::Coordinate)),
        ('e', 'l') => Some((b"lipse", PathWord::Circle)),
        ('a', 'r') => Some((b"c", PathWord::Arc)),
        ('g', 'r') => Some((b"id", PathWord::Grid)),
        ('n', 'o') => Some((b"de", PathWord::Node)),
        ('f', 'o') => Some((b"reach", PathWord::Foreach)),
        _ => None,
    }
}

/// The node that begins with those two letters.
fn node(first: char, second: char) -> Option<Row>
    ensures { option_map (λ row. (row.0.now, row.1)) result
        ≡ slice_get (spec.going_on second (spec.going_on first spec.node_words)) 0 }
{
    match (first, second) {
        ('n', 'o') => Some((b"de", PathWord::Node)),
        ('c', 'o') => Some((b"ordinate", PathWord::Coordinate)),
        _ => None,
    }
}

/// The target that begins with those two letters.
fn target(first: char, second: char) -> Option<Row>
    ensures { option_map (λ row. (row.0.now, row.1)) result
        ≡ slice_get (spec.going_on second (spec.going_on first spec.target_words)) 0 }
{
    match (first, second) {
        ('n', 'o') => Some((b"de", PathWord::Node)),
        ('c', 'y') => Some((b"cle", PathWord::Cycle)),
        ('c', 'o') => Some((b"ordinate", PathWord::Coordinate)),
        _ => None,
    }
}

/// What begins with those two letters behind a control point.
fn control(first: char, second: char) -> Option<Row>
    ensures { option_map (λ row. (row.0.now, row.1)) result
        ≡ slice_get (spec.going_on second (spec.going_on first spec.control_words)) 0 }
{
    match (first, second) {
        ('a', 'n') => Some((b"d", PathWord::And)),
        ('.', '.') => Some((b"", PathWord::Dots)),
        _ => None,
    }
}

/// Whether an operation begins with that letter.
fn begins_operation(first: char) -> bool
    ensures { result ≡ is_some (slice_get (spec.going_on first spec.operation_words) 0) }
{
    matches!(
        first,
        '-' | '|' | '.' | 't' | 'r' | 'c' | 'e' | 'a' | 'g' | 'n' | 'f'
    )
}

/// Whether a node begins with that letter.
fn begins_node(first: char) -> bool
    ensures { result ≡ is_some (slice_get (spec.going_on first spec.node_words) 0) }
{
    matches!(first, 'n' | 'c')
}

/// Whether a target begins with that letter.
fn begins_target(first: char) -> bool
    ensures { result ≡ is_some (slice_get (spec.going_on first spec.target_words) 0) }
{
    matches!(first, 'c' | 'n')
}

/// Whether what stands behind a control point begins with that letter.
fn begins_control(first: char) -> bool
    ensures { result ≡ is_some (slice_get (spec.going_on first spec.control_words) 0) }
{
    matches!(first, 'a' | '.')
}

impl Words {
    /// Whether one of them begins with that letter.
    fn begin(self, first: char) -> bool
        ensures { result ≡ is_some (slice_get (spec.going_on first (spec.word_table self)) 0) }
    {
        match self {
            Words::Operations => begins_operation(first),
            Words::Nodes => begins_node(first),
            Words::Targets => begins_target(first),
            Words::Controls => begins_control(first),
        }
    }

    /// The one that begins with those two letters.
    fn row(self, first: char, second: char) -> Option<Row>
        ensures { option_map (λ row. (row.0.now, row.1)) result
            ≡ slice_get (spec.going_on second (spec.going_on first (spec.word_table self))) 0 }
    {
        match self {
            Words::Operations => operation(first, second),
            Words::Nodes => node(first, second),
            Words::Targets => target(first, second),
            Words::Controls => control(first, second),
        }
    }

    /// The one that begins with that letter and the letter that a token is; the fault stands at that place.
    fn row_behind(self, first: char, second: Option<Tok>, at: u32) -> Result<Row, Refusal>
        ensures { Gives
            (λ row. (row.0.now, row.1)) result (or_fault (spec.letter_there second) PathSyntax at
            followed_by (λ letter. or_fault
            (slice_get (spec.going_on letter
            (spec.going_on first (spec.word_table self))) 0) PathSyntax at)) }
    {
        match letter(second) {
            Some(second) => self.row(first, second).ok_or(misfit(at)),
            None => Err(misfit(at)),
        }
    }
}

/// The letter that a token is.
fn letter(token: Option<Tok>) -> Option<char>
    ensures { result ≡ spec.letter_there token }
{
    match token {
        Some(tok) => match tok.kind {
            Kind::Char(c) => Some(c),
            _ => None,
        },
        None => None,
    }
}

impl Drawer {
    /// Reads a letter of a word, which begins at that place.
    #[tactic(auto, unfolding(crate::specs::Words::behind_letter))]
    fn expect_letter(&mut self, input: &mut Input, at: u32, letter: char) -> Result<(), Refusal>
        ensures gives { (path : ACurrentPath) → Gives
            (λ _. configuration_of self.new path input.new) result
            (spec.behind_letter (given_to self.old) at letter
            (configuration_of self.old path input.old)) }
        ensures pays { OnOk result (OnlyPays self.old self.new) }
    {
        let next = self.token(input)?;
        if is_there(next, letter) {
            return Ok(());
        }
        Err(misfit(at))
    }

    /// Reads letters of a word, which begins at that place.
    #[tactic(auto, unfolding(crate::specs::Words::behind_letters))]
    fn expect_letters(&mut self, input: &mut Input, at: u32, letters: &[u8]) -> Result<(), Refusal>
        ensures gives { (path : ACurrentPath) → Gives
            (λ _. configuration_of self.new path input.new) result
            (spec.behind_letters (given_to self.old) at letters.now
            (configuration_of self.old path input.old)) }
        ensures pays { OnOk result (OnlyPays self.old self.new) }
    {
        match letters.split_first() {
            Some((letter, rest)) => {
                self.expect_letter(input, at, char::from(*letter))?;
                self.expect_letters(input, at, rest)
            }
            None => Ok(()),
        }
    }

    /// Reads a word that begins with a token which was taken.
    #[tactic(auto, unfolding(crate::specs::Words::word_from))]
    pub(crate) fn word_from(
        &mut self,
        input: &mut Input,
        words: Words,
        first: Option<Tok>,
    ) -> Result<PathWord, Refusal>
        ensures gives { (path : ACurrentPath) → Gives
            (λ word. reached_at word self.new path input.new) result
            (spec.word_from (given_to self.old) words
            (lookahead_of first self.old path input.old)) }
        ensures pays { OnOk result (OnlyPays self.old self.new) }
    {
        let at = input.place(first);
        match letter(first) {
            Some(first) => self.rest_of_word(input, words, at, first),
            None => Err(misfit(at)),
        }
    }

    /// Reads the rest of a word, which begins at that place with a letter that was taken.
    #[tactic(auto, unfolding(crate::specs::Words::rest_of_word))]
    fn rest_of_word(
        &mut self,
        input: &mut Input,
        words: Words,
        at: u32,
        first: char,
    ) -> Result<PathWord, Refusal>
        ensures gives { (path : ACurrentPath) → Gives
            (λ word. reached_at word self.new path input.new) result
            (spec.rest_of_word (given_to self.old) at (spec.going_on first (spec.word_table words))
            (configuration_of self.old path input.old)) }
        ensures pays { OnOk result (OnlyPays self.old self.new) }
    {
        if !words.begin(first) {
            return Err(misfit(at));
        }
        let second = self.token(input)?;
        let (letters, word) = words.row_behind(first, second, at)?;
        self.expect_letters(input, at, letters)?;
        Ok(word)
    }

    /// Reads the word that has to be next, with the Spaces before it.
    #[tactic(auto, unfolding(crate::specs::Words::word_ahead))]
    pub(crate) fn word_ahead(
        &mut self,
        input: &mut Input,
        words: Words,
    ) -> Result<PathWord, Refusal>
        ensures gives { (path : ACurrentPath) → Gives
            (λ word. reached_at word self.new path input.new) result
            (spec.word_ahead (given_to self.old) words (configuration_of self.old path input.old)) }
        ensures pays { OnOk result (OnlyPays self.old self.new) }
    {
        let first = self.ahead(input)?;
        self.word_from(input, words, first)
    }

    /// Reads a word that has to be next, which begins with that letter and goes on with those.
    #[tactic(auto, unfolding(crate::specs::Words::past_word, crate::specs::Configurations::must_be))]
    pub(crate) fn expect_word(
        &mut self,
        input: &mut Input,
        first: char,
        letters: &[u8],
    ) -> Result<(), Refusal>
        ensures gives { (path : ACurrentPath) → Gives
            (λ _. configuration_of self.new path input.new) result
            (spec.past_word (given_to self.old) (first ∷ letters.now)
            (configuration_of self.old path input.old)) }
        ensures pays { OnOk result (OnlyPays self.old self.new) }
    {
        let token = self.ahead(input)?;
        input.expect(Code::PathSyntax, token, first)?;
        let at = input.place(token);
        self.expect_letters(input, at, letters)
    }
}
