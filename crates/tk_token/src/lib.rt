//! Tokens: how the bytes of a source are cut, the words that tokens name, and the faults that stand at their places.
#![tactic(auto)]

ghost use Rattle.std.specs.Prelude.{◌≡◌};

mod faults;
mod groups;
mod kinds;
mod laws;
mod lexer;
mod names;
mod positions;
mod texts;

pub use groups::{
    Sought, after_spaces, before_char, before_spaces, begins_char, begins_pair, begins_three,
    closes_nothing, depth_after, first_outside, trimmed, unbraced, without_first,
};
pub use kinds::one_word;
pub use laws::{
    a_search_parts_the_list, a_source_lexes_in_one_way, a_source_without_fault_is_text,
    all_characters_have_tokens, characters_have_one_list_of_tokens, each_source_lexes,
    what_stands_before_a_fault_is_text, words_stand_once,
};
pub use lexer::{Lexed, lex};
pub use names::Names;
pub use positions::{end_of, place};
use std::alloc::{AllocError, AllocFailed};
pub use texts::{text_in, text_into, tokens_of};

/// What a token is.
#[derive(Clone, Copy, PartialEq, Eq)]
pub enum Kind {
    /// A character that stands for itself.
    Char(char),
    /// A control word, by its number among the names.
    Word(u32),
    /// A control symbol: `\` and one character that is no letter. Before a space, a tab, a line end or the end of the
    /// source it is the control space, which is the symbol of a space.
    Symbol(char),
    /// `{`
    Open,
    /// `}`
    Close,
    /// `#`
    Param,
    /// The place of an argument, from 1 on. It stands in stored bodies alone, and never in a source.
    Arg(u8),
    /// A gap with a blank outside its comments.
    Space,
}

/// A token, with the byte offset of its first byte.
#[derive(Clone, Copy, PartialEq, Eq)]
pub struct Tok {
    pub kind: Kind,
    pub at: u32,
}

/// What is wrong with a source.
#[derive(Clone, Copy, Debug, PartialEq, Eq)]
pub enum Code {
    /// The bytes aren't UTF-8: at the first byte of a sequence that begins no character.
    NotUtf8,
    /// A character below U+0020 that is no tab, LF or CR, or else U+FFFE or U+FFFF.
    BadChar,
    /// A `}` too many, or else a `{` left open: the innermost one.
    Brace,
    /// A 257th open brace, or a 65th open parenthesis, call or `?` of an expression.
    TooDeep,
    /// A value lies past 1,073,741,823 scaled points either way.
    TooLarge,
    /// A divisor is zero.
    DivZero,
    /// A function has no value there.
    Domain,
    /// A text is no expression: at the first token that doesn't fit.
    Expression,
    /// A matrix has no inverse where one is asked for.
    Singular,
    /// A handler's value hasn't the form that the handler wants.
    HandlerValue,
    /// A definition hasn't the form of one, or a name that is to be defined is no control word.
    MacroSyntax,
    /// An argument is missing, or there is one too many.
    MacroArg,
    /// More units would be paid than the budget has.
    Budget,
    /// A 129th level would open.
    Levels,
    /// A 257th key list would run inside the others.
    KeyDepth,
    /// A key is unknown, or its name is no text.
    UnknownKey,
    /// A key's value is missing.
    ValueRequired,
    /// A key has a value that takes none.
    ValueForbidden,
    /// A choice has no such value.
    UnknownChoice,
    /// A token stands among settings that begins none.
    NotASetting,
    /// A text is no colour.
    Colour,
    /// A loop hasn't the form of one.
    LoopSyntax,
    /// The dots of a loop don't count to an end.
    LoopItem,
    /// A text is neither the name of an anchor nor an angle.
    NoAnchor,
    /// A character of a label isn't in the font.
    NoGlyph,
    /// A command stands in a label that no label can have.
    TextCommand,
    /// A label has mathematics.
    Math,
    /// A coordinate hasn't the form of one.
    Coordinate,
    /// No node has that name.
    NoNode,
    /// A token fits no operation of a path, or a list of options has no `]`.
    PathSyntax,
    /// A token begins no command.
    UnknownCommand,
    /// An `\end` or a `}` doesn't close what was opened last, or an opener is left open.
    EndMismatch,
    /// There are fewer pictures than the number that was chosen.
    NoPicture,
    /// The bytes of a font table haven't the form of one.
    Font,
    /// A file has more than 16,777,216 bytes.
    TooLong,
    /// The source has a form that isn't built.
    Unbuilt,
}

/// What is wrong, and at which byte offset.
#[derive(Clone, Copy, Debug, PartialEq, Eq)]
pub struct Fault {
    pub code: Code,
    pub at: u32,
}

impl Fault {
    /// That fault at that place.
    pub fn new(code: Code, at: u32) -> Fault
        ensures { result ≡ record { code = code; at = at } }
    {
        Fault { code, at }
    }
}

/// Why a call that takes memory gave nothing.
#[derive(Clone, Copy, Debug, PartialEq, Eq)]
pub enum Refusal {
    Fault(Fault),
    OutOfMemory,
}

impl Refusal {
    /// That fault at that place.
    pub fn new(code: Code, at: u32) -> Refusal
        ensures { result ≡ Refusal.Fault (record { code = code; at = at }) }
    {
        Refusal::Fault(Fault { code, at })
    }
}

impl From<AllocError> for Refusal {
    ghost use Rattle.std.specs.Prelude.{◌≡◌};
    ghost use Rattle.tk_token.specs.declared.Refusal.TheVariants.{OutOfMemory};

    ghost from_gives = { λ _ refusal. refusal ≡ OutOfMemory };

    fn from(_: AllocError) -> Self {
        Refusal::OutOfMemory
    }
}

impl<T: Drop> From<AllocFailed<T>> for Refusal {
    ghost use Rattle.std.specs.Prelude.{◌≡◌};
    ghost use Rattle.tk_token.specs.declared.Refusal.TheVariants.{OutOfMemory};

    ghost from_gives = { λ _ refusal. refusal ≡ OutOfMemory };

    fn from(_: AllocFailed<T>) -> Self {
        Refusal::OutOfMemory
    }
}

impl From<Fault> for Refusal {
    ghost use Rattle.std.specs.Prelude.{◌≡◌};
    ghost use Rattle.tk_token.specs.declared.Refusal.TheVariants.{Fault as Refused};

    ghost from_gives = { λ fault refusal. refusal ≡ Refused fault };

    fn from(fault: Fault) -> Self {
        Refusal::Fault(fault)
    }
}
