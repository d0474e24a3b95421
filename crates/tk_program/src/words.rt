//! The words of the command line.

ghost use Rattle.std.specs.Prelude.{◌≡◌, ◌&&◌, codes, drop, map, option_map, string_bytes, IfOk, IfErr, IfSome, IsErrAnd};
ghost use Rattle.std.specs.IoError.{error_kind};
ghost use Rattle.std.specs.Str.{bytes_eq};
ghost use Rattle.std.specs.Vec.Iter.{into_iter_items};
ghost use Rattle.tk_program.specs.Commands.{asked_by, IsWithinBudgets};
ghost use Rattle.tk_program.specs.HostWords.{IsCauseOf};
ghost use Rattle.tk_program.specs.Words.{is_file_name as is_name, command_of as asked};
ghost use Rattle.tk_program.specs.declared.words.NoWords.TheVariants.{OutOfMemory};

use std::alloc::{AllocError, Global};
use std::env::Args;
use std::io;
use std::io::ErrorKind;
use tk_picture::Asked;

/// How many units a run of `render FILE` may pay: for calls of macros, the code of keys, and the lines of grids.
const BUDGET: u64 = 10_000_000;

/// A file by its name, and what is asked of the source in it.
#[derive(Clone, Copy)]
pub(crate) struct Order<'a> {
    pub(crate) file: &'a str,
    pub(crate) asked: Asked,
}

/// What the words ask for.
#[derive(Clone, Copy)]
pub(crate) enum Command<'a> {
    /// The SVG document of a file.
    Render(Order<'a>),
}

/// Why the host gave no words.
#[derive(Clone, Copy, PartialEq, Eq)]
pub enum NoWords {
    /// No memory was left for them.
    OutOfMemory,
    /// One isn't UTF-8, or the host can't tell them.
    Unreadable,
}

impl From<AllocError> for NoWords {
    ghost from_gives = { λ _ e. e ≡ OutOfMemory };

    fn from(_: AllocError) -> Self {
        NoWords::OutOfMemory
    }
}

impl From<io::Error> for NoWords {
    ghost use Rattle.std.specs.IoError.{error_kind};
    ghost use Rattle.tk_program.specs.HostWords.{IsCauseOf};

    ghost from_gives = { λ error cause. IsCauseOf (error_kind error) cause };

    fn from(error: io::Error) -> Self {
        match error.kind() {
            ErrorKind::OutOfMemory => NoWords::OutOfMemory,
            _ => NoWords::Unreadable,
        }
    }
}

/// The words that the host told, without the first, which is the program's own name.
pub fn own_words(alloc: Global, told: io::Result<Args>) -> Result<Vec<String>, NoWords>
    ensures words { IfOk told (λ all. IfOk result (λ words. words.items ≡ drop 1 (into_iter_items all))) }
    ensures memory { IfOk told (λ _. IfErr result (λ cause. cause ≡ NoWords.OutOfMemory)) }
    ensures cause { IfErr told (λ error. IsErrAnd result (IsCauseOf (error_kind error))) }
{
    match told {
        Ok(all) => Ok(all.skip(1).collect(alloc)?),
        Err(error) => Err(NoWords::from(error)),
    }
}

/// What the words ask for, which don't have the program's own name in front: `render FILE` asks for
/// a document. No other words ask for anything.
pub(crate) fn command_of(words: &[String]) -> Option<Command<'_>>
    ensures command { option_map asked_by result ≡ asked (map string_bytes words.now) }
    ensures budget { IfSome result IsWithinBudgets }
{
    if words.len() != 2 {
        return None;
    }
    let (word, file) = (words[0].as_str(), words[1].as_str());
    if is_render(word, file) {
        let asked = Asked { budget: BUDGET };
        Some(Command::Render(Order { file, asked }))
    } else {
        None
    }
}

/// Whether the words are `render` and the name of a file.
fn is_render(word: &str, file: &str) -> bool
    ensures { result ≡ (bytes_eq word.now (codes "render") && is_name file.now) }
{
    word == "render" && is_file_name(file)
}

/// A name isn't empty, and begins with `-` only where it is `-` alone, which is standard input.
fn is_file_name(name: &str) -> bool
    ensures { result ≡ is_name name.now }
{
    match name.as_bytes() {
        [] => false,
        [first, _, ..] => *first != b'-',
        [_] => true,
    }
}
