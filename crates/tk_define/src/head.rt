//! The heads of definitions. None of these calls takes memory.

ghost use Rattle.std.specs.Prelude.{◌≡◌, ◌<◌, ◌≤◌, length, OnOk};
ghost use Rattle.tk_token.specs.declared.Code.TheVariants.{MacroSyntax};
ghost use Rattle.tk_token.specs.Kinds.{is_open};
ghost use Rattle.tk_expand.specs.Reading.{read, after_token};
ghost use Rattle.tk_expand.specs.Tells.{Tells};
ghost use Rattle.tk_expand.specs.Unread.{past_spaces};
ghost use Rattle.tk_define.specs.Heads.{digit, parameters, name_start, braced_name, name_of, bracketed_count, count_of};

use crate::parts::{digit, misfit, word};
use tk_expand::Input;
use tk_token::{Code, Fault, Kind, Tok};

/// Takes the parameters of a `\def` and the `{` of its body: how many parameters there are.
pub(crate) fn parameters(input: &mut Input) -> Result<u8, Fault>
    ensures gives { Tells (λ count. read count input.new) result (parameters 0 9 input.old) }
    ensures end { OnOk result (input.new.end ≡ input.old.end) }
    ensures shorter { OnOk result (length input.new.rest < length input.old.rest) }
{
    for count in 0..9 {
        let tok = input.token(Code::MacroSyntax)?;
        match tok.kind {
            Kind::Param => input.expect_char(Code::MacroSyntax, character(count + 1))?,
            Kind::Open => return Ok(count),
            _ => return Err(misfit(tok.at)),
        }
    }
    input.expect_open(Code::MacroSyntax)?;
    Ok(9)
}

/// The character of a digit.
fn character(n: u8) -> char
    requires { n ≤ 9 }
    ensures { result ≡ digit n }
{
    char::from(b'0' + n)
}

/// Takes the name behind `\newcommand`, and a `*` before it.
#[tactic(auto, unfolding(crate::specs::Heads::name_of))]
pub(crate) fn name(input: &mut Input) -> Result<u32, Fault>
    ensures gives { Tells (λ word. read word input.new) result (name_of input.old) }
    ensures end { OnOk result (input.new.end ≡ input.old.end) }
    ensures shorter { OnOk result (length input.new.rest < length input.old.rest) }
{
    let first = name_start(input)?;
    match first.kind {
        Kind::Word(word) => Ok(word),
        Kind::Open => braced_name(input),
        _ => Err(misfit(first.at)),
    }
}

/// Takes the first token of the name, and a `*` before it.
#[tactic(auto, unfolding(crate::specs::Heads::name_start))]
fn name_start(input: &mut Input) -> Result<Tok, Fault>
    ensures gives { Tells (λ tok. read tok input.new) result (name_start input.old) }
    ensures end { OnOk result (input.new.end ≡ input.old.end) }
    ensures shorter { OnOk result (length input.new.rest < length input.old.rest) }
{
    input.skip_spaces();
    let first = input.token(Code::MacroSyntax)?;
    if !first.kind.is_char('*') {
        return Ok(first);
    }
    input.skip_spaces();
    input.token(Code::MacroSyntax)
}

/// Takes a name in braces, whose `{` was taken.
#[tactic(auto, unfolding(crate::specs::Heads::braced_name))]
fn braced_name(input: &mut Input) -> Result<u32, Fault>
    ensures gives { Tells (λ word. read word input.new) result (braced_name input.old) }
    ensures end { OnOk result (input.new.end ≡ input.old.end) }
    ensures shorter { OnOk result (length input.new.rest < length input.old.rest) }
{
    input.skip_spaces();
    let word = word(input)?;
    input.skip_spaces();
    input.expect_close(Code::MacroSyntax)?;
    Ok(word)
}

/// Takes the number of arguments, which is 0 where there is none, and the `{` of the body.
#[tactic(auto, unfolding(crate::specs::Heads::count_of))]
pub(crate) fn count(input: &mut Input) -> Result<u8, Fault>
    ensures gives { Tells (λ count. read count input.new) result (count_of input.old) }
    ensures end { OnOk result (input.new.end ≡ input.old.end) }
    ensures shorter { OnOk result (length input.new.rest < length input.old.rest) }
{
    input.skip_spaces();
    let first = input.token(Code::MacroSyntax)?;
    match first.kind {
        Kind::Open => Ok(0),
        Kind::Char('[') => bracketed_count(input),
        _ => Err(misfit(first.at)),
    }
}

/// Takes the number of arguments, whose `[` was taken, its `]` and the `{` of the body.
#[tactic(auto, unfolding(crate::specs::Heads::bracketed_count))]
fn bracketed_count(input: &mut Input) -> Result<u8, Fault>
    ensures gives { Tells (λ count. read count input.new) result (bracketed_count input.old) }
    ensures end { OnOk result (input.new.end ≡ input.old.end) }
    ensures shorter { OnOk result (length input.new.rest < length input.old.rest) }
{
    input.skip_spaces();
    let count = digit(input)?;
    input.skip_spaces();
    input.expect_char(Code::MacroSyntax, ']')?;
    body_open(input)?;
    Ok(count)
}

/// Takes the `{` of the body, with the Spaces before it.
fn body_open(input: &mut Input) -> Result<(), Fault>
    ensures gives { Tells (λ _. input.new) result
        (after_token MacroSyntax is_open (past_spaces input.old)) }
    ensures end { OnOk result (input.new.end ≡ input.old.end) }
    ensures shorter { OnOk result (length input.new.rest < length input.old.rest) }
{
    input.skip_spaces();
    input.expect_open(Code::MacroSyntax)
}
