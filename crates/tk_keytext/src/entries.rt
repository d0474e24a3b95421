//! What handlers make of entries.

ghost use Rattle.std.specs.Prelude.{◌≡◌, IfOk, option_copied, unwrap_or};
ghost use Rattle.tk_token.specs.declared.Code.TheVariants.{HandlerValue};
ghost use Rattle.tk_token.specs.Answers.{or_fault};
ghost use Rattle.tk_token.specs.Refusals.{Gives};
ghost use Rattle.tk_keytext.specs.Entries.{no_entry, also_keys, coded, styled, restyled, run_by, edited};

use crate::Handler;
use std::alloc::{AllocError, Global};
use tk_store::{Body, Entry, Need, Run};
use tk_token::{Code, Fault, Kind, Refusal, Tok, one_word};

/// The entry that a handler makes of what stands at a path, if anything does, and of the value of a part that stands at
/// `at`; `also` is the number of the word `pgfkeysalso`. So `.style={draw}` makes one that runs `\pgfkeysalso{draw}`.
///
/// What doesn't fit is `HandlerValue` at the part: a value that is missing, none that is one control word for `.store
/// in`, a run that is no code for `.append style` and `.prefix style`, and `.cd` and `.try`, which make no entry. A `#`
/// in code that stands for no argument is `MacroSyntax` at the `#`.
#[tactic(auto, unfolding(crate::specs::Entries::edited))]
pub fn edit_entry(
    alloc: Global,
    handler: Handler,
    old: Option<&Entry>,
    value: Option<&[Tok]>,
    also: u32,
    at: u32,
) -> Result<Entry, Refusal>
    ensures { Gives (λ entry. entry) result
        (edited also at handler (option_copied old.entry) (option_copied value.entry)) }
{
    let entry = copy_entry(old)?;
    match handler {
        Handler::ValueRequired => Ok(Entry {
            need: Need::Required,
            ..entry
        }),
        Handler::ValueForbidden => Ok(Entry {
            need: Need::Forbidden,
            ..entry
        }),
        Handler::IsChoice => Ok(Entry {
            run: Some(Run::Choice),
            ..entry
        }),
        Handler::Default => {
            let need = Need::Default(Body::new(alloc, asked(value, at)?)?);
            Ok(Entry { need, ..entry })
        }
        Handler::Initial => {
            let value = Some(Body::new(alloc, asked(value, at)?)?);
            Ok(Entry { value, ..entry })
        }
        _ => {
            let list = asked(value, at)?;
            let run = run_by(alloc, handler, entry.run.as_ref(), list, also, at)?;
            Ok(Entry {
                run: Some(run),
                ..entry
            })
        }
    }
}

/// The value, which has to be there.
fn asked(value: Option<&[Tok]>, at: u32) -> Result<&[Tok], Refusal>
    ensures { Gives (λ list. list.now) result
        (or_fault (option_copied value.entry) HandlerValue at) }
{
    match value {
        Some(list) => Ok(list),
        None => Err(unfit(at).into()),
    }
}

/// The fault of a value that doesn't fit.
fn unfit(at: u32) -> Fault
    ensures { result ≡ record { code = HandlerValue; at = at } }
{
    Fault {
        code: Code::HandlerValue,
        at,
    }
}

/// The run that a handler makes of a value.
fn run_by(
    alloc: Global,
    handler: Handler,
    old: Option<&Run>,
    list: &[Tok],
    also: u32,
    at: u32,
) -> Result<Run, Refusal>
    ensures { Gives (λ run. run) result
        (run_by also at handler (option_copied old.entry) list.now) }
{
    match handler {
        Handler::Code => coded(alloc, 1, list),
        Handler::CodeTwo => coded(alloc, 2, list),
        Handler::Style => style_alone(alloc, 1, list, also, at),
        Handler::StyleTwo => style_alone(alloc, 2, list, also, at),
        Handler::AppendStyle | Handler::PrefixStyle => restyled(
            alloc, handler, old, list, also, at,
        ),
        Handler::StoreIn => match one_word(list) {
            Some(word) => Ok(Run::StoreIn(word)),
            None => Err(unfit(at).into()),
        },
        _ => Err(unfit(at).into()),
    }
}

/// The run of code with so many arguments.
fn coded(alloc: Global, args: u8, written: &[Tok]) -> Result<Run, Refusal>
    ensures { Gives (λ run. run) result (coded args written.now) }
{
    Ok(Run::Code(args, Body::parse(alloc, args, written)?))
}

/// The run of code with so many arguments: a style alone.
fn style_alone(alloc: Global, args: u8, list: &[Tok], also: u32, at: u32) -> Result<Run, Refusal>
    ensures { Gives (λ run. run) result (coded args (also_keys also at list.now)) }
{
    styled(alloc, args, &[], list, &[], also, at)
}

/// The run of code with so many arguments: a style, with other code before it and behind it.
fn styled(
    alloc: Global,
    args: u8,
    before: &[Tok],
    list: &[Tok],
    behind: &[Tok],
    also: u32,
    at: u32,
) -> Result<Run, Refusal>
    ensures { Gives (λ run. run) result (styled also at args before.now list.now behind.now) }
{
    let list = Body::parse(alloc, args, list)?;
    let list = list.as_slice();
    let mut toks = Vec::with_capacity(alloc, before.len() + list.len() + behind.len() + 3)?;
    toks.extend_from_slice(before)?;
    toks.push(Tok {
        kind: Kind::Word(also),
        at,
    })?;
    toks.push(Tok {
        kind: Kind::Open,
        at,
    })?;
    toks.extend_from_slice(list)?;
    toks.push(Tok {
        kind: Kind::Close,
        at,
    })?;
    toks.extend_from_slice(behind)?;
    Ok(Run::Code(args, Body::from_vec(toks)?))
}

/// A run with a style put before it or behind it.
fn restyled(
    alloc: Global,
    handler: Handler,
    old: Option<&Run>,
    list: &[Tok],
    also: u32,
    at: u32,
) -> Result<Run, Refusal>
    ensures { Gives (λ run. run) result
        (restyled also at handler (option_copied old.entry) list.now) }
{
    match old {
        None => style_alone(alloc, 1, list, also, at),
        Some(Run::Code(args, body)) => match handler {
            Handler::PrefixStyle => styled(alloc, *args, &[], list, body.as_slice(), also, at),
            _ => styled(alloc, *args, body.as_slice(), list, &[], also, at),
        },
        Some(_) => Err(unfit(at).into()),
    }
}

/// An entry of a key of which nothing was said: nothing runs, no value is stored, and a value may be there or not.
pub fn no_entry() -> Entry
    ensures { result ≡ no_entry }
{
    Entry {
        run: None,
        value: None,
        need: Need::Free,
    }
}

/// The same entry, or the one of which nothing was said.
fn copy_entry(old: Option<&Entry>) -> Result<Entry, AllocError>
    ensures { IfOk result (λ entry. entry ≡ unwrap_or (option_copied old.entry) no_entry) }
{
    match old {
        Some(entry) => entry.copy(),
        None => Ok(no_entry()),
    }
}
