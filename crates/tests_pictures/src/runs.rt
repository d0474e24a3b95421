//! Settings and levels of a run that isn't a picture's.

ghost use Rattle.std.specs.Prelude.{◌≡◌, ◌<◌};

use std::alloc::Global;
use std::marker::Brand;
use std::sync::ledger::{Blank, Ledger};
use std::test::Fail;
use tk_expand::Input;
use tk_expr::FontUnits;
use tk_keys::{Dir, State};
use tk_num::Scaled;
use tk_store::{Body, Macro, Steps};
use tk_token::{Code, Fault, Kind, Lexed, Refusal, Tok, lex};

/// The state before a run over a text, and the text as it is read.
fn before(alloc: Global, text: &str, budget: u64) -> Result<(State, Input), Fail> {
    let font = FontUnits {
        em: Scaled::within(655_360),
        ex: Scaled::within(281_805),
    };
    let bytes = text.as_bytes();
    if bytes.len() > 1_000 || budget > 1_000 {
        return Err("too much".into());
    }
    let Ok(Lexed { toks, names }) = lex(alloc, bytes) else {
        return Err("no tokens".into());
    };
    let input = Input::new(alloc, Body::from_vec(toks)?, 777)?;
    let state = State::new(alloc, names, font, budget)?;
    Ok((state, input))
}

/// Takes a group and gives its contents.
fn contents(input: &mut Input) -> Result<Vec<Tok>, Refusal> {
    input.expect_open(Code::Unbuilt)?;
    input.group()?.ok_or(Refusal::OutOfMemory)
}

/// Runs the key list that stands next: whether it ends with that default path and makes that key.
fn sets_key<L: Ledger>(
    state: &mut State,
    input: &mut Input,
    steps: &mut Steps<L>,
) -> Result<bool, Refusal> {
    let list = contents(input)?;
    let last = state.run_list(Dir::root(), &list, 0, steps)?;
    Ok(last.as_str() == "/d" && state.store().get_key("/b/c").is_some())
}

/// Runs the settings that stand next, as `sets_key`.
fn sets_below<L: Ledger>(
    alloc: Global,
    state: &mut State,
    input: &mut Input,
    steps: &mut Steps<L>,
) -> Result<bool, Refusal> {
    let list = contents(input)?;
    let last = state.run_settings(Dir::new(alloc, "/p")?, &list, 0, steps)?;
    Ok(last.as_str() == "/p" && state.store().get_key("/p/y").is_some())
}

/// A macro lasts to the end of its level.
fn sets_macro<L: Ledger>(
    alloc: Global,
    state: &mut State,
    steps: &mut Steps<L>,
) -> Result<bool, Refusal> {
    state.open(7)?;
    let value = Macro {
        args: 0,
        body: Body::new(alloc, &[])?,
    };
    state.set_macro(99, value)?;
    let is_set = state.store().get_macro(99).is_some();
    state.close(steps);
    Ok(is_set && state.store().get_macro(99).is_none())
}

/// Opens as many levels as there can be, and one more.
fn opens(state: &mut State) -> Result<bool, Refusal> {
    for _ in 0..128 {
        state.open(7)?;
    }
    let code = Code::Levels;
    Ok(state.open(8).err() == Some(Fault { code, at: 8 }))
}

/// Whether what stands next is that character.
fn begins(state: &mut State, input: &mut Input, character: char) -> Result<bool, Refusal> {
    let first = state.next_solid(input)?;
    Ok(first.map(|tok| tok.kind) == Some(Kind::Char(character)))
}

/// Whether calls came to what they should, with no refusal.
fn met(found: Result<bool, Refusal>) -> bool {
    matches!(found, Ok(true))
}

/// How many of the calls come to what they should, one after another.
fn calls_met<L: Ledger>(alloc: Global, state: &mut State, input: &mut Input, blank: Blank) -> u32
    requires name { blank.name ≡ L.name }
    requires parts { blank.parts ≡ L.parts }
    requires some { 0 < L.parts }
{
    let mut steps = Steps::<L>::new(blank);
    if !met(sets_key(state, input, &mut steps)) {
        return 0;
    }
    if !met(sets_below(alloc, state, input, &mut steps)) {
        return 1;
    }
    if !met(begins(state, input, '7')) {
        return 2;
    }
    if !met(sets_macro(alloc, state, &mut steps)) {
        return 3;
    }
    if met(opens(state)) { 5 } else { 4 }
}

#[test]
fn key_lists_have_their_paths(rt: HostRuntime) -> Result<(), Fail> {
    let text =
        r"{/a/.store in=\m,/b/.cd,c/.code={\pgfkeysalso{/d/.cd}},c,/a=5}{{\pgfkeysalso{x/.cd}}\pgfkeysalso{y/.code={\def\m{#1}},y=7}}\m";
    let (mut state, mut input) = before(rt.alloc(), text, 100)?;
    let count = calls_met::<Brand>(rt.alloc(), &mut state, &mut input, Blank::new(1));
    assert!(rt; count == 5, "call {count}");
    Ok(())
}
