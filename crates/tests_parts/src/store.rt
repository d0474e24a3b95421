//! What no clause says: that the calls succeed with ample memory, and some values worked out by hand.

ghost use Rattle.std.specs.Prelude.{◌≡◌, ◌<◌, length};

use std::alloc::{AllocError, Global};
use std::marker::Brand;
use std::mem;
use std::sync::ledger::{Blank, Ledger};
use std::test::Fail;
use tk_store::{Body, Entry, Macro, Need, Run, Steps, Store};
use tk_token::Refusal;

/// A call of a store. A macro is told by its number of arguments, an entry by the number that it runs.
#[derive(Clone, Copy)]
enum Call {
    Open,
    Close,
    Set(u32, u8),
    /// The word has that macro.
    Has(u32, u8),
    HasNone(u32),
    SetKey(&'static str, u32),
    /// The key has that entry.
    HasKey(&'static str, Option<u32>),
}

const LAST: u32 = 4_294_967_295;

const CALLS: [Call; 46] = [
    Call::HasNone(0),
    Call::Set(0, 0),
    Call::Set(LAST, 9),
    Call::Has(0, 0),
    Call::Open,
    // What is set further out holds, until it is set anew.
    Call::Has(0, 0),
    Call::Set(0, 1),
    Call::Has(0, 1),
    Call::Open,
    Call::Set(1, 2),
    Call::Set(1, 3),
    Call::Set(2, 4),
    Call::Set(1, 5),
    Call::Has(0, 1),
    Call::Has(1, 5),
    Call::Close,
    Call::HasNone(1),
    Call::HasNone(2),
    Call::Has(0, 1),
    // A level at which nothing is set.
    Call::Open,
    Call::Open,
    Call::Close,
    Call::Close,
    Call::Has(0, 1),
    Call::Has(LAST, 9),
    Call::Set(2, 6),
    Call::Open,
    Call::Set(3, 7),
    Call::Set(2, 8),
    Call::Set(0, 2),
    Call::Set(LAST, 8),
    Call::Open,
    Call::Set(0, 3),
    Call::Set(0, 4),
    Call::Close,
    Call::Has(0, 2),
    Call::Close,
    Call::HasNone(3),
    Call::Has(2, 6),
    Call::Has(0, 1),
    Call::Has(LAST, 9),
    Call::Close,
    Call::Has(0, 0),
    Call::HasNone(2),
    Call::Set(0, 5),
    Call::Has(0, 5),
];

const KEY_CALLS: [Call; 34] = [
    Call::HasKey("", None),
    Call::SetKey("", 9),
    Call::SetKey("/tikz/scale", 1),
    Call::HasKey("/tikz/scale", Some(1)),
    Call::HasKey("/tikz/scal", None),
    Call::HasKey("/tikz/scale/", None),
    // Three settings on two paths.
    Call::Open,
    Call::HasKey("/tikz/scale", Some(1)),
    Call::SetKey("/tikz/scale", 2),
    Call::SetKey("/tikz/café", 3),
    Call::SetKey("/tikz/scale", 4),
    Call::HasKey("/tikz/scale", Some(4)),
    Call::HasKey("/tikz/café", Some(3)),
    Call::Close,
    Call::HasKey("/tikz/scale", Some(1)),
    Call::HasKey("/tikz/café", None),
    Call::HasKey("", Some(9)),
    // Keys and words at one level.
    Call::Open,
    Call::SetKey("/b", 5),
    Call::Set(1, 5),
    Call::SetKey("/c", 6),
    Call::Open,
    Call::SetKey("/b", 7),
    Call::Set(1, 7),
    Call::Set(2, 8),
    Call::SetKey("/d", 8),
    Call::HasKey("/b", Some(7)),
    Call::Close,
    Call::HasKey("/b", Some(5)),
    Call::Has(1, 5),
    Call::HasKey("/d", None),
    Call::Close,
    Call::HasKey("/b", None),
    Call::HasKey("/tikz/scale", Some(1)),
];

fn value(alloc: Global, args: u8) -> Result<Macro, Refusal> {
    Ok(Macro {
        args,
        body: Body::new(alloc, &[])?,
    })
}

fn entry(number: u32) -> Entry {
    Entry {
        run: Some(Run::StoreIn(number)),
        value: None,
        need: Need::Free,
    }
}

/// The number of the word in which the key at a path stores.
fn number_at(store: &Store, path: &str) -> Option<u32> {
    match &store.get_key(path)?.run {
        Some(Run::StoreIn(number)) => Some(*number),
        _ => None,
    }
}

/// The number of arguments of a word's macro.
fn args_of(store: &Store, word: u32) -> Option<u8> {
    Some(store.get_macro(word)?.args)
}

/// Closes the current level, and counts what is undone in a ledger of its own.
fn close_counting<L: Ledger>(store: &mut Store, blank: Blank)
    requires level { 0 < length store.old.outer }
    requires name { blank.name ≡ L.name }
    requires parts { blank.parts ≡ L.parts }
    requires some { 0 < L.parts }
{
    store.close::<L>(&mut Steps::new(blank));
}

/// Makes a call: whether it may be made, and what it asks for is so.
fn make(alloc: Global, store: &mut Store, call: Call) -> Result<bool, Refusal> {
    match call {
        Call::Open if store.level() < 128 => store.open(),
        Call::Close if store.level() > 0 => close_counting::<Brand>(store, Blank::new(1)),
        Call::Open | Call::Close => return Ok(false),
        Call::Set(word, args) => store.set_macro(word, value(alloc, args)?)?,
        Call::SetKey(path, number) => store.set_key(path, entry(number))?,
        Call::Has(word, args) => return Ok(args_of(store, word) == Some(args)),
        Call::HasNone(word) => return Ok(args_of(store, word) == None),
        Call::HasKey(path, number) => return Ok(number_at(store, path) == number),
    }
    Ok(true)
}

/// Makes calls up to the first that fails: how many are made.
fn made(alloc: Global, store: &mut Store, calls: &[Call]) -> Result<usize, Refusal> {
    for (number, call) in calls.iter().enumerate() {
        if !make(alloc, store, *call)? {
            return Ok(number);
        }
    }
    Ok(calls.len())
}

/// How many calls by words are made, and then by keys, up to the first of each that fails.
fn calls_made(alloc: Global, store: &mut Store) -> Result<(usize, usize), Refusal> {
    let words = made(alloc, store, &CALLS)?;
    let keys = made(alloc, store, &KEY_CALLS)?;
    Ok((words, keys))
}

#[test]
fn settings_end_with_their_levels(rt: HostRuntime) -> Result<(), Fail> {
    let mut store = Store::new(rt.alloc())?;
    let counts = calls_made(rt.alloc(), &mut store);
    let level = store.level();
    mem::drop(store);
    let (words, keys) = counts?;
    assert!(rt; words == CALLS.len(), "call {words}");
    assert!(rt; keys == KEY_CALLS.len(), "call {keys} of keys");
    assert!(rt; level == 0);
    Ok(())
}

/// Sets 20,000 words and keys.
fn widen(alloc: Global, store: &mut Store) -> Result<(), Refusal> {
    for number in 0..20_000 {
        let path = format!(in alloc; "/{number}")?;
        store.set_key(path.as_str(), entry(number))?;
        store.set_macro(number, value(alloc, 1)?)?;
    }
    Ok(())
}

/// How many of these words and keys are as they were set.
fn kept(alloc: Global, store: &Store) -> Result<u32, AllocError> {
    let mut count: u32 = 0;
    for number in 0..20_000 {
        let path = format!(in alloc; "/{number}")?;
        let found = number_at(store, path.as_str());
        if found == Some(number) && args_of(store, number) == Some(1) {
            count = count.saturating_add(1);
        }
    }
    Ok(count)
}

/// Opens and closes 200,000 levels with a word and a key.
fn pass_levels(alloc: Global, store: &mut Store) -> Result<(), Refusal> {
    let calls = [
        Call::Open,
        Call::Set(0, 2),
        Call::SetKey("/0", 1),
        Call::Close,
    ];
    for _ in 0..200_000 {
        made(alloc, store, &calls)?;
    }
    Ok(())
}

/// How many of 20,000 words and keys are as they were set before 200,000 levels.
fn kept_over_levels(alloc: Global, store: &mut Store) -> Result<u32, Refusal> {
    widen(alloc, store)?;
    pass_levels(alloc, store)?;
    Ok(kept(alloc, store)?)
}

#[test]
fn a_level_costs_what_is_set_there(rt: HostRuntime) -> Result<(), Fail> {
    let mut store = Store::new(rt.alloc())?;
    let count = kept_over_levels(rt.alloc(), &mut store);
    let level = store.level();
    mem::drop(store);
    assert!(rt; count? == 20_000 && level == 0);
    Ok(())
}
