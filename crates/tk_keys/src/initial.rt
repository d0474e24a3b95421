//! The keys and styles that are there from the beginning.

ghost use Rattle.std.specs.Prelude.{◌≡◌, ◌∷◌, map, IfOk, OnOk, string_bytes};
ghost use Rattle.tk_store.specs.Levels.{SetsKey};
ghost use Rattle.tk_store.specs.declared.Run.TheVariants as runs;
ghost use Rattle.tk_keytext.specs.Entries.{also_keys};
ghost use Rattle.tk_token.specs.Texts as texts;
ghost use Rattle.tk_keys.specs.Environment as environment;
ghost use Rattle.tk_keys.specs.Made.{IsFirstStore, HasEntries};

use std::alloc::{AllocError, Global};
use tk_keytext::full_path;
use tk_native::{NATIVES, Native, STYLES};
use tk_store::{Body, Entry, Need, Run, Store};
use tk_token::{Kind, Tok, tokens_of};

/// A store in which no level is open, no word has a macro, and the keys are those that are there from the beginning;
/// `also` is the number of the word `pgfkeysalso`.
pub(crate) fn first_store(alloc: Global, also: u32) -> Result<Store, AllocError>
    ensures { IfOk result (λ store. IsFirstStore also store) }
{
    let mut store = Store::new(alloc)?;
    set_initial(alloc, &mut store, also)?;
    Ok(store)
}

/// Sets the keys and styles that are there from the beginning.
fn set_initial(alloc: Global, store: &mut Store, also: u32) -> Result<(), AllocError>
    ensures { OnOk result (HasEntries store.old store.new (environment.initial_entries also)) }
{
    set_natives(alloc, store, &NATIVES)?;
    set_styles(alloc, store, also, &STYLES)
}

/// Sets the keys of a table.
fn set_natives(
    alloc: Global,
    store: &mut Store,
    natives: &[(&str, Native)],
) -> Result<(), AllocError>
    ensures { OnOk result (HasEntries store.old store.new
        (map (λ row.
        (environment.tikz_path row.0.now, environment.running (runs.Native row.1))) natives.now)) }
{
    for (name, key) in natives {
        set_below(alloc, store, name, Run::Native(*key))?;
    }
    Ok(())
}

/// Sets the styles of a table.
fn set_styles(
    alloc: Global,
    store: &mut Store,
    also: u32,
    styles: &[(&str, &str)],
) -> Result<(), AllocError>
    ensures { OnOk result (HasEntries store.old store.new
        (map (λ row. (
          environment.tikz_path row.0.now,
          environment.running
              (environment.style_for also row.1.now),
        ))
        styles.now)) }
{
    for (name, list) in styles {
        set_below(alloc, store, name, style_for(alloc, also, list)?)?;
    }
    Ok(())
}

/// Sets a key below /tikz that only runs.
fn set_below(alloc: Global, store: &mut Store, name: &str, run: Run) -> Result<(), AllocError>
    ensures { OnOk result
        (SetsKey store.old store.new (environment.tikz_path name.now) (environment.running run)) }
{
    let path = full_path(alloc, "/tikz", name)?;
    let entry = Entry {
        run: Some(run),
        value: None,
        need: Need::Free,
    };
    store.set_key(&path, entry)
}

/// The run of a style that stands for a key list, whose tokens stand at place 0.
fn style_for(alloc: Global, also: u32, list: &str) -> Result<Run, AllocError>
    ensures { IfOk result (λ run. run ≡ environment.style_for also list.now) }
{
    let list = tokens_of(alloc, 0, list)?;
    let mut toks = Vec::with_capacity(alloc, list.len() + 3)?;
    toks.push(Tok {
        kind: Kind::Word(also),
        at: 0,
    })?;
    toks.push(Tok {
        kind: Kind::Open,
        at: 0,
    })?;
    toks.extend_from_slice(&list)?;
    toks.push(Tok {
        kind: Kind::Close,
        at: 0,
    })?;
    Ok(Run::Code(1, Body::from_vec(toks)?))
}
