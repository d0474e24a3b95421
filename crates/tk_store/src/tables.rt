//! What the words and the keys of the current level stand for, and what a setting there replaced.

ghost use Rattle.std.specs.Prelude.{◌≡◌, ◌+◌, ◌<◌, [], ◌∷◌, ◌++◌, slice_get, IfOk, OnOk, OnErr};
ghost use Rattle.std.specs.Map.{lookup};
ghost use Rattle.std.specs.Str.{bytes_eq};
ghost use Rattle.std.specs.Option.{option_copied};
ghost use Rattle.std.specs.FinMap as map;
ghost use Rattle.indexmap.specs.IndexMap.{set_value_at, index_map_len, values};
ghost use Rattle.tk_store.specs.Paths.{by_bytes};
ghost use Rattle.tk_store.specs.Undo.{no_tables, macros_in, keys_in, before};

use crate::steps::Steps;
use crate::{Entry, Macro};
use indexmap::IndexMap;
use std::alloc::{AllocError, Global};
use std::hash::Hash;
use std::marker::Model;
use std::mem;
use std::sync::ledger::Ledger;

/// What a setting replaced. With it the setting is undone, once all later ones are.
#[derive(Drop)]
pub(crate) enum Saved {
    /// The macro at that place had that value.
    Macro(usize, Macro),
    /// The last macro is new.
    NoMacro,
    /// The key at that place had that entry.
    Key(usize, Entry),
    /// The last key is new.
    NoKey,
}

/// The macros and the keys of the current level. Each keeps its place for as long as it is there.
#[derive(Drop)]
pub(crate) struct Tables {
    macros: IndexMap<u32, Macro>,
    keys: IndexMap<String, Entry>,
}

impl Model for Tables {
    ghost use Rattle.tk_store.specs.Paths.{by_bytes};
    ghost use Rattle.tk_store.specs.Undo as undo;

    ghost Value = { undo.Tables };

    ghost view = { λ tables. record { macros = tables.macros.entries; keys = by_bytes tables.keys.entries } };
}

impl Tables {
    pub(crate) fn new(alloc: Global) -> Tables
        ensures { result ≡ no_tables }
    {
        Tables {
            macros: IndexMap::new(alloc),
            keys: IndexMap::new(alloc),
        }
    }

    pub(crate) fn get_macro(&self, name: u32) -> Option<&Macro>
        ensures { option_copied result ≡ map.get (macros_in self.now) name }
    {
        self.macros.get(&name)
    }

    pub(crate) fn get_key(&self, path: &str) -> Option<&Entry>
        ensures { option_copied result ≡ map.get (keys_in self.now) path.now }
    {
        self.keys.get(path)
    }

    /// Gives a word a macro. On want of memory all stays as it was.
    pub(crate) fn set_macro(&mut self, name: u32, value: Macro) -> Result<Saved, AllocError>
        ensures macros { OnOk result
            (macros_in self.new ≡ map.insert (macros_in self.old) name value) }
        ensures keys { OnOk result (keys_in self.new ≡ keys_in self.old) }
        ensures undo { IfOk result (λ saved. before saved self.new ≡ self.old) }
        ensures err { OnErr result (self.new ≡ self.old) }
    {
        let (place, old) = self.macros.insert_full(name, value)?;
        Ok(match old {
            Some(old) => Saved::Macro(place, old),
            None => Saved::NoMacro,
        })
    }

    /// Gives a key an entry. On want of memory all stays as it was. A key that is there takes no memory.
    pub(crate) fn set_key(&mut self, path: &str, entry: Entry) -> Result<Saved, AllocError>
        ensures keys { OnOk result
            (keys_in self.new ≡ map.insert (keys_in self.old) path.now entry) }
        ensures macros { OnOk result (macros_in self.new ≡ macros_in self.old) }
        ensures undo { IfOk result (λ saved. before saved self.new ≡ self.old) }
        ensures err { OnErr result (self.new ≡ self.old) }
    {
        match self.keys.get_index_of(path) {
            Some(place) => Ok(Saved::Key(place, replace_entry(&mut self.keys, place, entry))),
            None => add_key(&mut self.keys, path, entry),
        }
    }

    /// Undoes a setting, which is a step.
    pub(crate) fn restore<L: Ledger>(&mut self, saved: Saved, steps: &mut Steps<L>)
        ensures tables { self.new ≡ before saved self.old }
        ensures cost { steps.new ≡ steps.old + 1 }
    {
        steps.tick();
        match saved {
            Saved::Macro(place, old) => write(&mut self.macros, place, old),
            Saved::NoMacro => drop(self.macros.pop()),
            Saved::Key(place, old) => write(&mut self.keys, place, old),
            Saved::NoKey => drop(self.keys.pop()),
        }
    }
}

/// Gives the key at a place another entry, and takes the one that it had.
fn replace_entry(keys: &mut IndexMap<String, Entry>, place: usize, entry: Entry) -> Entry
    requires { place < index_map_len keys.old }
    ensures entries { keys.new.entries ≡ set_value_at keys.old.entries place entry }
    ensures had { slice_get (values keys.old) place ≡ Some result }
{
    mem::replace(&mut keys[place], entry)
}

/// Adds a key that isn't there, so that nothing is replaced. On want of memory all stays as it was.
fn add_key(
    keys: &mut IndexMap<String, Entry>,
    path: &str,
    entry: Entry,
) -> Result<Saved, AllocError>
    requires { lookup (bytes_eq path.now) (by_bytes keys.old.entries) ≡ None }
    ensures keys { OnOk result (by_bytes keys.new.entries
        ≡ by_bytes keys.old.entries ++ (path.now, entry) ∷ []) }
    ensures saved { IfOk result (λ saved. saved ≡ Saved.NoKey) }
    ensures err { OnErr result (keys.new.entries ≡ keys.old.entries) }
{
    let path = String::from_str(*keys.allocator(), path)?;
    drop(keys.insert(path, entry)?);
    Ok(Saved::NoKey)
}

/// Gives the entry at a place another value.
fn write<K: Eq + Hash, V: Drop>(table: &mut IndexMap<K, V>, place: usize, value: V)
    ensures { table.new.entries ≡ set_value_at table.old.entries place value }
{
    if let Some(there) = table.get_index_mut(place) {
        *there = value;
    }
}
