//! Macros and keys in levels.

ghost use Rattle.std.specs.Prelude.{◌≡◌, ◌+◌, ◌<◌, ◌≤◌, nat_eq, if◌then◌else◌, [], ◌∷◌, ◌++◌};
ghost use Rattle.std.specs.Prelude.{length, reverse, IfOk, OnOk, OnErr};
ghost use Rattle.std.specs.Vec.{vec_len, vec_capacity};
ghost use Rattle.std.specs.Option.{option_copied};
ghost use Rattle.std.specs.FinMap as map;
ghost use Rattle.tk_store.specs.Levels.{new_levels, opened, SetsMacro, SetsKey};
ghost use Rattle.tk_store.specs.Undo.{before_all, made_since, made_until};

use crate::steps::Steps;
use crate::tables::{Saved, Tables};
use crate::{Entry, Macro};
use arrayvec::ArrayVec;
use std::alloc::{AllocError, Global};
use std::marker::Model;
use std::sync::ledger::Ledger;

/// The macros and the keys of all open levels, of which there are at most 128, and none at first. After
/// `\def\a{x}{\def\a{y}` the word `\a` stands for `y`, and once the `}` is read for `x` again.
#[derive(Drop)]
pub struct Store {
    /// What holds at the current level.
    tables: Tables,
    /// What the settings at open levels replaced, the oldest first.
    saved: Vec<Saved>,
    /// For each open level, how many settings there were when it was opened.
    marks: ArrayVec<usize, 128>,
}

impl Model for Store {
    ghost use Rattle.std.specs.Prelude.{reverse, length};
    ghost use Rattle.std.specs.Coded.{codes};
    ghost use Rattle.std.specs.FinMap as map;
    ghost use Rattle.tk_store.specs.Levels.{Levels};
    ghost use Rattle.tk_store.specs.Undo.{levels_of, AreMarks};

    ghost Value = { Levels };

    ghost coded = { Prim.hlevel (codes, map.code) };

    ghost view = { λ store. levels_of (reverse store.saved.items) (reverse store.marks.items) store.tables };

    ghost invariant = { λ store. AreMarks (length (reverse store.saved.items)) (reverse store.marks.items) };
}

impl Store {
    /// No macros and no keys.
    pub fn new(alloc: Global) -> Result<Store, AllocError>
        ensures { IfOk result (λ store. store ≡ new_levels) }
    {
        Ok(Store {
            tables: Tables::new(alloc),
            saved: Vec::new(alloc),
            marks: ArrayVec::new(),
        })
    }

    /// The macro of the word with that number, if it has one. This takes no memory.
    pub fn get_macro(&self, name: u32) -> Option<&Macro>
        ensures { option_copied result ≡ map.get self.now.top.macros name }
    {
        self.tables.get_macro(name)
    }

    /// The entry of the key with that full path, as `/tikz/scale`, if it has one. This takes no memory.
    pub fn get_key(&self, path: &str) -> Option<&Entry>
        ensures { option_copied result ≡ map.get self.now.top.keys path.now }
    {
        self.tables.get_key(path)
    }

    /// Gives the word with that number a macro, until the current level is closed. On want of memory all stays as it
    /// was.
    pub fn set_macro(&mut self, name: u32, value: Macro) -> Result<(), AllocError>
        ensures ok { OnOk result (SetsMacro self.old self.new name value) }
        ensures err { OnErr result (self.new ≡ self.old) }
    {
        self.saved.reserve(1)?;
        let replaced = self.tables.set_macro(name, value)?;
        keep_replaced(&mut self.saved, self.marks.len(), replaced);
        Ok(())
    }

    /// Gives the key with that full path an entry, until the current level is closed. On want of memory all stays as it
    /// was.
    pub fn set_key(&mut self, path: &str, entry: Entry) -> Result<(), AllocError>
        ensures ok { OnOk result (SetsKey self.old self.new path.now entry) }
        ensures err { OnErr result (self.new ≡ self.old) }
    {
        self.saved.reserve(1)?;
        let replaced = self.tables.set_key(path, entry)?;
        keep_replaced(&mut self.saved, self.marks.len(), replaced);
        Ok(())
    }

    /// Opens a level, at which all holds that held before. This takes no memory.
    pub fn open(&mut self)
        requires { length self.old.outer < 128 }
        ensures { self.new ≡ opened self.old }
    {
        self.marks.push(self.saved.len());
    }

    /// Closes the current level: what was set at it ends. This takes no memory, and looks only at what was set: a step
    /// is one setting that is undone.
    pub fn close<L: Ledger>(&mut self, steps: &mut Steps<L>)
        requires { 0 < length self.old.outer }
        ensures outer { self.old.outer ≡ self.new.top ∷ self.new.outer }
        ensures low { steps.old ≤ steps.new }
        ensures high { steps.new ≤ steps.old + self.old.top.settings }
    {
        if let Some(mark) = self.marks.pop() {
            undo(&mut self.tables, &mut self.saved, mark, steps);
        }
    }

    /// How many levels are open. This takes no memory.
    pub fn level(&self) -> usize
        ensures { result ≡ length self.now.outer }
    {
        self.marks.len()
    }
}

/// Keeps what a setting replaced, where any levels are open. There is room for it.
fn keep_replaced(saved: &mut Vec<Saved>, levels: usize, replaced: Saved)
    requires { vec_len saved.old < vec_capacity saved.old }
    ensures { saved.new.items
        ≡ (if nat_eq levels 0 then saved.old.items else saved.old.items ++ replaced ∷ []) }
{
    if levels > 0 {
        saved.push_reserved(replaced);
    } else {
        drop(replaced);
    }
}

/// Undoes settings, the newest first, until no more than so many are left.
fn undo<L: Ledger>(tables: &mut Tables, saved: &mut Vec<Saved>, mark: usize, steps: &mut Steps<L>)
    requires { mark ≤ length (reverse saved.old.items) }
    ensures tables { tables.new
        ≡ before_all (made_since mark (reverse saved.old.items)) tables.old }
    ensures saved { reverse saved.new.items ≡ made_until mark (reverse saved.old.items) }
    ensures cost { steps.new + mark ≡ steps.old + length (reverse saved.old.items) }
{
    while saved.len() > mark {
        if let Some(newest) = saved.pop() {
            tables.restore(newest, steps);
        }
    }
}
