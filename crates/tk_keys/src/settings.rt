//! Settings that run nothing.

ghost use Rattle.std.specs.Prelude.{◌≡◌, ◌+◌, ◌-◌, ◌≤◌, ◌<◌, length, string_bytes, IfOk, OnOk, Ok, Some, option_map};
ghost use Rattle.std.specs.Prelude.{ℤ, List, ℕ};
ghost use Rattle.std.specs.Prelude.{option_copied, unwrap_or};
ghost use Rattle.std.specs.FinMap as map;
ghost use Rattle.tk_num.specs.Text.{pointed_text};
ghost use Rattle.tk_token.specs.declared.Code.TheVariants.{UnknownKey};
ghost use Rattle.tk_token.specs.Answers.{or_fault};
ghost use Rattle.tk_token.specs.Refusals.{Gives};
ghost use Rattle.tk_expand.specs.Reading.{read};
ghost use Rattle.tk_expr.specs.Evaluated.{evaluated};
ghost use Rattle.tk_keytext.specs.Entries as entries;
ghost use Rattle.tk_keys.specs.Keys as keys;
ghost use Rattle.tk_keys.specs.Settings as settings;
ghost use Rattle.tk_keys.specs.Settings.{whole_text};
ghost use Rattle.tk_keys.specs.State.{given_of, env_of, situation_of, behind_set, Keeps, Makes, Pays};
ghost use Rattle.tk_keys.specs.Views.{key_of, number_set, value_behind, given_by, situation_by};

use crate::keys::path_from;
use crate::{Dir, State};
use std::alloc::{AllocError, Global};
use tk_define::{DefinitionWord, read_definition};
use tk_expand::{Input, Units, expand_all};
use tk_expr::{FontUnits, eval};
use tk_keytext::no_entry;
use tk_num::{Scaled, print, print_tex};
use tk_store::{Body, Entry, Store};
use tk_token::{Code, Refusal, Tok, one_word};

/// An argument that is one control word.
fn word_argument(at: u32, input: &mut Input) -> Result<u32, Refusal>
    ensures gives { Gives (λ word. read word input.new) result
        (settings.word_argument at input.old) }
    ensures end { OnOk result (input.new.end ≡ input.old.end) }
    ensures shorter { OnOk result (length input.new.rest ≤ length input.old.rest) }
{
    let text = input.argument(at)?;
    match one_word(&text) {
        Some(word) => Ok(word),
        None => Err(Refusal::new(Code::MacroSyntax, at)),
    }
}

impl State {
    /// Makes a definition, whose command was taken.
    pub(crate) fn define(&mut self, kind: DefinitionWord, input: &mut Input) -> Result<(), Refusal>
        ensures gives { Gives (λ _. behind_set self.new input.new) result
            (settings.define (given_of evaluated self.old) kind (situation_of self.old) input.old) }
        ensures kept { OnOk result (Keeps self.old self.new) }
        ensures made { OnOk result (Makes 1 self.old self.new) }
        ensures used { OnOk result (self.old.units ≤ self.new.units) }
        ensures end { OnOk result (input.new.end ≡ input.old.end) }
        ensures work { OnOk result ((self.new.budget - self.new.units) + length input.new.rest
            ≤ (self.old.budget - self.old.units) + length input.old.rest) }
    {
        let definition = read_definition(self.alloc, kind, input, &self.store, &mut self.units)?;
        self.store.set_macro(definition.word, definition.value)?;
        Ok(())
    }

    /// An argument that is the name of a key, as its full path.
    fn key_argument(&mut self, at: u32, dir: &Dir, input: &mut Input) -> Result<String, Refusal>
        ensures gives { Gives (λ path. key_of (string_bytes path) self.new input.new) result
            (settings.key_argument (given_of evaluated self.old) at dir.now
            (situation_of self.old) input.old) }
        ensures pays { Pays self.old self.new }
        ensures used { OnOk result (self.old.units ≤ self.new.units) }
        ensures end { OnOk result (input.new.end ≡ input.old.end) }
        ensures work { OnOk result ((self.new.budget - self.new.units) + length input.new.rest
            ≤ (self.old.budget - self.old.units) + length input.old.rest) }
    {
        let text = input.argument(at)?;
        let name = self.expanded_name(Code::UnknownKey, at, &text)?;
        Ok(path_from(dir, name)?)
    }

    /// `\pgfkeyssetvalue`: a value is stored.
    pub(crate) fn set_value(&mut self, at: u32, dir: &Dir, input: &mut Input) -> Result<(), Refusal>
        ensures gives { Gives (λ _. behind_set self.new input.new) result
            (settings.set_value (given_of evaluated self.old) at dir.now
            (situation_of self.old) input.old) }
        ensures kept { OnOk result (Keeps self.old self.new) }
        ensures made { OnOk result (Makes 1 self.old self.new) }
        ensures used { OnOk result (self.old.units ≤ self.new.units) }
        ensures end { OnOk result (input.new.end ≡ input.old.end) }
        ensures work { OnOk result ((self.new.budget - self.new.units) + length input.new.rest
            ≤ (self.old.budget - self.old.units) + length input.old.rest) }
    {
        let path = self.key_argument(at, dir, input)?;
        let text = input.argument(at)?;
        self.store_text(&path, text)?;
        Ok(())
    }

    /// A text is the stored value of a key from there on.
    fn store_text(&mut self, path: &str, text: Vec<Tok>) -> Result<(), AllocError>
        ensures set { OnOk result (situation_of self.new
            ≡ settings.with_value (situation_of self.old) path.now text.items) }
        ensures kept { OnOk result (Keeps self.old self.new) }
        ensures made { OnOk result (Makes 1 self.old self.new) }
        ensures used { OnOk result (self.old.units ≤ self.new.units) }
    {
        let entry = self.with_value(path, Body::from_vec(text)?)?;
        self.set_entry(path, entry)
    }

    /// The entry at a path, with that value.
    fn with_value(&self, path: &str, value: Body) -> Result<Entry, AllocError>
        ensures { IfOk result (λ entry. entry
            ≡ record (unwrap_or
            (map.get (env_of self.now).keys path.now) entries.no_entry) { value = Some value }) }
    {
        let old = match self.store.get_key(path) {
            Some(old) => old.copy()?,
            None => no_entry(),
        };
        Ok(Entry {
            value: Some(value),
            ..old
        })
    }

    /// `\pgfkeysgetvalue`: a word stands for the value that is stored.
    pub(crate) fn get_value(&mut self, at: u32, dir: &Dir, input: &mut Input) -> Result<(), Refusal>
        ensures gives { Gives (λ _. behind_set self.new input.new) result
            (settings.get_value (given_of evaluated self.old) at dir.now
            (situation_of self.old) input.old) }
        ensures kept { OnOk result (Keeps self.old self.new) }
        ensures made { OnOk result (Makes 1 self.old self.new) }
        ensures used { OnOk result (self.old.units ≤ self.new.units) }
        ensures end { OnOk result (input.new.end ≡ input.old.end) }
        ensures work { OnOk result ((self.new.budget - self.new.units) + length input.new.rest
            ≤ (self.old.budget - self.old.units) + length input.old.rest) }
    {
        let path = self.key_argument(at, dir, input)?;
        let value = self.stored_at(at, &path)?;
        let word = word_argument(at, input)?;
        self.set_text(word, value)?;
        Ok(())
    }

    /// The value that is stored at a path.
    fn stored_at(&self, at: u32, path: &str) -> Result<Body, Refusal>
        ensures { Gives (λ value. value) result
            (or_fault (settings.stored_at (env_of self.now) path.now) UnknownKey at) }
    {
        match self.store.get_key(path) {
            Some(
                Entry {
                    value: Some(value),
                    ..
                },
            ) => Ok(value.copy()?),
            _ => Err(Refusal::new(Code::UnknownKey, at)),
        }
    }

    /// The value of an expression, once it is expanded.
    fn expression_value(&mut self, at: u32, text: Vec<Tok>) -> Result<Scaled, Refusal>
        ensures gives { Gives (λ number. value_behind number self.new.units) result
            (settings.expression_value (given_of evaluated self.old) at text.items
            (situation_of self.old)) }
        ensures pays { Pays self.old self.new }
        ensures used { OnOk result (self.old.units ≤ self.new.units) }
    {
        value_of_text(
            self.alloc,
            at,
            text,
            self.font,
            &self.store,
            &mut self.units,
        )
    }

    /// The two arguments of a setting that gives a word a number: the word, and the value of an expression.
    fn word_and_number(&mut self, at: u32, input: &mut Input) -> Result<(u32, Scaled), Refusal>
        ensures gives { (written : ℤ → List ℕ) → Gives
            (λ found. number_set written at found.0 found.1
            (situation_of self.new) input.new) result
            (settings.set_number (given_of evaluated self.old) written at
            (situation_of self.old) input.old) }
        ensures pays { Pays self.old self.new }
        ensures used { OnOk result (self.old.units ≤ self.new.units) }
        ensures end { OnOk result (input.new.end ≡ input.old.end) }
        ensures work { OnOk result ((self.new.budget - self.new.units) + length input.new.rest
            ≤ (self.old.budget - self.old.units) + length input.old.rest) }
    {
        let word = word_argument(at, input)?;
        let text = input.argument(at)?;
        let number = self.expression_value(at, text)?;
        Ok((word, number))
    }

    /// `\pgfmathsetmacro`: a word stands for the text of an expression's value, as TeX prints it.
    pub(crate) fn set_number(&mut self, at: u32, input: &mut Input) -> Result<(), Refusal>
        ensures gives { Gives (λ _. behind_set self.new input.new) result
            (settings.set_number (given_of evaluated self.old) pointed_text at
            (situation_of self.old) input.old) }
        ensures kept { OnOk result (Keeps self.old self.new) }
        ensures made { OnOk result (Makes 1 self.old self.new) }
        ensures used { OnOk result (self.old.units ≤ self.new.units) }
        ensures end { OnOk result (input.new.end ≡ input.old.end) }
        ensures work { OnOk result ((self.new.budget - self.new.units) + length input.new.rest
            ≤ (self.old.budget - self.old.units) + length input.old.rest) }
    {
        let (word, number) = self.word_and_number(at, input)?;
        self.set_written(at, word, &print_tex(number.sp()))?;
        Ok(())
    }

    /// `\pgfmathtruncatemacro`: a word stands for the text of the whole part of an expression's value.
    pub(crate) fn set_whole(&mut self, at: u32, input: &mut Input) -> Result<(), Refusal>
        ensures gives { Gives (λ _. behind_set self.new input.new) result
            (settings.set_number (given_of evaluated self.old) whole_text at
            (situation_of self.old) input.old) }
        ensures kept { OnOk result (Keeps self.old self.new) }
        ensures made { OnOk result (Makes 1 self.old self.new) }
        ensures used { OnOk result (self.old.units ≤ self.new.units) }
        ensures end { OnOk result (input.new.end ≡ input.old.end) }
        ensures work { OnOk result ((self.new.budget - self.new.units) + length input.new.rest
            ≤ (self.old.budget - self.old.units) + length input.old.rest) }
    {
        let (word, number) = self.word_and_number(at, input)?;
        self.set_written(at, word, &print(number.sp() / 65_536 * 65_536))?;
        Ok(())
    }
}

/// The value of an expression, once it is expanded.
fn value_of_text(
    alloc: Global,
    at: u32,
    text: Vec<Tok>,
    font: FontUnits,
    store: &Store,
    units: &mut Units,
) -> Result<Scaled, Refusal>
    ensures gives { Gives (λ number. value_behind number units.new.used) result
        (settings.expression_value (given_by font units.old.budget) at text.items
        (situation_by font store.now.top.macros units.old.used)) }
    ensures budget { units.new.budget ≡ units.old.budget }
    ensures used { OnOk result (units.old.used ≤ units.new.used) }
{
    let list = expand_all(alloc, text, store, units)?;
    let found = eval(&list, font, at)?;
    Ok(found.number)
}
