//! What keys do with values.

ghost use Rattle.std.specs.Prelude.{◌≡◌, ◌+◌, ◌-◌, ◌≤◌, ◌<◌, ◌++◌, ◌∷◌, length, string_bytes, IfOk, IfSome, OnOk};
ghost use Rattle.std.specs.Prelude.{IfNone, Ok, Some, None, option_map, option_copied, unwrap_or, []};
ghost use Rattle.tk_token.specs.Refusals.{Gives};
ghost use Rattle.tk_token.specs.Texts as texts;
ghost use Rattle.tk_store.specs.declared.Need.TheVariants.{Free};
ghost use Rattle.tk_store.specs.declared.Run.TheVariants as runs;
ghost use Rattle.tk_expand.specs.Expand.{Stream, full, stream};
ghost use Rattle.tk_expand.specs.Texts.{texts_of};
ghost use Rattle.tk_expand.specs.Unread.{unread};
ghost use Rattle.tk_expr.specs.Evaluated.{evaluated};
ghost use Rattle.tk_look.specs.Graphics.{graphics_by};
ghost use Rattle.tk_keys.specs.Environment as environment;
ghost use Rattle.tk_keys.specs.Keys as keys;
ghost use Rattle.tk_keys.specs.State.{given_of, env_of, situation_of, Keeps, Makes, Pays};
ghost use Rattle.tk_keys.specs.Views.{deed_of, used_of, name_read, expanded_text, paid_by, stored_by};

use crate::State;
use std::alloc::{AllocError, Global};
use std::mem;
use tk_expand::{Input, Units, expand_all, is_expanded, paid_text};
use tk_expr::FontUnits;
use tk_keytext::{name_in, path_below};
use tk_look::GraphicsState;
use tk_native::Native;
use tk_store::{Body, Entry, Macro, Need, Run, Store};
use tk_token::{Code, Refusal, Tok, text_into, tokens_of};

/// What a key leaves to be run: the text of its code, if it has code.
#[derive(Drop)]
pub(crate) struct Deed {
    pub(crate) text: Option<Body>,
}

/// Nothing is to be run.
pub(crate) fn done() -> Deed
    ensures { result.text ≡ None }
{
    Deed { text: None }
}

impl State {
    /// A name: it is expanded, and then of characters and Spaces alone. It takes the memory of an earlier one where
    /// there is some, which `keep` gives back.
    pub(crate) fn expanded_name(
        &mut self,
        code: Code,
        at: u32,
        list: &[Tok],
    ) -> Result<String, Refusal>
        ensures gives { Gives (λ name. name_read (string_bytes name) self.new) result
            (keys.expanded_name (given_of evaluated self.old) code at list.now
            (situation_of self.old)) }
        ensures pays { Pays self.old self.new }
        ensures used { OnOk result (self.old.units ≤ self.new.units) }
    {
        let memory = mem::replace(&mut self.spare, String::new(self.alloc));
        match expanded_text(memory, at, list, &self.store, &mut self.units)? {
            Some(name) => Ok(name),
            None => Err(Refusal::new(code, at)),
        }
    }

    /// The memory of a name that is done with serves the next one.
    pub(crate) fn keep(&mut self, name: String)
        ensures { self.new ≡ self.old }
    {
        self.spare = name;
    }

    /// A word stands for a text from there on.
    pub(crate) fn set_text(&mut self, word: u32, text: Body) -> Result<(), AllocError>
        ensures set { OnOk result
            (situation_of self.new ≡ environment.with_text (situation_of self.old) word text) }
        ensures kept { OnOk result (Keeps self.old self.new) }
        ensures made { OnOk result (Makes 1 self.old self.new) }
        ensures used { OnOk result (self.old.units ≤ self.new.units) }
    {
        self.store.set_macro(
            word,
            Macro {
                args: 0,
                body: text,
            },
        )
    }

    /// A word stands for a text that is written so, at that place, from there on.
    pub(crate) fn set_written(&mut self, at: u32, word: u32, text: &str) -> Result<(), AllocError>
        ensures set { OnOk result (situation_of self.new
            ≡ environment.with_text (situation_of self.old) word (texts.tokens_of at text.now)) }
        ensures kept { OnOk result (Keeps self.old self.new) }
        ensures made { OnOk result (Makes 1 self.old self.new) }
        ensures used { OnOk result (self.old.units ≤ self.new.units) }
    {
        let text = tokens_of(self.alloc, at, text)?;
        self.set_text(word, Body::from_vec(text)?)
    }

    /// A key has an entry from there on.
    pub(crate) fn set_entry(&mut self, path: &str, entry: Entry) -> Result<(), AllocError>
        ensures set { OnOk result
            (situation_of self.new ≡ environment.with_key (situation_of self.old)
            path.now entry) }
        ensures kept { OnOk result (Keeps self.old self.new) }
        ensures made { OnOk result (Makes 1 self.old self.new) }
        ensures used { OnOk result (self.old.units ≤ self.new.units) }
    {
        self.store.set_key(path, entry)
    }

    /// The run that stands at a path, if one does.
    pub(crate) fn run_at(&self, path: &str) -> Result<Option<Run>, AllocError>
        ensures { IfOk result (λ run. run ≡ keys.run_at (env_of self.now) path.now) }
    {
        let Some(entry) = self.store.get_key(path) else {
            return Ok(None);
        };
        match &entry.run {
            Some(run) => Ok(Some(run.copy()?)),
            None => Ok(None),
        }
    }

    /// A list with no macro call left.
    fn expanded_list(&mut self, at: u32, list: &[Tok]) -> Result<Vec<Tok>, Refusal>
        ensures gives { Gives (λ text. stream self.new.units (unread text.items at)) result
            (full self.old.budget (env_of self.old).macros
            (stream self.old.units (unread list.now at))) }
        ensures pays { Pays self.old self.new }
        ensures used { OnOk result (self.old.units ≤ self.new.units) }
    {
        let list = Vec::from_slice(self.alloc, list)?;
        expand_all(self.alloc, list, &self.store, &mut self.units)
    }

    /// A native key sets where and how what follows is drawn, and leaves nothing to be run.
    fn set_graphics(
        &mut self,
        at: u32,
        name: &str,
        key: Native,
        value: Option<&[Tok]>,
    ) -> Result<Deed, Refusal>
        ensures gives { Gives (λ _. self.new.graphics) result
            (graphics_by at evaluated self.old.font key name.now
            (option_copied value.entry) self.old.graphics) }
        ensures text { IfOk result (λ deed. deed.text ≡ None) }
        ensures kept { self.new ≡ record self.old { graphics = self.new.graphics } }
    {
        graphics_set(
            &mut self.graphics,
            self.alloc,
            at,
            name,
            key,
            value,
            self.font,
        )?;
        Ok(done())
    }

    /// A native key, with the name by which it was asked: its value is expanded, and then it sets where and how what
    /// follows is drawn.
    fn set_native(
        &mut self,
        at: u32,
        name: &str,
        key: Native,
        value: Option<&[Tok]>,
    ) -> Result<Deed, Refusal>
        ensures gives { Gives (λ deed. deed_of deed self.new) result
            (keys.set_native (given_of evaluated self.old) at name.now key
            (option_copied value.entry)
            (situation_of self.old)) }
        ensures kept { OnOk result (Keeps self.old self.new) }
        ensures made { OnOk result (Makes 0 self.old self.new) }
        ensures used { OnOk result (self.old.units ≤ self.new.units) }
    {
        let Some(list) = value else {
            return self.set_graphics(at, name, key, None);
        };
        if is_expanded(list, &self.store) {
            return self.set_graphics(at, name, key, Some(list));
        }
        let list = self.expanded_list(at, list)?;
        self.set_graphics(at, name, key, Some(&list))
    }

    /// What a run makes of a value, if it isn't a choice; the name is the one by which the key was asked.
    fn run(
        &mut self,
        at: u32,
        name: &str,
        run: &Run,
        value: Option<&[Tok]>,
    ) -> Result<Deed, Refusal>
        ensures gives { Gives (λ deed. deed_of deed self.new) result
            (keys.plain_run (given_of evaluated self.old) at name.now run.now
            (option_copied value.entry)
            (situation_of self.old)) }
        ensures kept { OnOk result (Keeps self.old self.new) }
        ensures made { OnOk result (Makes 1 self.old self.new) }
        ensures used { OnOk result (self.old.units ≤ self.new.units) }
    {
        match run {
            Run::Native(key) => self.set_native(at, name, *key, value),
            Run::Choice => Err(Refusal::new(Code::ValueRequired, at)),
            Run::StoreIn(word) => {
                let text = Body::new(self.alloc, value.unwrap_or(&[]))?;
                self.set_text(*word, text)?;
                Ok(done())
            }
            Run::Code(args, body) => {
                let text = code_text(self.alloc, at, *args, body, value, &mut self.units)?;
                Ok(Deed { text: Some(text) })
            }
        }
    }

    /// A choice at a path: the value names a key below it, which runs without a value.
    fn choose(&mut self, at: u32, path: &str, value: &[Tok]) -> Result<Deed, Refusal>
        ensures gives { Gives (λ deed. deed_of deed self.new) result
            (keys.choose (given_of evaluated self.old) at path.now value.now
            (situation_of self.old)) }
        ensures kept { OnOk result (Keeps self.old self.new) }
        ensures made { OnOk result (Makes 1 self.old self.new) }
        ensures used { OnOk result (self.old.units ≤ self.new.units) }
    {
        let name = self.expanded_name(Code::UnknownChoice, at, value)?;
        let chosen = path_below(self.alloc, path, &name)?;
        match self.run_at(&chosen)? {
            Some(run) => self.run(at, name_in(&chosen), &run, None),
            None => Err(Refusal::new(Code::UnknownChoice, at)),
        }
    }

    /// What the run at a path makes of a value.
    pub(crate) fn run_key(
        &mut self,
        at: u32,
        path: &str,
        name: &str,
        run: &Run,
        value: Option<&[Tok]>,
    ) -> Result<Deed, Refusal>
        ensures gives { Gives (λ deed. deed_of deed self.new) result
            (keys.run_key (given_of evaluated self.old) at path.now name.now run.now
            (option_copied value.entry)
            (situation_of self.old)) }
        ensures kept { OnOk result (Keeps self.old self.new) }
        ensures made { OnOk result (Makes 1 self.old self.new) }
        ensures used { OnOk result (self.old.units ≤ self.new.units) }
    {
        match run {
            Run::Choice => match value {
                Some(value) => self.choose(at, path, value),
                None => self.run(at, name, run, None),
            },
            _ => self.run(at, name, run, value),
        }
    }

    /// An entry without a run takes a value where one is stored, which becomes that one; else it does nothing.
    fn store_value(
        &mut self,
        at: u32,
        path: &str,
        entry: &Entry,
        value: Option<&[Tok]>,
    ) -> Result<Option<Deed>, Refusal>
        ensures gives { Gives (λ used. used_of used self.new) result
            (keys.use_by (given_of evaluated self.old) at path.now entry.now None entry.now.value
            (option_copied value.entry) (situation_of self.old)) }
        ensures none { IfOk result (λ used. IfNone used (self.new ≡ self.old)) }
        ensures kept { OnOk result (Keeps self.old self.new) }
        ensures made { OnOk result (Makes 1 self.old self.new) }
        ensures used { OnOk result (self.old.units ≤ self.new.units) }
    {
        if entry.value.is_none() {
            return Ok(None);
        }
        let body = stored_by(self.alloc, at, &entry.need, value)?;
        self.keep_value(path, entry, body)?;
        Ok(Some(done()))
    }

    /// An entry has another stored value from there on.
    fn keep_value(&mut self, path: &str, entry: &Entry, value: Body) -> Result<(), AllocError>
        ensures set { OnOk result (situation_of self.new
            ≡ environment.with_key (situation_of self.old) path.now
            (record entry.now { value = Some value })) }
        ensures kept { OnOk result (Keeps self.old self.new) }
        ensures made { OnOk result (Makes 1 self.old self.new) }
        ensures used { OnOk result (self.old.units ≤ self.new.units) }
    {
        let entry = entry.copy()?;
        let value = Some(value);
        self.set_entry(path, Entry { value, ..entry })
    }

    /// The key at a path takes a value, if it has a run or a stored value: its run does, or else its stored value
    /// becomes that one.
    pub(crate) fn use_key(
        &mut self,
        at: u32,
        path: &str,
        value: Option<&[Tok]>,
    ) -> Result<Option<Deed>, Refusal>
        ensures gives { Gives (λ used. used_of used self.new) result
            (keys.use_key (given_of evaluated self.old) at path.now (option_copied value.entry)
            (situation_of self.old)) }
        ensures none { IfOk result (λ used. IfNone used (self.new ≡ self.old)) }
        ensures kept { OnOk result (Keeps self.old self.new) }
        ensures made { OnOk result (Makes 1 self.old self.new) }
        ensures used { OnOk result (self.old.units ≤ self.new.units) }
    {
        let Some(entry) = self.store.get_key(path) else {
            return Ok(None);
        };
        if let Some(key) = native_key(entry) {
            return Ok(Some(self.set_native(at, name_in(path), key, value)?));
        }
        let entry = entry.copy()?;
        self.use_entry(at, path, &entry, value)
    }

    /// An entry takes a value, if it has a run or a stored value.
    fn use_entry(
        &mut self,
        at: u32,
        path: &str,
        entry: &Entry,
        value: Option<&[Tok]>,
    ) -> Result<Option<Deed>, Refusal>
        ensures gives { Gives (λ used. used_of used self.new) result
            (keys.use_by
            (given_of evaluated self.old) at path.now entry.now entry.now.run entry.now.value
            (option_copied value.entry) (situation_of self.old)) }
        ensures none { IfOk result (λ used. IfNone used (self.new ≡ self.old)) }
        ensures kept { OnOk result (Keeps self.old self.new) }
        ensures made { OnOk result (Makes 1 self.old self.new) }
        ensures used { OnOk result (self.old.units ≤ self.new.units) }
    {
        match &entry.run {
            Some(run) => Ok(Some(self.run_entry(at, path, entry, run, value)?)),
            None => self.store_value(at, path, entry, value),
        }
    }

    /// A run takes a value, as the need of an entry says. A text that is stored shares its tokens with the default.
    fn run_entry(
        &mut self,
        at: u32,
        path: &str,
        entry: &Entry,
        run: &Run,
        value: Option<&[Tok]>,
    ) -> Result<Deed, Refusal>
        ensures gives { Gives (λ deed. used_of (Some deed) self.new) result
            (keys.use_by (given_of evaluated self.old) at path.now entry.now
            (Some run.now) entry.now.value
            (option_copied value.entry) (situation_of self.old)) }
        ensures kept { OnOk result (Keeps self.old self.new) }
        ensures made { OnOk result (Makes 1 self.old self.new) }
        ensures used { OnOk result (self.old.units ≤ self.new.units) }
    {
        if let (Run::StoreIn(word), Need::Default(body), None) = (run, &entry.need, value) {
            self.set_text(*word, body.copy()?)?;
            return Ok(done());
        }
        let taken = value_by(at, &entry.need, value)?;
        self.run_key(at, path, name_in(path), run, taken)
    }
}

/// A native key sets where and how what follows is drawn, where expressions have the values of the machine.
fn graphics_set(
    graphics: &mut GraphicsState,
    alloc: Global,
    at: u32,
    name: &str,
    key: Native,
    value: Option<&[Tok]>,
    font: FontUnits,
) -> Result<(), Refusal>
    ensures { Gives (λ _. graphics.new) result
        (graphics_by at evaluated font key name.now (option_copied value.entry) graphics.old) }
{
    graphics.set(alloc, key, name, value, font, at)
}

/// The text of a list, once it is expanded, in the memory of a string; other tokens than characters and Spaces have
/// none.
fn expanded_text(
    memory: String,
    at: u32,
    list: &[Tok],
    store: &Store,
    units: &mut Units,
) -> Result<Option<String>, Refusal>
    ensures gives { Gives (λ text. (option_map string_bytes text, units.new.used)) result
        (expanded_text units.old.budget store.now.top.macros units.old.used at list.now) }
    ensures budget { units.new.budget ≡ units.old.budget }
    ensures used { OnOk result (units.old.used ≤ units.new.used) }
{
    if is_expanded(list, store) {
        return Ok(text_into(memory, list)?);
    }
    let alloc = *memory.allocator();
    let list = Vec::from_slice(alloc, list)?;
    let text = expand_all(alloc, list, store, units)?;
    Ok(text_into(memory, &text)?)
}

/// The native key that an entry runs, where it may have a value or none.
fn native_key(entry: &Entry) -> Option<Native>
    ensures run { IfSome result (λ key. entry.now.run ≡ Some (runs.Native key)) }
    ensures need { IfSome result (λ key. entry.now.need ≡ Free) }
{
    match (&entry.run, &entry.need) {
        (Some(Run::Native(key)), Need::Free) => Some(*key),
        _ => None,
    }
}

/// The value that a key takes where it is given that one, by its need.
fn value_by<'a>(
    at: u32,
    need: &'a Need,
    value: Option<&'a [Tok]>,
) -> Result<Option<&'a [Tok]>, Refusal>
    ensures { Gives (λ taken. option_copied taken) result
        (keys.value_by at need.now (option_copied value.entry)) }
{
    match (need, value) {
        (Need::Default(body), None) => Ok(Some(body.as_slice())),
        (Need::Required, None) => Err(Refusal::new(Code::ValueRequired, at)),
        (Need::Forbidden, Some(_)) => Err(Refusal::new(Code::ValueForbidden, at)),
        _ => Ok(value),
    }
}

/// The value that is stored where a key is given that one, by its need. It shares its tokens with the default.
fn stored_by(alloc: Global, at: u32, need: &Need, value: Option<&[Tok]>) -> Result<Body, Refusal>
    ensures { Gives (λ body. body) result
        (stored_by at need.now (option_copied value.entry)) }
{
    if let (Need::Default(body), None) = (need, value) {
        return Ok(body.copy()?);
    }
    match value_by(at, need, value)? {
        Some(taken) => Ok(Body::new(alloc, taken)?),
        None => Err(Refusal::new(Code::ValueRequired, at)),
    }
}

/// The text of code, in which its arguments take their places, once it is paid for.
fn code_text(
    alloc: Global,
    at: u32,
    args: u8,
    body: &Body,
    value: Option<&[Tok]>,
    units: &mut Units,
) -> Result<Body, Refusal>
    ensures gives { Gives (λ text. paid_by text units.new.used) result
        (keys.code_text units.old.budget at args body.now
        (option_copied value.entry) units.old.used) }
    ensures budget { units.new.budget ≡ units.old.budget }
    ensures used { OnOk result (units.old.used ≤ units.new.used) }
{
    let arguments = code_arguments(alloc, at, args, value)?;
    paid_text(alloc, &arguments, body, at, units)
}

/// The arguments of code: two in its value, which has to be there, or else the value, which is empty where it isn't
/// there.
fn code_arguments(
    alloc: Global,
    at: u32,
    args: u8,
    value: Option<&[Tok]>,
) -> Result<Vec<Vec<Tok>>, Refusal>
    ensures { Gives (λ texts. texts_of texts.items) result
        (keys.code_arguments at args (option_copied value.entry)) }
{
    if args == 2 {
        return match value {
            Some(value) => two_arguments(alloc, at, value),
            None => Err(Refusal::new(Code::ValueRequired, at)),
        };
    }
    let argument = Vec::from_slice(alloc, value.unwrap_or(&[]))?;
    Ok(vec![in alloc; argument]?)
}

/// The two arguments that a value is, with nothing but Spaces round them.
fn two_arguments(alloc: Global, at: u32, value: &[Tok]) -> Result<Vec<Vec<Tok>>, Refusal>
    ensures { Gives (λ texts. texts_of texts.items) result (keys.two_arguments at value.now) }
{
    let mut input = Input::new(alloc, Body::new(alloc, value)?, at)?;
    let arguments = input.arguments(2, at)?;
    input.skip_spaces();
    if input.raw().is_some() {
        return Err(Refusal::new(Code::MacroArg, at));
    }
    Ok(arguments)
}
