//! What a part of a key list does.

ghost use Rattle.std.specs.Prelude.{◌≡◌, ◌≤◌, ◌++◌, ◌∷◌, string_bytes, IfOk, OnOk, MatchResult, Ok, Err, option_map};
ghost use Rattle.std.specs.Prelude.{option_copied};
ghost use Rattle.tk_token.specs.Refusals.{Gives};
ghost use Rattle.tk_expr.specs.Evaluated.{evaluated};
ghost use Rattle.tk_keytext.specs.KeyParts.{key_part};
ghost use Rattle.tk_keytext.specs.Handlers as handlers;
ghost use Rattle.tk_keytext.specs.Paths as paths;
ghost use Rattle.tk_keys.specs.Keys as keys;
ghost use Rattle.tk_keys.specs.State.{given_of, env_of, situation_of, Keeps, Makes};
ghost use Rattle.tk_keys.specs.Views.{deed_of, effect_of, runner_of};

use crate::deeds::{Deed, done};
use crate::{Dir, State};
use std::alloc::AllocError;
use tk_keytext::{Handler, Part, edit_entry, handler_of, name_in, parent_of, path_below};
use tk_store::{Entry, Run};
use tk_token::{Code, Fault, Refusal, Tok};

/// A key that runs for another.
#[derive(Drop)]
struct Runner {
    path: String,
    run: Run,
}

impl State {
    /// A handler edits the entry at a path.
    fn edit(
        &mut self,
        at: u32,
        handler: Handler,
        path: &str,
        value: Option<&[Tok]>,
    ) -> Result<Deed, Refusal>
        ensures gives { Gives (λ deed. deed_of deed self.new) result
            (keys.edit (given_of evaluated self.old) at handler path.now (option_copied value.entry)
            (situation_of self.old)) }
        ensures kept { OnOk result (Keeps self.old self.new) }
        ensures made { OnOk result (Makes 1 self.old self.new) }
        ensures used { OnOk result (self.old.units ≤ self.new.units) }
    {
        let old = self.store.get_key(path);
        let entry = edit_entry(self.alloc, handler, old, value, self.made.also, at)?;
        self.pay_for_edit(at, handler, &entry)?;
        self.set_entry(path, entry)?;
        Ok(done())
    }

    /// Pays for an entry that was edited: a style that grows costs one unit more than its new code has tokens.
    fn pay_for_edit(&mut self, at: u32, handler: Handler, entry: &Entry) -> Result<(), Fault>
        ensures gives { MatchResult result
            (λ _. keys.edit_paid
            (given_of evaluated self.old) at handler entry.now.run self.old.units
            ≡ Ok self.new.units)
            (λ fault. keys.edit_paid
            (given_of evaluated self.old) at handler entry.now.run self.old.units
            ≡ Err fault) }
        ensures pays { self.new ≡ record self.old { units = self.new.units } }
        ensures used { self.old.units ≤ self.new.units }
    {
        match (handler, &entry.run) {
            (Handler::AppendStyle | Handler::PrefixStyle, Some(Run::Code(_, body))) => {
                self.units.pay(body.as_slice().len() as u64 + 1, at)
            }
            _ => Ok(()),
        }
    }

    /// What a handler does with the key at a path.
    fn handle(
        &mut self,
        at: u32,
        handler: Handler,
        path: &str,
        value: Option<&[Tok]>,
        dir: &mut Dir,
    ) -> Result<Deed, Refusal>
        ensures gives { Gives (λ deed. effect_of deed self.new dir.new) result
            (keys.handle (given_of evaluated self.old) at handler path.now
            (option_copied value.entry) dir.old
            (situation_of self.old)) }
        ensures kept { OnOk result (Keeps self.old self.new) }
        ensures made { OnOk result (Makes 1 self.old self.new) }
        ensures used { OnOk result (self.old.units ≤ self.new.units) }
    {
        match handler {
            Handler::Cd => {
                *dir = Dir::new(self.alloc, path)?;
                Ok(done())
            }
            Handler::Try => match self.use_key(at, path, value)? {
                Some(deed) => Ok(deed),
                None => Ok(done()),
            },
            _ => self.edit(at, handler, path, value),
        }
    }

    /// The key that runs for one that isn't known: `.unknown` beside it, or in /handlers.
    fn stand_in(&self, path: &str) -> Result<Option<Runner>, AllocError>
        ensures { IfOk result
            (λ found. option_map runner_of found ≡ keys.stand_in (env_of self.now) path.now) }
    {
        if let Some(beside) = self.unknown_below(parent_of(path))? {
            return Ok(Some(beside));
        }
        self.unknown_below("/handlers")
    }

    /// The key `.unknown` below a path, if it has a run.
    fn unknown_below(&self, path: &str) -> Result<Option<Runner>, AllocError>
        ensures { IfOk result (λ found. option_map runner_of found
            ≡ keys.runner (env_of self.now) (keys.unknown_below path.now)) }
    {
        let path = path_below(self.alloc, path, ".unknown")?;
        match self.run_at(&path)? {
            Some(run) => Ok(Some(Runner { path, run })),
            None => Ok(None),
        }
    }

    /// Two words stand for a key and its last part.
    fn announce(&mut self, at: u32, path: &str) -> Result<(), AllocError>
        ensures set { OnOk result (situation_of self.new
            ≡ keys.announced (given_of evaluated self.old) at path.now (situation_of self.old)) }
        ensures kept { OnOk result (Keeps self.old self.new) }
        ensures made { OnOk result (Makes 2 self.old self.new) }
        ensures used { OnOk result (self.old.units ≤ self.new.units) }
    {
        self.set_written(at, self.made.key, path)?;
        self.set_written(at, self.made.name, name_in(path))
    }

    /// A key that nothing is known of: another runs for it, which can ask for its name.
    fn unknown(&mut self, at: u32, path: &str, value: Option<&[Tok]>) -> Result<Deed, Refusal>
        ensures gives { Gives (λ deed. deed_of deed self.new) result
            (keys.unknown (given_of evaluated self.old) at path.now (option_copied value.entry)
            (situation_of self.old)) }
        ensures kept { OnOk result (Keeps self.old self.new) }
        ensures made { OnOk result (Makes 3 self.old self.new) }
        ensures used { OnOk result (self.old.units ≤ self.new.units) }
    {
        let Some(other) = self.stand_in(path)? else {
            return Err(Refusal::new(Code::UnknownKey, at));
        };
        self.announce(at, path)?;
        self.run_key(at, &other.path, name_in(path), &other.run, value)
    }

    /// A key without a run and a stored value: its last part may be a handler of the key before it.
    fn handle_or_unknown(
        &mut self,
        at: u32,
        path: &str,
        value: Option<&[Tok]>,
        dir: &mut Dir,
    ) -> Result<Deed, Refusal>
        ensures gives { Gives (λ deed. effect_of deed self.new dir.new) result
            (keys.handle_or_unknown (given_of evaluated self.old) at
            (handlers.handler_of (paths.name_in path.now))
            path.now (option_copied value.entry) dir.old (situation_of self.old)) }
        ensures kept { OnOk result (Keeps self.old self.new) }
        ensures made { OnOk result (Makes 3 self.old self.new) }
        ensures used { OnOk result (self.old.units ≤ self.new.units) }
    {
        match handler_of(name_in(path)) {
            Some(handler) => self.handle(at, handler, parent_of(path), value, dir),
            None => self.unknown(at, path, value),
        }
    }

    /// The key at a path, with a value.
    fn key(
        &mut self,
        at: u32,
        path: &str,
        value: Option<&[Tok]>,
        dir: &mut Dir,
    ) -> Result<Deed, Refusal>
        ensures gives { Gives (λ deed. effect_of deed self.new dir.new) result
            (keys.key (given_of evaluated self.old) at path.now (option_copied value.entry) dir.old
            (situation_of self.old)) }
        ensures kept { OnOk result (Keeps self.old self.new) }
        ensures made { OnOk result (Makes 3 self.old self.new) }
        ensures used { OnOk result (self.old.units ≤ self.new.units) }
    {
        match self.use_key(at, path, value)? {
            Some(deed) => Ok(deed),
            None => self.handle_or_unknown(at, path, value, dir),
        }
    }

    /// A part of a key list, with the default path before it.
    #[tactic(auto, unfolding(crate::specs::Keys::part))]
    pub(crate) fn part(&mut self, part: &Part, dir: &mut Dir) -> Result<Deed, Refusal>
        ensures gives { Gives (λ deed. effect_of deed self.new dir.new) result
            (keys.part (given_of evaluated self.old) (key_part part.now) dir.old
            (situation_of self.old)) }
        ensures kept { OnOk result (Keeps self.old self.new) }
        ensures made { OnOk result (Makes 3 self.old self.new) }
        ensures used { OnOk result (self.old.units ≤ self.new.units) }
    {
        let name = self.expanded_name(Code::UnknownKey, part.at, part.name)?;
        let path = path_from(dir, name)?;
        let deed = self.key(part.at, &path, part.value, dir)?;
        self.keep(path);
        Ok(deed)
    }
}

/// The full path of a name with a default path, in the memory of the name.
pub(crate) fn path_from(dir: &Dir, name: String) -> Result<String, AllocError>
    ensures { IfOk result
        (λ path. string_bytes path ≡ paths.full_path dir.now (string_bytes name)) }
{
    if name.starts_with('/') {
        return Ok(name);
    }
    dir.below(name)
}
