//! The state of a run.

ghost use Rattle.std.specs.Prelude.{◌≡◌, ℕ, [], ◌∷◌, ◌++◌, ◌+◌, ◌-◌, ◌<◌, ◌≤◌};
ghost use Rattle.std.specs.Prelude.{length, IfNone, option_to_list, IfOk, OnOk};
ghost use Rattle.std.specs.Prelude.{OnErr, MatchResult, Ok, Err};
ghost use Rattle.std.specs.Vec.{vec_capacity};
ghost use Rattle.tk_token.specs.Refusals.{Gives};
ghost use Rattle.tk_store.specs.Levels.{opened};
ghost use Rattle.tk_token.specs.Kinds.{is_char};
ghost use Rattle.tk_expand.specs.Expand.{full};
ghost use Rattle.tk_expand.specs.Reading.{taken, next, next_solid};
ghost use Rattle.tk_expand.specs.Unread.{unread};
ghost use Rattle.tk_keys.specs.Environment.{level};
ghost use Rattle.tk_keys.specs.Given.{known_words};
ghost use Rattle.tk_look.specs.Graphics.{graphics_below};
ghost use Rattle.tk_keys.specs.State.{IsFirst, env_of, stream_of, Pays};
ghost use Rattle.tk_keys.specs.Made.{AreMade};
ghost use Rattle.tk_store.specs.Levels.{SetsMacro};

use crate::initial::first_store;
use std::alloc::{AllocError, Global};
use std::marker::Model;
use std::mem;
use std::sync::ledger::Ledger;
use tk_expand::{Input, Units, expand_all};
use tk_expr::FontUnits;
use tk_look::GraphicsState;
use tk_store::{Macro, Steps, Store};
use tk_token::{Code, Fault, Names, Refusal, Tok};

/// How many levels can be open.
const MOST_LEVELS: usize = 128;

/// The state of a run: what was given for it, what words and keys mean at each open level, where and how what follows
/// is drawn there, and the units that were paid so far.
#[derive(Drop)]
pub struct State {
    pub(crate) alloc: Global,
    pub(crate) names: Names,
    /// The numbers of words that a run makes itself.
    pub(crate) made: MadeWords,
    pub(crate) font: FontUnits,
    pub(crate) store: Store,
    /// Where and how what follows is drawn.
    pub(crate) graphics: GraphicsState,
    /// The same at the levels further out, the outermost first. It has room for each level that can be open.
    saved: Vec<GraphicsState>,
    /// How many key lists run.
    pub(crate) lists: usize,
    pub(crate) units: Units,
    /// Memory for the next name.
    pub(crate) spare: String,
}

/// The numbers of the words that a run makes itself.
#[derive(Clone, Copy)]
pub(crate) struct MadeWords {
    /// `pgfkeysalso`
    pub(crate) also: u32,
    /// `pgfkeyscurrentkey`
    pub(crate) key: u32,
    /// `pgfkeyscurrentname`
    pub(crate) name: u32,
}

impl Model for State {
    ghost use Rattle.std.specs.Coded.{codes};
    ghost use Rattle.std.specs.FinMap as map;
    ghost use Rattle.tk_keys.specs.State.{State};
    ghost use Rattle.std.specs.Prelude.{◌≡◌, ◌≤◌, length, reverse};
    ghost use Rattle.std.specs.Vec.{vec_capacity};
    ghost use Rattle.tk_keys.specs.Made.{AreMade};

    ghost Value = { State };

    ghost coded = { Prim.hlevel (codes, map.code) };

    ghost view = { λ s. record {
      names = s.names;
      font = s.font;
      budget = s.units.budget;
      levels = s.store;
      graphics = s.graphics;
      saved = reverse s.saved.items;
      lists = s.lists;
      units = s.units.used;
    } };

    ghost invariant = { λ s. AreMade s.names s.made × (length s.saved.items ≡ length s.store.outer)
        × (128 ≤ vec_capacity s.saved) };
}

impl State {
    /// The state before a run over a source with these words, with the units of the font and so many units to pay.
    pub fn new(
        alloc: Global,
        names: Names,
        font: FontUnits,
        budget: u64,
    ) -> Result<State, AllocError>
        requires { length names ≤ 17000000 }
        ensures { IfOk result (λ state. IsFirst names font budget state) }
    {
        let mut names = names;
        let made = make_words(&mut names)?;
        let saved = Vec::with_capacity(alloc, MOST_LEVELS)?;
        Ok(State {
            alloc,
            names,
            made,
            font,
            store: first_store(alloc, made.also)?,
            graphics: GraphicsState::initial(font),
            saved,
            lists: 0,
            units: Units { used: 0, budget },
            spare: String::new(alloc),
        })
    }

    /// What new lists take their memory from.
    pub fn allocator(&self) -> Global {
        self.alloc
    }

    /// The words by their numbers. This takes no memory.
    pub fn names(&self) -> &Names
        ensures { result.now ≡ self.now.names }
    {
        &self.names
    }

    /// What words and keys mean at each open level. This takes no memory.
    pub fn store(&self) -> &Store
        ensures { result.now ≡ self.now.levels }
    {
        &self.store
    }

    /// Gives the word with that number a macro, until the current level is closed. On want of memory all stays as it
    /// was.
    pub fn set_macro(&mut self, name: u32, value: Macro) -> Result<(), AllocError>
        ensures ok { OnOk result (SetsMacro self.old.levels self.new.levels name value) }
        ensures kept { self.new ≡ record self.old { levels = self.new.levels } }
        ensures err { OnErr result (self.new ≡ self.old) }
    {
        self.store.set_macro(name, value)
    }

    /// The units of the font, with which the state was made. This takes no memory.
    pub fn font_units(&self) -> FontUnits
        ensures { result ≡ self.now.font }
    {
        self.font
    }

    /// The units that were paid. This takes no memory.
    pub fn used(&self) -> u64
        ensures { result ≡ self.now.units }
    {
        self.units.used
    }

    /// The units that were paid, and how many there are to pay. This takes no memory.
    pub fn units(&self) -> Units
        ensures used { result.used ≡ self.now.units }
        ensures budget { result.budget ≡ self.now.budget }
    {
        Units {
            used: self.units.used,
            budget: self.units.budget,
        }
    }

    /// Says how many units were paid. This takes no memory.
    pub fn set_used(&mut self, used: u64)
        ensures { self.new ≡ record self.old { units = used } }
    {
        self.units.used = used;
    }

    /// Takes the next token of a list, once no macro call is in front.
    pub fn next(&mut self, input: &mut Input) -> Result<Option<Tok>, Refusal>
        ensures gives { Gives (λ tok. taken tok (stream_of self.new input.new)) result
            (next self.old.budget (env_of self.old).macros (stream_of self.old input.old)) }
        ensures pays { Pays self.old self.new }
        ensures none { IfOk result (λ tok. IfNone tok (input.new.rest ≡ [])) }
        ensures end { OnOk result (input.new.end ≡ input.old.end) }
        ensures used { OnOk result (self.old.units ≤ self.new.units) }
        ensures work { IfOk result
            (λ tok. (self.new.budget - self.new.units) + length input.new.rest
            + length (option_to_list tok)
            ≤ (self.old.budget - self.old.units) + length input.old.rest) }
    {
        input.next(&self.store, &mut self.units)
    }

    /// Takes the next token of a list that is no Space, with the Spaces before it.
    pub fn next_solid(&mut self, input: &mut Input) -> Result<Option<Tok>, Refusal>
        ensures gives { Gives (λ tok. taken tok (stream_of self.new input.new)) result
            (next_solid self.old.budget (env_of self.old).macros (stream_of self.old input.old)) }
        ensures pays { Pays self.old self.new }
    {
        input.next_solid(&self.store, &mut self.units)
    }

    /// A list with no macro call left. Where nothing in it calls, it is the list itself.
    pub fn expand(&mut self, list: Vec<Tok>) -> Result<Vec<Tok>, Refusal>
        ensures gives { (end : ℕ) → Gives
            (λ text. stream_of self.new (unread text.items end)) result
            (full self.old.budget (env_of self.old).macros
            (stream_of self.old (unread list.items end))) }
        ensures pays { Pays self.old self.new }
    {
        expand_all(self.alloc, list, &self.store, &mut self.units)
    }

    /// Opens a level for what stands at that place; the fault is `Levels` there, exactly where 128 are open. This takes
    /// no memory.
    pub fn open(&mut self, at: u32) -> Result<(), Fault>
        ensures gives { MatchResult result
            (λ _. level at (env_of self.old) ≡ Ok (env_of self.new))
            (λ fault. level at (env_of self.old) ≡ Err fault) }
        ensures opened { OnOk result (self.new ≡ record self.old {
          levels = opened self.old.levels;
          graphics = graphics_below self.old.graphics;
          saved = self.old.graphics ∷ self.old.saved;
        }) }
        ensures err { OnErr result (self.new ≡ self.old) }
    {
        if self.store.level() >= MOST_LEVELS {
            return Err(Fault {
                code: Code::Levels,
                at,
            });
        }
        self.store.open();
        // The copy is what is saved, and the name, which owns memory, moves into it.
        let mut saved = self.graphics.below();
        saved.look.name = mem::replace(&mut self.graphics.look.name, None);
        self.saved.push_reserved(saved);
        Ok(())
    }

    /// Closes the current level: what was set at it ends. This takes no memory, and looks only at what was set: a step
    /// is one setting that is undone.
    pub fn close<L: Ledger>(&mut self, steps: &mut Steps<L>)
        requires { 0 < length self.old.levels.outer }
        ensures levels { self.old.levels.outer ≡ self.new.levels.top ∷ self.new.levels.outer }
        ensures saved { self.old.saved ≡ self.new.graphics ∷ self.new.saved }
        ensures kept { self.new ≡ record self.old {
          levels = self.new.levels;
          graphics = self.new.graphics;
          saved = self.new.saved;
        } }
        ensures low { steps.old ≤ steps.new }
        ensures high { steps.new ≤ steps.old + self.old.levels.top.settings }
    {
        self.store.close(steps);
        restore(&mut self.saved, &mut self.graphics);
    }

    /// Sets whether what follows is drawn and filled. This takes no memory.
    pub fn set_paint(&mut self, draw: bool, fill: bool)
        ensures { self.new ≡ record self.old {
          graphics = record self.old.graphics {
            look = record self.old.graphics.look {
              draw_on = draw;
              fill_on = fill;
            };
          };
        } }
    {
        self.graphics.look.draw_on = draw;
        self.graphics.look.fill_on = fill;
    }

    /// Where and how what follows is drawn. This takes no memory.
    pub fn graphics(&self) -> &GraphicsState
        ensures { result.now ≡ self.now.graphics }
    {
        &self.graphics
    }
}

/// The last of the saved ones is again where and how what follows is drawn.
fn restore(saved: &mut Vec<GraphicsState>, graphics: &mut GraphicsState)
    requires { 0 < length saved.old.items }
    ensures items { saved.old.items ≡ saved.new.items ++ graphics.new ∷ [] }
    ensures capacity { vec_capacity saved.new ≡ vec_capacity saved.old }
{
    if let Some(last) = saved.pop() {
        *graphics = last;
    }
}

/// Adds the words that a run makes itself; gives their numbers.
fn make_words(names: &mut Names) -> Result<MadeWords, AllocError>
    requires { length names.old ≤ 17000000 }
    ensures words { OnOk result (names.new ≡ known_words names.old) }
    ensures made { IfOk result (λ made. AreMade names.new made) }
{
    Ok(MadeWords {
        also: names.add("pgfkeysalso")?,
        key: names.add("pgfkeyscurrentkey")?,
        name: names.add("pgfkeyscurrentname")?,
    })
}
