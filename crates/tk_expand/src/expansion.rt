//! Macro calls: their arguments, their texts, and what they cost.

ghost use Rattle.std.specs.Prelude.{◌≡◌, ◌+◌, ◌-◌, ◌<◌, ◌≤◌, ◌^◌, ℕ, [], ◌++◌, length, true, Ok, Err, MatchOption};
ghost use Rattle.std.specs.Prelude.{MatchResult, IfOk, IfErr, IfNone, IsTrue, OnOk, OnErr};
ghost use Rattle.std.specs.Option.{option_to_list, is_some};
ghost use Rattle.tk_token.specs.Refusals.{Gives, OnFault};
ghost use Rattle.tk_expand.specs.Arguments.{arguments_of, given, with_arguments, put_in};
ghost use Rattle.tk_expand.specs.Texts.{texts_of};
ghost use Rattle.tk_expand.specs.Unread.{unread};
ghost use Rattle.tk_expand.specs.Expand.{cost_of, pay, stream, called_by, replaced, full, is_expanded};
ghost use Rattle.tk_expand.specs.Reading.{taken, next};

use crate::{Input, Units};
use std::alloc::{AllocError, Global};
use std::slice;
use tk_store::{Body, Macro, Store};
use tk_token::{Code, Fault, Kind, Refusal, Tok};

impl Input {
    /// Takes the token in front once no macro call is in front; there is none exactly at the end. Each call in front is
    /// paid for, and its text takes its place. The faults are `MacroArg` and `Budget` at the word of a call.
    pub fn next(&mut self, store: &Store, units: &mut Units) -> Result<Option<Tok>, Refusal>
        ensures gives { Gives (λ token. taken token (stream units.new.used self.new)) result
            (next units.old.budget store.now.top.macros (stream units.old.used self.old)) }
        ensures none { IfOk result (λ token. IfNone token (self.new.rest ≡ [])) }
        ensures end { OnOk result (self.new.end ≡ self.old.end) }
        ensures budget { units.new.budget ≡ units.old.budget }

        // A turn spends units or takes a token, so that it never has more work left than before.
        ensures used { OnOk result (units.old.used ≤ units.new.used) }
        ensures work { IfOk result (λ token.
            (units.new.budget - units.new.used) + length (option_to_list token ++ self.new.rest)
            ≤ (units.old.budget - units.old.used) + length self.old.rest) }
    {
        while let Some(tok) = self.raw() {
            let Kind::Word(name) = tok.kind else {
                return Ok(Some(tok));
            };
            let Some(called) = store.get_macro(name) else {
                return Ok(Some(tok));
            };
            self.replace(called, tok.at, units)?;
        }
        Ok(None)
    }

    /// Pays for a call whose word was taken, and puts its text in its place.
    #[tactic(auto, unfolding(crate::specs::Arguments::call_text, crate::specs::Expand::replaced))]
    fn replace(&mut self, called: &Macro, at: u32, units: &mut Units) -> Result<(), Refusal>
        ensures gives { Gives (λ _. stream units.new.used self.new) result
            (replaced units.old.budget called.now at (stream units.old.used self.old)) }
        ensures end { OnOk result (self.new.end ≡ self.old.end) }
        ensures budget { units.new.budget ≡ units.old.budget }
    {
        let arguments = self.arguments(called.args, at)?;
        let text = paid_text(self.allocator(), &arguments, &called.body, at, units)?;
        self.push(text)?;
        Ok(())
    }

    /// Takes so many arguments that nothing delimits, as `argument` takes each. The fault is `MacroArg` at the place,
    /// exactly where one is missing.
    pub fn arguments(&mut self, count: u8, at: u32) -> Result<Vec<Vec<Tok>>, Refusal>
        ensures gives { Gives (λ texts. given (texts_of texts.items) self.new.rest) result
            (arguments_of at count self.old.rest) }
        ensures end { OnOk result (self.new.end ≡ self.old.end) }
    {
        let mut arguments = Vec::new(self.allocator());
        for _ in 0..count {
            arguments.push(self.argument(at)?)?;
        }
        Ok(arguments)
    }
}

/// The text of a body, in which the arguments take their places, once it is paid for: it costs one unit more than it
/// has tokens, so that `(#1)` costs 5 units with the argument `ab`, and gives `(ab)`. The fault is `Budget` at the
/// place, exactly where the units would pass the budget. Where no token of the body is the place of an argument, the
/// text shares its tokens with the body.
pub fn paid_text(
    alloc: Global,
    arguments: &[Vec<Tok>],
    body: &Body,
    at: u32,
    units: &mut Units,
) -> Result<Body, Refusal>
    ensures pays { Gives (λ _. units.new.used) result (pay units.old.budget units.old.used
        (cost_of (with_arguments (texts_of arguments.now) body.now)) at) }
    ensures text { IfOk result (λ text. text ≡ with_arguments (texts_of arguments.now) body.now) }
    ensures budget { units.new.budget ≡ units.old.budget }
    ensures used { units.old.used ≤ units.new.used }
    ensures fault { IfErr result (λ e. OnFault e (λ _. units.new ≡ units.old)) }

    // More units are spent than tokens come.
    ensures work { IfOk result (λ text. (units.new.budget - units.new.used) + length text
        < units.old.budget - units.old.used) }
{
    if takes_none(arguments, body.as_slice()) {
        units.pay(body.as_slice().len() as u64 + 1, at)?;
        return Ok(body.copy()?);
    }
    pay_for(units, arguments, body.as_slice(), at)?;
    Ok(with_arguments(alloc, arguments, body.as_slice())?)
}

/// Whether the body stays as it is, since there is no argument, or no place of one in it.
fn takes_none(arguments: &[Vec<Tok>], body: &[Tok]) -> bool
    ensures { IsTrue result → with_arguments (texts_of arguments.now) body.now ≡ body.now }
{
    if arguments.is_empty() {
        return true;
    }
    for tok in body {
        if let Kind::Arg(_) = tok.kind {
            return false;
        }
    }
    true
}

/// Pays for a text before it is put together, so that no text is longer than the budget.
fn pay_for(units: &mut Units, arguments: &[Vec<Tok>], body: &[Tok], at: u32) -> Result<(), Fault>
    ensures pays { MatchResult result
        (λ _. pay units.old.budget units.old.used
        (cost_of (with_arguments (texts_of arguments.now) body.now)) at ≡ Ok units.new.used)
        (λ fault. pay units.old.budget units.old.used
        (cost_of (with_arguments (texts_of arguments.now) body.now)) at ≡ Err fault) }
    ensures budget { units.new.budget ≡ units.old.budget }
    ensures err { OnErr result (units.new ≡ units.old) }
{
    // The budget is a number below 2^64, so that a cost past it is too much.
    let _budget = units.budget;
    match cost_of(arguments, body) {
        Some(cost) => units.pay(cost, at),
        None => Err(Fault {
            code: Code::Budget,
            at,
        }),
    }
}

/// One more than the tokens of a text, if it isn't past the greatest number.
fn cost_of(arguments: &[Vec<Tok>], body: &[Tok]) -> Option<u64>
    ensures { MatchOption result
        (2 ^ 64 ≤ cost_of (with_arguments (texts_of arguments.now) body.now))
        (λ cost. cost ≡ cost_of (with_arguments (texts_of arguments.now) body.now)) }
{
    let mut cost: u64 = 1;
    for tok in body {
        cost = cost.checked_add(put_in(arguments, tok).len() as u64)?;
    }
    Some(cost)
}

/// The body with its arguments put in.
fn with_arguments(alloc: Global, arguments: &[Vec<Tok>], body: &[Tok]) -> Result<Body, AllocError>
    ensures { IfOk result (λ text. text ≡ with_arguments (texts_of arguments.now) body.now) }
{
    let mut text = Vec::new(alloc);
    for tok in body {
        text.extend_from_slice(put_in(arguments, tok))?;
    }
    Body::from_vec(text)
}

/// What a call has for a token of the body.
fn put_in<'a>(arguments: &'a [Vec<Tok>], tok: &'a Tok) -> &'a [Tok]
    ensures { result.now ≡ put_in (texts_of arguments.now) tok.now.kind tok.now }
{
    let itself = slice::from_ref(tok);
    let Kind::Arg(n) = tok.kind else {
        return itself;
    };
    match arguments.get((n as usize).saturating_sub(1)) {
        Some(argument) => argument.as_slice(),
        None => itself,
    }
}

/// Whether nothing in the list calls; then the list is its own expansion, and costs nothing. This takes no memory.
pub fn is_expanded(list: &[Tok], store: &Store) -> bool
    ensures { result ≡ is_expanded store.now.top.macros list.now }
{
    list.iter().all(|tok| !calls(tok.kind, store))
}

/// Whether a token calls a macro.
fn calls(kind: Kind, store: &Store) -> bool
    ensures { result ≡ is_some (called_by store.now.top.macros kind) }
{
    match kind {
        Kind::Word(name) => store.get_macro(name).is_some(),
        _ => false,
    }
}

/// The list with no macro call left: the list itself where nothing in it calls. No fault stands at its end, so that it
/// may run out anywhere.
pub fn expand_all(
    alloc: Global,
    list: Vec<Tok>,
    store: &Store,
    units: &mut Units,
) -> Result<Vec<Tok>, Refusal>
    ensures gives { (end : ℕ) → Gives (λ text. stream units.new.used (unread text.items end)) result
        (full units.old.budget store.now.top.macros
        (stream units.old.used (unread list.items end))) }
    ensures budget { units.new.budget ≡ units.old.budget }
    ensures used { OnOk result (units.old.used ≤ units.new.used) }
{
    if is_expanded(&list, store) {
        return Ok(list);
    }
    expand_by_one(alloc, Body::from_vec(list)?, store, units)
}

/// The same, one token after the other.
fn expand_by_one(
    alloc: Global,
    list: Body,
    store: &Store,
    units: &mut Units,
) -> Result<Vec<Tok>, Refusal>
    ensures gives { Gives (λ text. stream units.new.used (unread text.items 0)) result
        (full units.old.budget store.now.top.macros (stream units.old.used (unread list 0))) }
    ensures budget { units.new.budget ≡ units.old.budget }
    ensures used { OnOk result (units.old.used ≤ units.new.used) }
{
    let mut input = Input::new(alloc, list, 0)?;
    let mut text = Vec::new(alloc);
    while let Some(tok) = input.next(store, units)? {
        text.push(tok)?;
    }
    Ok(text)
}
