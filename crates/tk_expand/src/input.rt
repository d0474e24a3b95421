//! Token lists that are being read, from the front on.

ghost use Rattle.std.specs.Prelude.{◌≡◌, ◌+◌, ◌<◌, ◌≤◌, ◌^◌, ◌==◌, ◌&&◌, if◌then◌else◌, [], ◌∷◌, ◌++◌, length, slice_get};
ghost use Rattle.std.specs.Prelude.{Some, None, IfOk, IfNone, IfSome, OnOk};
ghost use Rattle.std.specs.Bool.{OnFalse, OnTrue};
ghost use Rattle.std.specs.Option.{option_to_list, option_map};
ghost use Rattle.tk_token.specs.declared.Code.TheVariants.{MacroArg};
ghost use Rattle.tk_token.specs.Answers.{or_fault};
ghost use Rattle.tk_token.specs.Groups.{cut, before_char, group_of};
ghost use Rattle.tk_token.specs.Kinds.{is_close};
ghost use Rattle.tk_token.specs.Refusals.{Gives};
ghost use Rattle.tk_expand.specs.Arguments.{argument_of};
ghost use Rattle.tk_expand.specs.Stops.{before_stop};
ghost use Rattle.tk_expand.specs.Unread.{unread, past_spaces};

use crate::rest::{Rest, Stop};
use std::alloc::{AllocError, Global};
use std::marker::Model;
use std::mem;
use tk_store::Body;
use tk_token::{Code, Fault, Kind, Refusal, Tok, depth_after};

/// What is left of a token list, and the place at which it runs out. The list is a stack of lists that share their
/// tokens with the bodies that they come from; the last one is read first, and none of them is empty.
#[derive(Drop)]
pub struct Input {
    alloc: Global,
    stack: Vec<Rest>,
    end: u32,
    /// Memory for the next list that is taken.
    spare: Vec<Tok>,
}

impl Model for Input {
    ghost use Rattle.std.specs.Prelude.{◌<◌, length};
    ghost use Rattle.std.specs.List.{All};
    ghost use Rattle.tk_expand.specs.Stack.{stacked};
    ghost use Rattle.tk_expand.specs.Unread.{Unread};

    ghost Value = { Unread };

    ghost view = { λ input. record { rest = stacked input.stack.items; end = input.end } };

    ghost invariant = { λ input. All (λ list. 0 < length list) input.stack.items };
}

impl Input {
    /// The whole list, with the place at which it runs out.
    #[tactic(auto, using(crate::proofs::Stacks::first_list))]
    pub fn new(alloc: Global, list: Body, end: u32) -> Result<Input, AllocError>
        ensures { IfOk result (λ input. input ≡ unread list end) }
    {
        let mut input = Input {
            alloc,
            stack: Vec::new(alloc),
            end,
            spare: Vec::new(alloc),
        };
        input.push(list)?;
        Ok(input)
    }

    /// What new lists take their memory from.
    pub(crate) fn allocator(&self) -> Global {
        self.alloc
    }

    /// The place at which the list runs out. This takes no memory.
    pub fn end(&self) -> u32
        ensures { result ≡ self.now.end }
    {
        self.end
    }

    /// The token in front, which stays. This takes no memory.
    pub fn first(&self) -> Option<Tok>
        ensures { result ≡ slice_get self.now.rest 0 }
    {
        if self.stack.is_empty() {
            return None;
        }
        let last = self.stack.len() - 1;
        Some(self.stack[last].first())
    }

    /// Takes the token in front as it stands; there is none exactly at the end. This takes no memory.
    pub fn raw(&mut self) -> Option<Tok>
        ensures rest { self.old.rest ≡ option_to_list result ++ self.new.rest }
        ensures none { IfNone result (self.old.rest ≡ []) }
        ensures end { self.new.end ≡ self.old.end }
    {
        if self.stack.is_empty() {
            return None;
        }
        let last = self.stack.len() - 1;
        let list = &mut self.stack[last];
        let tok = list.take();
        if list.is_empty() {
            self.stack.truncate(last);
        }
        Some(tok)
    }

    /// Takes the Spaces in front. This takes no memory.
    pub fn skip_spaces(&mut self)
        ensures { self.new ≡ past_spaces self.old }
    {
        while let Some(tok) = self.first() {
            if !tok.kind.is_space() {
                return;
            }
            self.raw();
        }
    }

    /// Puts a list in front.
    #[tactic(auto, using(crate::proofs::Stacks::stacked_push))]
    pub fn push(&mut self, list: Body) -> Result<(), AllocError>
        ensures { OnOk result (self.new ≡ record self.old { rest = list ++ self.old.rest }) }
    {
        let list = Rest::new(list);
        if !list.is_empty() {
            self.stack.push(list)?;
        }
        Ok(())
    }

    /// Puts a token in front. Where it is the one that was taken last, this takes memory only if it was its list's last.
    pub fn give_back(&mut self, tok: Tok) -> Result<(), AllocError>
        ensures { OnOk result (self.new ≡ record self.old { rest = tok ∷ self.old.rest }) }
    {
        if self.give_back_to_first(tok) {
            return Ok(());
        }
        self.push(Body::new(self.alloc, &[tok])?)
    }

    /// Gives a token back to the list that is read first, if it was taken from there last; else all stays.
    fn give_back_to_first(&mut self, tok: Tok) -> bool
        ensures given { OnTrue result (self.new ≡ record self.old { rest = tok ∷ self.old.rest }) }
        ensures kept { OnFalse result (self.new ≡ self.old) }
    {
        if self.stack.is_empty() {
            return false;
        }
        let last = self.stack.len() - 1;
        self.stack[last].give_back(tok)
    }

    /// Takes the tokens before the first `stop` outside braces, and that `stop`. There are none exactly where the list
    /// ends before it, or a `}` comes before it that closes none of these tokens; then nothing is taken.
    pub fn until(&mut self, stop: char) -> Result<Option<Vec<Tok>>, AllocError>
        ensures gives { IfOk result
            (λ found. option_map (λ front. cut front.items self.new.rest) found
            ≡ before_char stop self.old.rest) }
        ensures none { IfOk result (λ found. IfNone found (self.new ≡ self.old)) }
        ensures end { OnOk result (self.new.end ≡ self.old.end) }
        ensures shorter { IfOk result
            (λ found. IfSome found (λ front.
            length front.items + length self.new.rest < length self.old.rest)) }
    {
        self.before(Stop::Char(stop))
    }

    /// The memory of tokens that are done with serves the next list that is taken. This takes no memory.
    pub fn keep(&mut self, memory: Vec<Tok>)
        ensures { self.new ≡ self.old }
    {
        self.spare = memory;
    }

    /// Takes the contents of a group whose `{` was taken, and its `}`. There are none exactly where the list ends
    /// before that `}`; then nothing is taken.
    pub fn group(&mut self) -> Result<Option<Vec<Tok>>, AllocError>
        ensures gives { IfOk result
            (λ found. option_map (λ front. cut front.items self.new.rest) found
            ≡ group_of self.old.rest) }
        ensures none { IfOk result (λ found. IfNone found (self.new ≡ self.old)) }
        ensures end { OnOk result (self.new.end ≡ self.old.end) }
        ensures shorter { IfOk result
            (λ found. IfSome found (λ front.
            length front.items + length self.new.rest < length self.old.rest)) }
    {
        self.before(Stop::Close)
    }

    /// Takes an argument that nothing delimits: the next token that isn't a Space, or the contents of the next group.
    /// The fault is `MacroArg` at the place, exactly where the list ends or a `}` stands there.
    pub fn argument(&mut self, at: u32) -> Result<Vec<Tok>, Refusal>
        ensures gives { Gives (λ text. cut text.items self.new.rest) result
            (or_fault (argument_of self.old.rest) MacroArg at) }
        ensures end { OnOk result (self.new.end ≡ self.old.end) }
        ensures shorter { IfOk result
            (λ text. length text.items + length self.new.rest ≤ length self.old.rest) }
    {
        let missing = Fault {
            code: Code::MacroArg,
            at,
        };
        self.skip_spaces();
        let Some(first) = self.raw() else {
            return Err(missing.into());
        };
        match first.kind {
            Kind::Open => match self.group()? {
                Some(contents) => Ok(contents),
                None => Err(missing.into()),
            },
            Kind::Close => Err(missing.into()),
            _ => Ok(vec![in self.alloc; first]?),
        }
    }

    /// Takes the tokens before the first stop outside braces, and the stop; where there is none, nothing is taken. A
    /// stop in the list that is read first is found without a walk through the stack.
    fn before(&mut self, stop: Stop) -> Result<Option<Vec<Tok>>, AllocError>
        ensures gives { IfOk result
            (λ found. option_map (λ front. cut front.items self.new.rest) found
            ≡ before_stop stop self.old.rest) }
        ensures none { IfOk result (λ found. IfNone found (self.new ≡ self.old)) }
        ensures end { OnOk result (self.new.end ≡ self.old.end) }
        ensures shorter { IfOk result
            (λ found. IfSome found (λ front.
            length front.items + length self.new.rest < length self.old.rest)) }
    {
        if let Some(front) = self.before_in_first(stop)? {
            return Ok(Some(front));
        }
        let (front, found) = self.before_by_one(stop)?;
        if found {
            return Ok(Some(front));
        }
        self.push(Body::from_vec(front)?)?;
        Ok(None)
    }

    /// The same, where the stop is in the list that is read first; else nothing is taken.
    fn before_in_first(&mut self, stop: Stop) -> Result<Option<Vec<Tok>>, AllocError>
        ensures gives { IfOk result
            (λ found. IfSome found (λ front.
            before_stop stop self.old.rest ≡ Some (cut front.items self.new.rest))) }
        ensures none { IfOk result (λ found. IfNone found (self.new ≡ self.old)) }
        ensures end { OnOk result (self.new.end ≡ self.old.end) }
    {
        if self.stack.is_empty() {
            return Ok(None);
        }
        let memory = mem::replace(&mut self.spare, Vec::new(self.alloc));
        let last = self.stack.len() - 1;
        let list = &mut self.stack[last];
        let Some(front) = list.take_before(memory, stop)? else {
            return Ok(None);
        };
        if !list.is_empty() {
            return Ok(Some(front));
        }
        self.stack.truncate(last);
        Ok(Some(front))
    }

    /// Takes the tokens before the first stop outside braces, and the stop, one by one, and tells whether it was found.
    /// Where it was not, all tokens that were taken are given.
    fn before_by_one(&mut self, stop: Stop) -> Result<(Vec<Tok>, bool), AllocError>
        ensures gives { IfOk result (λ taken. before_stop stop self.old.rest
            ≡ (if taken.1 then Some (cut taken.0.items self.new.rest) else None)) }
        ensures kept { IfOk result
            (λ taken. OnFalse taken.1 (taken.0.items ++ self.new.rest ≡ self.old.rest)) }
        ensures end { OnOk result (self.new.end ≡ self.old.end) }
    {
        let mut front = Vec::new(self.alloc);
        let mut depth: usize = 0;
        while let Some(tok) = self.raw() {
            if stop.is(depth, tok.kind) {
                return Ok((front, true));
            }
            front.push(tok)?;
            if Stop::Close.is(depth, tok.kind) {
                return Ok((front, false));
            }
            depth = depth_after(depth, tok.kind);
        }
        Ok((front, false))
    }
}
