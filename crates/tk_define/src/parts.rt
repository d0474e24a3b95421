//! What the next token of a definition says, and its body.

ghost use Rattle.std.specs.Prelude.{◌≡◌, ◌+◌, ◌<◌, ◌≤◌, length, OnOk};
ghost use Rattle.tk_token.specs.declared.Code.TheVariants.{MacroSyntax};
ghost use Rattle.tk_token.specs.Kinds.{word_of};
ghost use Rattle.tk_token.specs.Refusals.{Gives};
ghost use Rattle.tk_store.specs.Bodies.{digit_of};
ghost use Rattle.tk_expand.specs.Reading.{read, token_value};
ghost use Rattle.tk_expand.specs.Tells.{Tells};
ghost use Rattle.tk_define.specs.Definitions.{body_in};

use std::alloc::Global;
use tk_expand::Input;
use tk_store::{Body, digit_of};
use tk_token::{Code, Fault, Kind, Refusal};

/// The fault of a token that doesn't fit.
pub(crate) fn misfit(at: u32) -> Fault
    ensures { result ≡ record { code = MacroSyntax; at = at } }
{
    Fault {
        code: Code::MacroSyntax,
        at,
    }
}

/// Takes the next token, which has to be a control word.
#[tactic(auto, unfolding(tk_expand::specs::Reading::token_value))]
pub(crate) fn word(input: &mut Input) -> Result<u32, Fault>
    ensures gives { Tells (λ word. read word input.new) result
        (token_value MacroSyntax word_of input.old) }
    ensures end { OnOk result (input.new.end ≡ input.old.end) }
    ensures shorter { OnOk result (length input.new.rest < length input.old.rest) }
{
    let tok = input.token(Code::MacroSyntax)?;
    match tok.kind {
        Kind::Word(word) => Ok(word),
        _ => Err(misfit(tok.at)),
    }
}

/// Takes the next token, which has to be a digit.
#[tactic(auto, unfolding(tk_expand::specs::Reading::token_value))]
pub(crate) fn digit(input: &mut Input) -> Result<u8, Fault>
    ensures gives { Tells (λ digit. read digit input.new) result
        (token_value MacroSyntax digit_of input.old) }
    ensures end { OnOk result (input.new.end ≡ input.old.end) }
    ensures shorter { OnOk result (length input.new.rest < length input.old.rest) }
{
    let tok = input.token(Code::MacroSyntax)?;
    match digit_of(tok.kind) {
        Some(digit) => Ok(digit),
        None => Err(misfit(tok.at)),
    }
}

/// Takes the body of a macro with so many arguments, whose `{` was taken, and its `}`.
#[tactic(auto, unfolding(crate::specs::Definitions::body_in))]
pub(crate) fn body(alloc: Global, args: u8, input: &mut Input) -> Result<Body, Refusal>
    ensures gives { Gives (λ body. read body input.new) result (body_in args input.old) }
    ensures end { OnOk result (input.new.end ≡ input.old.end) }
    ensures shorter { OnOk result (length input.new.rest < length input.old.rest) }
{
    let Some(written) = input.group()? else {
        return Err(misfit(input.end()).into());
    };
    Body::parse(alloc, args, &written)
}
