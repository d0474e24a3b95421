//! Definitions, read from behind their commands.

ghost use Rattle.std.specs.Prelude.{◌≡◌, ◌+◌, ◌-◌, ◌<◌, ◌≤◌, length, OnOk};
ghost use Rattle.tk_token.specs.Refusals.{Gives};
ghost use Rattle.tk_expand.specs.Expand.{stream};
ghost use Rattle.tk_expand.specs.Reading.{read};
ghost use Rattle.tk_define.specs.Definitions.{stands_for, def, new_command, edef, defined};

use crate::head::{count, name, parameters};
use crate::parts::{body, word};
use crate::{Definition, DefinitionWord};
use std::alloc::Global;
use tk_expand::{Input, Units, expand_all};
use tk_store::{Body, Macro, Store};
use tk_token::{Code, Refusal};

/// Takes a definition from behind its command, whose faults are `MacroSyntax` at the first token that doesn't fit, and
/// at the end of the list where it runs out before: `\def\h#2{}` is refused at its `2`. The body of an `\edef` is
/// expanded with the macros of the store, and each call is paid for; its faults there are `MacroArg` and `Budget` at
/// the word of a call.
pub fn read_definition(
    alloc: Global,
    command: DefinitionWord,
    input: &mut Input,
    store: &Store,
    units: &mut Units,
) -> Result<Definition, Refusal>
    ensures gives { Gives
        (λ definition. record { definition = definition; stream = stream units.new.used input.new })
        result
        (defined command units.old.budget store.now.top.macros (stream units.old.used input.old)) }
    ensures end { OnOk result (input.new.end ≡ input.old.end) }
    ensures budget { units.new.budget ≡ units.old.budget }
    ensures used { OnOk result (units.old.used ≤ units.new.used) }

    // At least one token is taken, so that less work is left than before.
    ensures work { OnOk result ((units.new.budget - units.new.used) + length input.new.rest
        < (units.old.budget - units.old.used) + length input.old.rest) }
{
    match command {
        DefinitionWord::Def => def(alloc, input),
        DefinitionWord::Edef => edef(alloc, input, store, units),
        DefinitionWord::NewCommand => new_command(alloc, input),
    }
}

/// Takes what stands behind `\def`.
#[tactic(auto, unfolding(crate::specs::Definitions::def))]
fn def(alloc: Global, input: &mut Input) -> Result<Definition, Refusal>
    ensures gives { Gives (λ definition. read definition input.new) result (def input.old) }
    ensures end { OnOk result (input.new.end ≡ input.old.end) }
    ensures shorter { OnOk result (length input.new.rest < length input.old.rest) }
{
    let word = word(input)?;
    let args = parameters(input)?;
    let body = body(alloc, args, input)?;
    Ok(stands_for(word, args, body))
}

/// Takes what stands behind `\newcommand`.
#[tactic(auto, unfolding(crate::specs::Definitions::new_command))]
fn new_command(alloc: Global, input: &mut Input) -> Result<Definition, Refusal>
    ensures gives { Gives (λ definition. read definition input.new) result (new_command input.old) }
    ensures end { OnOk result (input.new.end ≡ input.old.end) }
    ensures shorter { OnOk result (length input.new.rest < length input.old.rest) }
{
    let word = name(input)?;
    let args = count(input)?;
    let body = body(alloc, args, input)?;
    Ok(stands_for(word, args, body))
}

/// Takes what stands behind `\edef`, and expands its body.
#[tactic(auto, unfolding(crate::specs::Definitions::edef))]
fn edef(
    alloc: Global,
    input: &mut Input,
    store: &Store,
    units: &mut Units,
) -> Result<Definition, Refusal>
    ensures gives { Gives
        (λ definition. record { definition = definition; stream = stream units.new.used input.new })
        result
        (edef units.old.budget store.now.top.macros (stream units.old.used input.old)) }
    ensures end { OnOk result (input.new.end ≡ input.old.end) }
    ensures budget { units.new.budget ≡ units.old.budget }
    ensures used { OnOk result (units.old.used ≤ units.new.used) }
    ensures shorter { OnOk result (length input.new.rest < length input.old.rest) }
{
    let word = word(input)?;
    input.expect_open(Code::MacroSyntax)?;
    let written = body(alloc, 0, input)?;
    let written = Vec::from_slice(alloc, written.as_slice())?;
    let text = expand_all(alloc, written, store, units)?;
    Ok(stands_for(word, 0, Body::from_vec(text)?))
}

/// A word stands for a body with so many arguments.
fn stands_for(word: u32, args: u8, body: Body) -> Definition
    ensures { result ≡ stands_for word args body }
{
    Definition {
        word,
        value: Macro { args, body },
    }
}
