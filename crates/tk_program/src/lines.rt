//! The lines that `err` takes.

ghost use Rattle.std.specs.Prelude.{◌≡◌, IfOk, string_bytes};
ghost use Rattle.tk_program.specs.Lines as text;

use std::alloc::{AllocError, Global};
use tk_render::Placed;
use tk_token::Code;

/// The names of the faults, in the order of their variants.
static CODE_NAMES: [&str; 36] = [
    "NotUtf8",
    "BadChar",
    "Brace",
    "TooDeep",
    "TooLarge",
    "DivZero",
    "Domain",
    "Expression",
    "Singular",
    "HandlerValue",
    "MacroSyntax",
    "MacroArg",
    "Budget",
    "Levels",
    "KeyDepth",
    "UnknownKey",
    "ValueRequired",
    "ValueForbidden",
    "UnknownChoice",
    "NotASetting",
    "Colour",
    "LoopSyntax",
    "LoopItem",
    "NoAnchor",
    "NoGlyph",
    "TextCommand",
    "Math",
    "Coordinate",
    "NoNode",
    "PathSyntax",
    "UnknownCommand",
    "EndMismatch",
    "NoPicture",
    "Font",
    "TooLong",
    "Unbuilt",
];

fn code_name(code: Code) -> &'static str
    ensures { result.now ≡ text.code_name code }
{
    CODE_NAMES[code as usize]
}

/// `FILE:LINE:COLUMN: FAULT`, ended by LF.
#[tactic(auto, using(std::proofs::Common::append_assoc), unfolding(crate::specs::Lines::placed_line))]
pub(crate) fn fault_line(alloc: Global, file: &str, fault: Placed) -> Result<String, AllocError>
    ensures { IfOk result (λ line.
        string_bytes line ≡ text.placed_line file.now fault.line fault.column fault.code) }
{
    let Placed { code, line, column } = fault;
    let name = code_name(code);
    format!(in alloc; "{file}:{line}:{column}: {name}\n")
}

/// `FILE: ReadFault`, ended by LF.
pub(crate) fn read_fault_line(alloc: Global, file: &str) -> Result<String, AllocError>
    ensures { IfOk result (λ line. string_bytes line ≡ text.read_fault_line file.now) }
{
    format!(in alloc; "{file}: ReadFault\n")
}
