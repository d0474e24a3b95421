//! Whole sources.

ghost use Rattle.std.specs.Prelude.{◌≡◌, ◌≤◌, ◌+◌, ◌*◌, List, Ok, Err, length, take, IfOk, IfErr, OnOk, IfSome, codes, unwrap_or};
ghost use Rattle.std.specs.Str.{IsUtf8};
ghost use Rattle.tk_item.specs.Frame.{IsProperFrame};
ghost use Rattle.tk_svg.specs.Fitting.{Fits};
ghost use Rattle.tk_token.specs.Refusals.{Gives, OnFault};
ghost use Rattle.tk_token.specs.Spaces.{after_spaces};
ghost use Rattle.tk_expand.specs.Tells.{Tells};
ghost use Rattle.tk_picture.specs.declared.Compiled.{Compiled as ACompiled};
ghost use Rattle.tk_picture.specs.Documents.{is_word, no_frame, compiled, nothing_after, picture_behind, document};
ghost use Rattle.tk_picture.specs.Outcome.{IsOutcome, font_units};
ghost use Rattle.tk_outline.specs.CurrentPaths.{no_path};
ghost use Rattle.tk_path.specs.Undoing.{most_steps};
ghost use Rattle.tk_path.specs.Views.{given_to, picture_of, IsSound};
ghost use Rattle.tk_picture.specs.Views.{IsNew};

use crate::commands::{BlockOpener, styled_commands};
use crate::{Asked, Compiled, unbuilt};
use std::alloc::{AllocError, Global};
use std::sync::ledger::Ledger;
use tk_expand::Input;
use tk_expr::FontUnits;
use tk_item::{Drawing, Frame, Items, Text};
use tk_keys::State;
use tk_num::{ONE, Scaled};
use tk_path::{Drawer, Style};
use tk_store::{Body, Steps};
use tk_token::{Code, Fault, Kind, Lexed, Refusal, Tok, lex};

/// A font size of 10pt.
const FONT_SIZE: i64 = 10 * ONE;

/// An em of that font, in scaled points.
const EM: i64 = 655_360;

/// An ex of that font, 4.3pt.
const EX: i64 = 281_805;

/// The drawing of a source, and the units that it costs: `\begin{tikzpicture}`, options in brackets or none, commands
/// and `\end{tikzpicture}`, with nothing but Spaces round them. A command is a path, a scope, a setting or a group;
/// settings are the definitions of macros, of keys and of styles. It takes time and memory linear in the source's
/// length and the units, and for a power time linear in its exponent. docs/LANGUAGE.md has the language.
///
/// A path has coordinates, operations, options and groups, up to its `;`. The look at the `;` says how it is drawn and
/// filled; with pieces it widens the frame even where it is neither. Picture, scope, group and path are levels: what is
/// set in one ends with it. A picture runs the style `every picture` before its options, a scope `every scope`, and a
/// path `every path` and then the keys of its command. Options set the look, or put a step behind those of the
/// transformation.
///
/// Macro calls are expanded, and paid for out of the budget, as the code of keys is: one unit more than the tokens of
/// the text. A line of a grid costs a unit. A coordinate ends, as it is written, at the first `)` outside braces, and
/// is then expanded. A number without a unit counts the vectors `x` and `y` of the look, which are 1cm long unless a
/// key sets them, and the transformation of that moment takes the point to its place.
///
/// A source that stands for no drawing is refused at its first fault: first those of `lex`, then those of running it
/// from the front on.
///
/// - `MacroSyntax` comes at the first token that doesn't fit a definition, or at the source's length, `MacroArg` at the
///   word of a call that lacks an argument, and `Budget` at what can't be paid: a call, the part of a key, or a grid.
/// - Those of keys stand at the part of their key list, and those of its code in the code; `KeyDepth` stands at the
///   command that would run a 257th key list.
/// - `Levels` comes at the command, the `{` or the `[` that would open a 129th level.
/// - `UnknownCommand` comes at the first token of what is no command, and at a `\begin` of another name.
/// - `EndMismatch` comes at an `\end` or `}` that doesn't end what was opened last, and at what was opened last where
///   the source ends before it.
/// - Those of a path are told at `Drawer::run_path`, and those of a coordinate at `resolve`.
/// - `Expression`, `TooDeep`, `TooLarge`, `DivZero` and `Domain` come in an expression. `TooLarge` also comes at the
///   `(` of a coordinate whose lengths or whose point are out of range, and at the part of a key that makes a number of
///   the transformation so.
/// - `Unbuilt` comes before the picture and behind it at the first token with which no source of the form goes on, at
///   the source's length where it ends outside the picture, and at `\node`, `\coordinate` and `\foreach`.
pub fn compile<L: Ledger>(
    alloc: Global,
    source: &[u8],
    asked: Asked,
    steps: &mut Steps<L>,
) -> Result<Compiled, Refusal>
    requires short { length source.now ≤ 16777216 }
    requires few { asked.budget ≤ 20000000 }
    ensures compiled { IfOk result (λ c. IsOutcome asked source.now (Ok c)) }
    ensures fault { IfErr result (λ e. OnFault e (λ f. IsOutcome asked source.now (Err f))) }

    // The drawing can be written as a document, and a fault has a line and a column.
    ensures fits { IfOk result (λ c. Fits c.drawing) }
    ensures place { IfErr result (λ e. OnFault e (λ f. f.at ≤ length source.now)) }
    ensures text { IfErr result (λ e. OnFault e (λ f. IsUtf8 (take f.at source.now))) }

    // A step is one setting that is undone, where a level ends; this holds of a fault too.
    ensures work { steps.new ≤ steps.old + 9 * (length source.now + asked.budget) }
{
    let family = family(alloc)?;
    let Lexed { toks, names } = lex(alloc, source)?;
    let mut input = Input::new(alloc, Body::from_vec(toks)?, source.len() as u32)?;
    let mut drawer = Drawer {
        state: State::new(alloc, names, font_units(), asked.budget)?,
        items: Items::new(alloc),
        frame: None,
    };
    document(&mut drawer, &mut input, steps)?;
    Ok(compiled(drawer, family))
}

/// Draws the picture of a whole source.
#[tactic(auto, unfolding(crate::specs::Documents::document))]
fn document<L: Ledger>(
    drawer: &mut Drawer,
    input: &mut Input,
    steps: &mut Steps<L>,
) -> Result<(), Refusal>
    requires { IsNew drawer.old }
    ensures gives { Gives
        (λ _. compiled (picture_of drawer.new no_path) drawer.new.state.units) result
        (document (given_to drawer.old) input.old) }
    ensures sound { OnOk result (IsSound drawer.new) }
    ensures work { steps.new ≤ most_steps steps.old drawer.old (length input.old.rest) }
{
    input.skip_spaces();
    let begin = input.token(Code::Unbuilt)?;
    if !is_word(drawer, begin.kind, "begin") {
        return Err(unbuilt(begin.at).into());
    }
    picture(drawer, input, begin.at, steps)
}

/// Draws the picture behind a `\begin` at that place, with nothing behind it.
#[tactic(auto, unfolding(crate::specs::Documents::picture_behind))]
fn picture<L: Ledger>(
    drawer: &mut Drawer,
    input: &mut Input,
    at: u32,
    steps: &mut Steps<L>,
) -> Result<(), Refusal>
    requires { IsNew drawer.old }
    ensures gives { Gives
        (λ _. compiled (picture_of drawer.new no_path) drawer.new.state.units) result
        (picture_behind (given_to drawer.old) at input.old) }
    ensures sound { OnOk result (IsSound drawer.new) }
    ensures work { steps.new ≤ most_steps steps.old drawer.old (length input.old.rest) }
{
    input.expect_name(Code::Unbuilt, b"tikzpicture")?;
    drawer.state.open(at)?;
    styled_commands(
        drawer,
        input,
        Style::EveryPicture,
        BlockOpener::Picture(at),
        steps,
    )?;
    Ok(expect_nothing(input)?)
}

/// Whether a token is that control word.
fn is_word(drawer: &Drawer, kind: Kind, wanted: &str) -> bool
    ensures { result ≡ is_word drawer.now.state.names wanted.now kind }
{
    match kind {
        Kind::Word(n) => match drawer.state.names().word(n) {
            Some(word) => word == wanted,
            None => wanted.is_empty(),
        },
        _ => false,
    }
}

/// Asks that nothing is left but Spaces.
fn expect_nothing(input: &mut Input) -> Result<(), Fault>
    ensures { (c : ACompiled) → Tells
        (λ _. c) result (nothing_after c (after_spaces input.old.rest)) }
{
    input.skip_spaces();
    match input.raw() {
        Some(tok) => Err(unbuilt(tok.at)),
        None => Ok(()),
    }
}

/// What a picture has drawn and paid, with the name of the font.
fn compiled(drawer: Drawer, family: Text) -> Compiled
    requires sound { IsSound drawer }
    requires family { family ≡ codes "monospace" }
    ensures compiled { result ≡ compiled (picture_of drawer no_path) drawer.state.units }
    ensures fits { Fits result.drawing }
{
    let units = drawer.state.used();
    let Drawer { items, frame, .. } = drawer;
    Compiled {
        drawing: Drawing {
            frame: whole_frame(frame),
            family,
            size: Scaled::within(FONT_SIZE),
            items,
        },
        units,
    }
}

/// The name of the font.
fn family(alloc: Global) -> Result<Text, AllocError>
    ensures { IfOk result (λ text. text ≡ codes "monospace") }
{
    let mut text = Text::new(alloc);
    for byte in b"monospace" {
        text.push(char::from(*byte))?;
    }
    Ok(text)
}

/// The units of the font.
fn font_units() -> FontUnits
    ensures { result ≡ font_units }
{
    FontUnits {
        em: Scaled::within(EM),
        ex: Scaled::within(EX),
    }
}

/// The frame of a drawing, which is all 0 where nothing was drawn.
fn whole_frame(frame: Option<Frame>) -> Frame
    requires { IfSome frame IsProperFrame }
    ensures value { result ≡ unwrap_or frame no_frame }
    ensures proper { IsProperFrame result }
{
    match frame {
        Some(frame) => frame,
        None => Frame {
            left: 0,
            bottom: 0,
            right: 0,
            top: 0,
        },
    }
}
