//! The commands of a picture.

ghost use Rattle.std.specs.Prelude.{◌≡◌, ◌<◌, ◌≤◌, ◌+◌, length, OnOk};
ghost use Rattle.tk_token.specs.Refusals.{Gives};
ghost use Rattle.tk_picture.specs.Commands.{BlockOpener as AnOpener, place_of_opener, Begins_path, Opens_group};
ghost use Rattle.tk_picture.specs.Commands.{Begins_environment, Begins_other, begun_by, beginning_of, named_or};
ghost use Rattle.tk_picture.specs.Commands.{end_behind, styled_commands, block, command, command_at, commands};
ghost use Rattle.tk_expand.specs.Reading.{after_name};
ghost use Rattle.tk_expand.specs.Tells.{Tells};
ghost use Rattle.tk_expand.specs.Unread.{Unread};
ghost use Rattle.tk_keys.specs.State.{Keeps, most_undone};
ghost use Rattle.tk_path.specs.Keys.{with_style_and_options};
ghost use Rattle.tk_path.specs.Undoing.{most_steps, with_taken};
ghost use Rattle.tk_path.specs.Views.{style_name, given_to, IsSound, KeepsDrawn};
ghost use Rattle.tk_picture.specs.Beginnings.{plain, path_begun, whole_path};
ghost use Rattle.tk_picture.specs.Views.{place_of_run, progress_of, flow_of, opener_of, begun_of, RunsFew, BeginsFew};

use crate::unbuilt;
use std::sync::ledger::Ledger;
use tk_expand::Input;
use tk_path::{Drawer, Flow, Style};
use tk_store::Steps;
use tk_token::{Code, Fault, Kind, Refusal, Tok};

/// What commands stand in, with its place.
#[derive(Clone, Copy)]
pub(crate) enum BlockOpener {
    /// A picture, up to its `\end{tikzpicture}`.
    Picture(u32),
    /// A scope, up to its `\end{scope}`.
    Scope(u32),
    /// A group, up to its `}`.
    Group(u32),
}

/// What a token begins among the commands of a picture.
#[derive(Clone, Copy)]
pub(crate) enum Beginning {
    /// A path, with the keys that its command stands for.
    Path(&'static str),
    OpenGroup,
    CloseGroup,
    BeginEnvironment,
    EndEnvironment,
    /// A command that isn't built.
    Later,
    /// A setting, or no command.
    Other,
}

impl BlockOpener {
    /// Where it stands.
    fn place(self) -> u32
        ensures { result ≡ place_of_opener (opener_of self) }
    {
        match self {
            BlockOpener::Picture(at) | BlockOpener::Scope(at) | BlockOpener::Group(at) => at,
        }
    }
}

/// Runs commands, up to the end of what they stand in.
#[cycle(commands)]
pub(crate) fn commands<L: Ledger>(
    drawer: &mut Drawer,
    input: &mut Input,
    opener: BlockOpener,
    steps: &mut Steps<L>,
) -> Result<(), Refusal>
    requires sound { IsSound drawer.old }
    ensures gives { Gives (λ _. progress_of drawer.new input.new) result
        (commands (given_to drawer.old)
        (block (opener_of opener) (place_of_run drawer.old input.old))) }
    ensures sound { OnOk result (IsSound drawer.new) }
    ensures kept { OnOk result (Keeps drawer.old.state drawer.new.state) }
    ensures high { steps.new ≤ most_steps steps.old drawer.old (length input.old.rest) }
    ensures most { OnOk result (most_steps steps.new drawer.new (length input.new.rest)
        ≤ most_steps steps.old drawer.old (length input.old.rest)) }
{
    loop {
        let first = drawer.ahead(input)?;
        match command_at(drawer, input, opener, first, steps)? {
            Flow::GoesOn => {}
            Flow::Finishes => return Ok(()),
        }
    }
}

/// Runs the command that begins with a token which was taken.
#[cycle(commands)]
fn command_at<L: Ledger>(
    drawer: &mut Drawer,
    input: &mut Input,
    opener: BlockOpener,
    first: Option<Tok>,
    steps: &mut Steps<L>,
) -> Result<Flow, Refusal>
    requires sound { IsSound drawer.old }
    ensures gives { Gives (flow_of drawer.new input.new) result
        (command_at (given_to drawer.old) (commands (given_to drawer.old)) (opener_of opener) first
        (place_of_run drawer.old input.old)) }
    ensures sound { OnOk result (IsSound drawer.new) }
    ensures kept { OnOk result (Keeps drawer.old.state drawer.new.state) }
    ensures high { steps.new ≤ most_steps steps.old drawer.old (with_taken first input.old) }
    ensures most { OnOk result (most_steps steps.new drawer.new (length input.new.rest)
        ≤ most_steps steps.old drawer.old (with_taken first input.old)) }
{
    match first {
        Some(tok) => command(
            drawer,
            input,
            opener,
            beginning_at(drawer, tok.kind),
            tok,
            steps,
        ),
        None => Err(Refusal::new(Code::EndMismatch, opener.place())),
    }
}

/// Runs one command, whose first token was taken.
#[cycle(commands)]
fn command<L: Ledger>(
    drawer: &mut Drawer,
    input: &mut Input,
    opener: BlockOpener,
    beginning: Beginning,
    first: Tok,
    steps: &mut Steps<L>,
) -> Result<Flow, Refusal>
    requires sound { IsSound drawer.old }
    requires few { BeginsFew beginning }
    ensures gives { Gives (flow_of drawer.new input.new) result
        (command (given_to drawer.old) (commands (given_to drawer.old)) (begun_of beginning) first
        (opener_of opener)
        (place_of_run drawer.old input.old)) }
    ensures sound { OnOk result (IsSound drawer.new) }
    ensures kept { OnOk result (Keeps drawer.old.state drawer.new.state) }
    ensures high { steps.new ≤ most_steps steps.old drawer.old (length input.old.rest + 1) }
    ensures most { OnOk result (most_steps steps.new drawer.new (length input.new.rest)
        ≤ most_steps steps.old drawer.old (length input.old.rest + 1)) }
{
    match beginning {
        Beginning::Path(keys) => draw_path(drawer, input, keys, first, steps),
        Beginning::OpenGroup => group(drawer, input, first, steps),
        Beginning::CloseGroup => match opener {
            BlockOpener::Group(_) => Ok(Flow::Finishes),
            _ => Err(Refusal::new(Code::EndMismatch, first.at)),
        },
        Beginning::BeginEnvironment => scope(drawer, input, first, steps),
        Beginning::EndEnvironment => {
            expect_end(input, opener, first.at)?;
            Ok(Flow::Finishes)
        }
        Beginning::Later => Err(unbuilt(first.at).into()),
        Beginning::Other => set(drawer, input, first, steps),
    }
}

/// Runs a scope, whose `\begin` was taken, in a level of its own.
#[cycle(commands)]
fn scope<L: Ledger>(
    drawer: &mut Drawer,
    input: &mut Input,
    first: Tok,
    steps: &mut Steps<L>,
) -> Result<Flow, Refusal>
    requires sound { IsSound drawer.old }
    ensures gives { (opener : AnOpener) → Gives (flow_of drawer.new input.new) result
        (command (given_to drawer.old)
        (commands (given_to drawer.old)) Begins_environment first opener
        (place_of_run drawer.old input.old)) }
    ensures sound { OnOk result (IsSound drawer.new) }
    ensures kept { OnOk result (Keeps drawer.old.state drawer.new.state) }
    ensures high { steps.new ≤ most_steps steps.old drawer.old (length input.old.rest + 1) }
    ensures most { OnOk result (most_steps steps.new drawer.new (length input.new.rest)
        ≤ most_steps steps.old drawer.old (length input.old.rest + 1)) }
{
    expect_named(input, Code::UnknownCommand, first.at, b"scope")?;
    drawer.state.open(first.at)?;
    styled_commands(
        drawer,
        input,
        Style::EveryScope,
        BlockOpener::Scope(first.at),
        steps,
    )?;
    drawer.state.close(steps);
    Ok(Flow::GoesOn)
}

/// Runs a style by itself, options, and the commands behind them.
#[cycle(commands)]
pub(crate) fn styled_commands<L: Ledger>(
    drawer: &mut Drawer,
    input: &mut Input,
    style: Style,
    opener: BlockOpener,
    steps: &mut Steps<L>,
) -> Result<(), Refusal>
    requires sound { IsSound drawer.old }
    ensures gives { Gives (λ _. progress_of drawer.new input.new) result
        (styled_commands (given_to drawer.old) (commands (given_to drawer.old)) (style_name style)
        (opener_of opener)
        (place_of_run drawer.old input.old)) }
    ensures sound { OnOk result (IsSound drawer.new) }
    ensures kept { OnOk result (Keeps drawer.old.state drawer.new.state) }
    ensures high { steps.new ≤ most_steps steps.old drawer.old (length input.old.rest + 1) }
    ensures most { OnOk result (most_steps steps.new drawer.new (length input.new.rest)
        ≤ most_steps steps.old drawer.old (length input.old.rest + 1)) }
{
    run_styled(drawer, input, style, opener.place(), steps)?;
    commands(drawer, input, opener, steps)
}

/// Runs what a picture or a scope begins with, whose command stands at a place: a style by itself, and options.
#[tactic(auto, using(tk_expr::proofs::Runs::evaluated_is_the_answer))]
fn run_styled<L: Ledger>(
    drawer: &mut Drawer,
    input: &mut Input,
    style: Style,
    at: u32,
    steps: &mut Steps<L>,
) -> Result<(), Refusal>
    ensures gives { Gives (λ _. place_of_run drawer.new input.new) result
        (with_style_and_options (given_to drawer.old) at (style_name style)
        (place_of_run drawer.old input.old)) }
    ensures kept { OnOk result (KeepsDrawn drawer.old drawer.new) }
    ensures high { steps.new ≤ most_steps steps.old drawer.old (length input.old.rest + 1) }
    ensures most { OnOk result (most_steps steps.new drawer.new (length input.new.rest)
        ≤ most_steps steps.old drawer.old (length input.old.rest + 1)) }
{
    drawer.run_style_and_options(input, style, at, steps)
}

/// Runs the commands of a group, whose `{` was taken, in a level of their own.
#[cycle(commands)]
fn group<L: Ledger>(
    drawer: &mut Drawer,
    input: &mut Input,
    first: Tok,
    steps: &mut Steps<L>,
) -> Result<Flow, Refusal>
    requires sound { IsSound drawer.old }
    ensures gives { (opener : AnOpener) → Gives (flow_of drawer.new input.new) result
        (command (given_to drawer.old) (commands (given_to drawer.old)) Opens_group first opener
        (place_of_run drawer.old input.old)) }
    ensures sound { OnOk result (IsSound drawer.new) }
    ensures kept { OnOk result (Keeps drawer.old.state drawer.new.state) }
    ensures high { steps.new ≤ most_steps steps.old drawer.old (length input.old.rest + 1) }
    ensures most { OnOk result (most_steps steps.new drawer.new (length input.new.rest)
        ≤ most_steps steps.old drawer.old (length input.old.rest + 1)) }
{
    drawer.state.open(first.at)?;
    commands(drawer, input, BlockOpener::Group(first.at), steps)?;
    drawer.state.close(steps);
    Ok(Flow::GoesOn)
}

/// Draws a path, whose command was taken and stands for those keys, in a level of its own.
fn draw_path<L: Ledger>(
    drawer: &mut Drawer,
    input: &mut Input,
    keys: &str,
    first: Tok,
    steps: &mut Steps<L>,
) -> Result<Flow, Refusal>
    requires sound { IsSound drawer.old }
    requires few { RunsFew keys.now }
    ensures gives { (opener : AnOpener) → Gives (flow_of drawer.new input.new) result
        (command (given_to drawer.old) (commands (given_to drawer.old))
        (Begins_path keys.now) first opener
        (place_of_run drawer.old input.old)) }
    ensures sound { OnOk result (IsSound drawer.new) }
    ensures kept { OnOk result (Keeps drawer.old.state drawer.new.state) }
    ensures high { steps.new ≤ most_steps steps.old drawer.old (length input.old.rest + 1) }
    ensures most { OnOk result (most_steps steps.new drawer.new (length input.new.rest)
        ≤ most_steps steps.old drawer.old (length input.old.rest + 1)) }
{
    drawer.state.open(first.at)?;
    whole_path(drawer, input, keys, first.at, steps)?;
    drawer.state.close(steps);
    Ok(Flow::GoesOn)
}

/// Draws a path from behind its command, which stands at a place and has those keys.
#[tactic(auto, unfolding(crate::specs::Beginnings::whole_path), using(tk_expr::proofs::Runs::evaluated_is_the_answer))]
fn whole_path<L: Ledger>(
    drawer: &mut Drawer,
    input: &mut Input,
    keys: &str,
    at: u32,
    steps: &mut Steps<L>,
) -> Result<(), Refusal>
    requires sound { IsSound drawer.old }
    requires few { RunsFew keys.now }
    ensures gives { Gives (λ _. place_of_run drawer.new input.new) result
        (whole_path (given_to drawer.old) keys.now at (place_of_run drawer.old input.old)) }
    ensures sound { OnOk result (IsSound drawer.new) }
    ensures kept { OnOk result (Keeps drawer.old.state drawer.new.state) }
    ensures high { steps.new ≤ most_steps steps.old drawer.old (length input.old.rest + 1) }
    ensures most { OnOk result (most_steps steps.new drawer.new (length input.new.rest)
        ≤ most_steps steps.old drawer.old (length input.old.rest + 1)) }
{
    begin_path(drawer, keys, at, steps)?;
    drawer.run_path(input, steps)
}

/// Runs what a path begins with, whose command stands at a place and has those keys.
#[tactic(auto, unfolding(crate::specs::Beginnings::path_begun))]
fn begin_path<L: Ledger>(
    drawer: &mut Drawer,
    keys: &str,
    at: u32,
    steps: &mut Steps<L>,
) -> Result<(), Refusal>
    requires few { RunsFew keys.now }
    ensures gives { (rest : Unread) → Gives (λ _. place_of_run drawer.new rest) result
        (path_begun (given_to drawer.old) keys.now at (place_of_run drawer.old rest)) }
    ensures kept { OnOk result (KeepsDrawn drawer.old drawer.new) }
    ensures used { OnOk result (drawer.old.state.units ≤ drawer.new.state.units) }
    ensures high { steps.new ≤ most_undone steps.old drawer.old.state 3 }
    ensures most { OnOk result (most_undone steps.new drawer.new.state 0
        ≤ most_undone steps.old drawer.old.state 3) }
{
    unpaint(drawer);
    drawer.run_style(Style::EveryPath, at, steps)?;
    drawer.run_written(keys, at, steps)
}

/// Has nothing drawn or filled.
fn unpaint(drawer: &mut Drawer)
    ensures gives { (rest : Unread) → place_of_run drawer.new rest
        ≡ plain (place_of_run drawer.old rest) }
    ensures kept { KeepsDrawn drawer.old drawer.new }
    ensures made { drawer.new.state.levels.top.settings ≡ drawer.old.state.levels.top.settings }
    ensures paid { drawer.new.state.units ≡ drawer.old.state.units }
{
    drawer.state.set_paint(false, false);
}

/// Runs the setting that begins with a token which was taken; nothing else is a command.
#[tactic(auto, using(tk_expr::proofs::Runs::evaluated_is_the_answer))]
fn set<L: Ledger>(
    drawer: &mut Drawer,
    input: &mut Input,
    first: Tok,
    steps: &mut Steps<L>,
) -> Result<Flow, Refusal>
    requires sound { IsSound drawer.old }
    ensures gives { (opener : AnOpener) → Gives (flow_of drawer.new input.new) result
        (command (given_to drawer.old) (commands (given_to drawer.old)) Begins_other first opener
        (place_of_run drawer.old input.old)) }
    ensures sound { OnOk result (IsSound drawer.new) }
    ensures kept { OnOk result (Keeps drawer.old.state drawer.new.state) }
    ensures high { steps.new ≤ most_steps steps.old drawer.old (length input.old.rest + 1) }
    ensures most { OnOk result (most_steps steps.new drawer.new (length input.new.rest)
        ≤ most_steps steps.old drawer.old (length input.old.rest + 1)) }
{
    if drawer.state.run_one(first, input, steps)? {
        Ok(Flow::GoesOn)
    } else {
        Err(Refusal::new(Code::UnknownCommand, first.at))
    }
}

/// What a token begins among the commands of a picture.
fn beginning_at(drawer: &Drawer, kind: Kind) -> Beginning
    ensures begun { begun_of result ≡ beginning_of drawer.now.state.names kind }
    ensures few { BeginsFew result }
{
    match kind {
        Kind::Word(n) => match drawer.state.names().word(n) {
            Some(word) => begun_by(word),
            None => Beginning::Other,
        },
        Kind::Open => Beginning::OpenGroup,
        Kind::Close => Beginning::CloseGroup,
        _ => Beginning::Other,
    }
}

/// What a control word begins.
#[tactic(auto, using(crate::proofs::SettingsLeft::none_few, crate::proofs::SettingsLeft::draw_few, crate::proofs::SettingsLeft::fill_few, crate::proofs::SettingsLeft::both_few))]
fn begun_by(word: &str) -> Beginning
    ensures begun { begun_of result ≡ begun_by word.now }
    ensures few { BeginsFew result }
{
    match word {
        "path" => Beginning::Path(""),
        "draw" => Beginning::Path("draw"),
        "fill" => Beginning::Path("fill"),
        "filldraw" => Beginning::Path("draw,fill"),
        "begin" => Beginning::BeginEnvironment,
        "end" => Beginning::EndEnvironment,
        "node" | "coordinate" | "foreach" => Beginning::Later,
        _ => Beginning::Other,
    }
}

/// Asks that a name in braces is next; else that fault stands at a place.
fn expect_named(input: &mut Input, code: Code, at: u32, name: &[u8]) -> Result<(), Fault>
    ensures gives { Tells
        (λ _. input.new) result (named_or code at (after_name code name.now input.old)) }
    ensures shorter { OnOk result (length input.new.rest < length input.old.rest) }
{
    match input.expect_name(code, name) {
        Ok(()) => Ok(()),
        Err(_) => Err(Fault::new(code, at)),
    }
}

/// Reads what stands behind an `\end` at a place, which has to end what commands stand in.
fn expect_end(input: &mut Input, opener: BlockOpener, at: u32) -> Result<(), Fault>
    ensures gives { Tells (λ _. input.new) result (end_behind at (opener_of opener) input.old) }
    ensures shorter { OnOk result (length input.new.rest < length input.old.rest) }
{
    match opener {
        BlockOpener::Picture(_) => expect_named(input, Code::EndMismatch, at, b"tikzpicture"),
        BlockOpener::Scope(_) => expect_named(input, Code::EndMismatch, at, b"scope"),
        BlockOpener::Group(_) => Err(Fault::new(Code::EndMismatch, at)),
    }
}
