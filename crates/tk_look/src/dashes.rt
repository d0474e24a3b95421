//! Dash patterns.

ghost use Rattle.std.specs.Prelude.{◌≡◌, ◌≤ℤ◌, pos, length, is_some, option_map, option_copied, codes, true, IfOk};
ghost use Rattle.tk_look.specs.Views.{dash_seen};
ghost use Rattle.tk_token.specs.Groups.{cut};
ghost use Rattle.tk_expr.specs.Evaluated.{evaluated};
ghost use Rattle.tk_look.specs.Dashes as spec;

use tk_expr::{FontUnits, eval};
use tk_item::Dashes;
use tk_num::Scaled;
use tk_token::{Code, Fault, Sought, Tok, after_spaces, begins_pair, begins_three, first_outside};

/// How many dashes a pattern has at most.
const MOST_DASHES: usize = 8;

/// A dash and the gap behind it: their texts, and what stands behind them.
#[derive(Clone, Copy)]
struct Dash<'a> {
    on: &'a [Tok],
    off: &'a [Tok],
    rest: &'a [Tok],
}

/// The tokens up to the next `on` or `off` outside braces, and those from there on.
fn up_to_word(list: &[Tok]) -> (&[Tok], &[Tok])
    ensures { cut result.0.now result.1.now ≡ spec.up_to_word list.now }
{
    match first_outside(list, Sought::Dash) {
        Some(found) => found,
        None => (list, &[]),
    }
}

/// The text behind an `on` in front, and what stands behind that text.
fn behind_on(list: &[Tok]) -> Option<(&[Tok], &[Tok])>
    ensures { option_map (λ found. cut found.0.now found.1.now) result
        ≡ spec.behind_word (codes "on") list.now }
{
    if !begins_pair(list, 'o', 'n') {
        return None;
    }
    Some(up_to_word(list.get(2..)?))
}

/// The same behind an `off`.
fn behind_off(list: &[Tok]) -> Option<(&[Tok], &[Tok])>
    ensures { option_map (λ found. cut found.0.now found.1.now) result
        ≡ spec.behind_word (codes "off") list.now }
{
    if !begins_three(list, 'o', 'f', 'f') {
        return None;
    }
    Some(up_to_word(list.get(3..)?))
}

/// The first dash of a pattern.
#[tactic(auto, unfolding(crate::specs::Dashes::dash_of))]
fn first_dash(list: &[Tok]) -> Option<Dash<'_>>
    ensures { option_map dash_seen result ≡ spec.dash_of list.now }
{
    let (on, rest) = behind_on(list)?;
    let (off, rest) = behind_off(rest)?;
    Some(Dash { on, off, rest })
}

/// Whether dashes stand one after another up to the end, at least one and at most eight.
fn are_dashes(list: &[Tok]) -> bool
    ensures { result ≡ is_some (spec.all_dashes 8 list.now) }
{
    let mut rest = list;
    for _ in 0..MOST_DASHES {
        let Some(dash) = first_dash(rest) else {
            return false;
        };
        if dash.rest.is_empty() {
            return true;
        }
        rest = dash.rest;
    }
    false
}

/// A length that isn't negative.
fn dash_length(list: &[Tok], font: FontUnits, at: u32) -> Result<Scaled, Fault>
    ensures value { result ≡ spec.dash_length at evaluated font list.now }
    ensures sign { IfOk result (λ length. pos 0 ≤ℤ length) }
{
    let length = eval(list, font, at)?.number;
    if length.sp() < 0 {
        return Err(Fault::new(Code::Domain, at));
    }
    Ok(length)
}

/// The lengths of dashes that stand one after another up to the end.
fn dash_lengths(list: &[Tok], font: FontUnits, at: u32) -> Result<Dashes, Fault>
    requires { is_some (spec.all_dashes 8 list.now) ≡ true }
    ensures { result ≡ spec.pattern_lengths at evaluated font list.now }
{
    let mut dashes = Dashes::new();
    let mut rest = list;
    for _ in 0..MOST_DASHES {
        let Some(dash) = first_dash(rest) else {
            break;
        };
        dashes.push(dash_length(dash.on, font, at)?);
        dashes.push(dash_length(dash.off, font, at)?);
        if dash.rest.is_empty() {
            return Ok(dashes);
        }
        rest = dash.rest;
    }
    Err(Fault::new(Code::Domain, at))
}

/// A value that is a pattern: `on`, a length, `off`, a length, and so on, at most eight times, with Spaces before them.
/// The words are asked before any length is read; `Domain` stands at `at`.
pub(crate) fn pattern_value(
    value: Option<&[Tok]>,
    font: FontUnits,
    at: u32,
) -> Result<Dashes, Fault>
    ensures { result ≡ spec.pattern_value at evaluated font (option_copied value.entry) }
{
    let Some(list) = value else {
        return Err(Fault::new(Code::ValueRequired, at));
    };
    let list = after_spaces(list);
    if !are_dashes(list) {
        return Err(Fault::new(Code::Domain, at));
    }
    dash_lengths(list, font, at)
}
