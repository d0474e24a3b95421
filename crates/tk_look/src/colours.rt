//! Colours by their texts.

ghost use Rattle.std.specs.Prelude.{◌≡◌, ◌≤◌, ◌<◌, ◌∷◌, length, map, option_copied, IfSome, MatchOption, None};
ghost use Rattle.tk_characters.specs.Words.{word_meaning};
ghost use Rattle.tk_look.specs.Colours as spec;
ghost use Rattle.tk_look.specs.Pieces.{pieces_behind};

use tk_item::Rgb;
use tk_num::read_decimal;

/// The colours that have a name, by red, green and blue.
static COLOURS: [(&str, u8, u8, u8); 19] = [
    ("red", 255, 0, 0),
    ("green", 0, 255, 0),
    ("blue", 0, 0, 255),
    ("cyan", 0, 255, 255),
    ("magenta", 255, 0, 255),
    ("yellow", 255, 255, 0),
    ("black", 0, 0, 0),
    ("white", 255, 255, 255),
    ("gray", 128, 128, 128),
    ("darkgray", 64, 64, 64),
    ("lightgray", 191, 191, 191),
    ("brown", 191, 128, 64),
    ("lime", 191, 255, 0),
    ("olive", 128, 128, 0),
    ("orange", 255, 128, 0),
    ("pink", 255, 191, 191),
    ("purple", 191, 0, 64),
    ("teal", 0, 128, 128),
    ("violet", 128, 0, 128),
];

/// The colour that has that name in a table.
fn colour_among(table: &[(&str, u8, u8, u8)], name: &str) -> Option<Rgb>
    ensures { result
        ≡ word_meaning (map (λ row. (row.0.now, spec.rgb row.1 row.2 row.3)) table.now) name.now }
{
    for (text, r, g, b) in table {
        if name == *text {
            return Some(rgb(*r, *g, *b));
        }
    }
    None
}

/// The colour of that name.
fn colour_named(name: &str) -> Option<Rgb>
    ensures { result ≡ spec.colour_named name.now }
{
    colour_among(&COLOURS, name)
}

fn rgb(r: u8, g: u8, b: u8) -> Rgb
    ensures { result ≡ spec.rgb r g b }
{
    Rgb { r, g, b }
}

/// How much of a colour is taken, in 65536ths of a percent: a decimal from 0 to 100.
fn percentage(text: &str) -> Option<u64>
    ensures value { result ≡ spec.percentage text.now }
    ensures within { IfSome result (λ percent. percent ≤ 6553600) }
{
    let (whole, part) = read_decimal(text.as_bytes())?;
    let percent = whole as u64 * 65_536 + part as u64;
    if percent <= 6_553_600 {
        Some(percent)
    } else {
        None
    }
}

/// So many 65536ths of a percent of one part and the rest of another, to the nearest whole.
fn mixed_part(percent: u64, a: u8, b: u8) -> u8
    requires { percent ≤ 6553600 }
    ensures { result ≡ spec.mixed_part percent a b }
{
    let sum = u64::from(a) * percent + u64::from(b) * (6_553_600 - percent);
    ((sum + 3_276_800) / 6_553_600) as u8
}

/// So much of one colour and the rest of another.
fn mixed(percent: u64, c: Rgb, d: Rgb) -> Rgb
    requires { percent ≤ 6553600 }
    ensures { result ≡ spec.mixed percent c d }
{
    rgb(
        mixed_part(percent, c.r, d.r),
        mixed_part(percent, c.g, d.g),
        mixed_part(percent, c.b, d.b),
    )
}

/// What stands before the first `!`, and what stands behind it if there is one.
fn first_piece(text: &str) -> (&str, Option<&str>)
    ensures pieces { spec.pieces_between text.now
        ≡ result.0.now ∷ pieces_behind (option_copied result.1) }
    ensures shorter { IfSome result.1 (λ rest. length rest.now < length text.now) }
{
    match text.split_once('!') {
        Some((front, rest)) => (front, Some(rest)),
        None => (text, None),
    }
}

/// A colour mixed with that of the first of the pieces that follow, and the pieces behind those.
fn mix_first<'a>(so_far: Rgb, pieces: &'a str) -> Option<(Rgb, Option<&'a str>)>
    ensures mixes { MatchOption result
        (spec.mixed_with so_far (spec.pieces_between pieces.now) ≡ None)
        (λ next. spec.mixed_with so_far (spec.pieces_between pieces.now)
        ≡ spec.mixed_with next.0 (pieces_behind (option_copied next.1))) }
    ensures shorter { IfSome result
        (λ next. IfSome next.1 (λ rest. length rest.now < length pieces.now)) }
{
    let (share, behind) = first_piece(pieces);
    let percent = percentage(share)?;
    match behind {
        Some(rest) => {
            let (name, behind) = first_piece(rest);
            Some((mixed(percent, so_far, colour_named(name)?), behind))
        }
        None => Some((mixed(percent, so_far, rgb(255, 255, 255)), None)),
    }
}

/// The colour of a text: the name of a colour, and behind it any number of times `!`, a decimal from 0 to 100, `!` and
/// a name. The decimal says how many percent of the colour so far are taken, the rest is of that name; at the end of
/// the text it may stand alone, and the rest is white. None where the text isn't of this form. This takes no memory.
#[tactic(auto, unfolding(crate::specs::Colours::colour_of))]
pub fn colour(text: &str) -> Option<Rgb>
    ensures { result ≡ spec.colour_of text.now }
{
    let (name, mut behind) = first_piece(text);
    let mut so_far = colour_named(name)?;
    while let Some(pieces) = behind {
        let (mixed, rest) = mix_first(so_far, pieces)?;
        so_far = mixed;
        behind = rest;
    }
    Some(so_far)
}
