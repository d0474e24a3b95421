//! The values of attributes. Each call writes at the end of `out`, or runs out of memory. A clause `range`
//! hands on what the type of a part says of its numbers, which the meaning of the document rests on.

ghost use Rattle.std.specs.Prelude.{◌≡◌, ℕ, ◌+◌, ◌/◌, ◌%◌, ◌<◌, ◌∷◌, ◌++◌, [], OnOk, codes};
ghost use Rattle.std.specs.List.{AllByRecursion};
ghost use Rattle.tk_num.specs.Number.{IsScaled};
ghost use Rattle.tk_num.specs.Text.{text_of};
ghost use Rattle.tk_svgwrite.specs.Values.{numbers_text, numbers_of_point, piece_text, data_text, hex_glyph, rgb_text};
ghost use Rattle.tk_svgwrite.specs.Values.{rule_text, cap_text, join_text};
ghost use Rattle.tk_svgwrite.specs.Ranges.{PointInRange, PieceInRange, RgbInRange};

use arrayvec::ArrayVec;
use std::alloc::AllocError;
use tk_item::{Cap, Join, Point, Rgb, Rule, Seg};
use tk_num::{Digits, Scaled, push_text};

/// Writes a number.
pub(crate) fn put_number(out: &mut Vec<u8>, sp: i64) -> Result<(), AllocError>
    ensures { OnOk result (out.new.items ≡ out.old.items ++ text_of sp) }
{
    let mut digits: Digits = ArrayVec::new();
    push_text(&mut digits, sp);
    out.extend_from_slice(digits.as_slice())
}

/// The same of a scaled number.
pub(crate) fn put_scaled(out: &mut Vec<u8>, number: Scaled) -> Result<(), AllocError>
    ensures text { OnOk result (out.new.items ≡ out.old.items ++ text_of number) }
    ensures range { OnOk result (IsScaled number) }
{
    put_number(out, number.sp())
}

/// Writes numbers with one space between any two.
pub(crate) fn put_numbers(
    out: &mut Vec<u8>,
    first: Scaled,
    rest: &[Scaled],
) -> Result<(), AllocError>
    ensures text { OnOk result (out.new.items ≡ out.old.items ++ numbers_text (first ∷ rest.now)) }
    ensures range { OnOk result (AllByRecursion IsScaled (first ∷ rest.now)) }
{
    put_scaled(out, first)?;
    for number in rest {
        put_next(out, *number)?;
    }
    Ok(())
}

/// Writes a number behind a space.
fn put_next(out: &mut Vec<u8>, number: Scaled) -> Result<(), AllocError>
    ensures text { OnOk result (out.new.items ≡ out.old.items ++ (codes " " ++ text_of number)) }
    ensures range { OnOk result (IsScaled number) }
{
    out.push(b' ')?;
    put_scaled(out, number)
}

/// Writes two numbers with a space between them.
pub(crate) fn put_pair(out: &mut Vec<u8>, x: i64, y: i64) -> Result<(), AllocError>
    ensures { OnOk result (out.new.items ≡ out.old.items ++ numbers_text (x ∷ y ∷ [])) }
{
    put_number(out, x)?;
    out.push(b' ')?;
    put_number(out, y)
}

/// Writes the data of a path.
pub(crate) fn put_data(out: &mut Vec<u8>, segs: &[Seg]) -> Result<(), AllocError>
    ensures text { OnOk result (out.new.items ≡ out.old.items ++ data_text segs.now) }
    ensures range { OnOk result (AllByRecursion PieceInRange segs.now) }
{
    for seg in segs {
        put_piece(out, *seg)?;
    }
    Ok(())
}

/// Writes the letter of a piece and its numbers.
fn put_piece(out: &mut Vec<u8>, seg: Seg) -> Result<(), AllocError>
    ensures text { OnOk result (out.new.items ≡ out.old.items ++ piece_text seg) }
    ensures range { OnOk result (PieceInRange seg) }
{
    match seg {
        Seg::Move(p) => put_point(out, b'M', p),
        Seg::Line(p) => put_point(out, b'L', p),
        Seg::Curve(p, q, r) => {
            put_point(out, b'C', p)?;
            put_point(out, b' ', q)?;
            put_point(out, b' ', r)
        }
        Seg::Close => {
            out.push(b'Z')?;
            Ok(())
        }
    }
}

/// Writes a character, and behind it the numbers of a point.
fn put_point(out: &mut Vec<u8>, front: u8, p: Point) -> Result<(), AllocError>
    ensures text { OnOk result
        (out.new.items ≡ out.old.items ++ front ∷ numbers_text (numbers_of_point p)) }
    ensures range { OnOk result (PointInRange p) }
{
    out.extend_from_slice(point_text(front, p).as_slice())
}

/// A character, and behind it the numbers of a point, whose y is upward and is written downward.
fn point_text(front: u8, p: Point) -> Digits
    ensures text { result.items ≡ front ∷ numbers_text (numbers_of_point p) }
    ensures range { PointInRange p }
{
    let mut digits: Digits = ArrayVec::new();
    digits.push(front);
    push_text(&mut digits, p.x.sp());
    digits.push(b' ');
    push_text(&mut digits, -p.y.sp());
    digits
}

/// A colour as `#` and six digits.
pub(crate) fn rgb_digits(rgb: Rgb) -> [u8; 7]
    ensures text { result ≡ rgb_text rgb }
    ensures range { RgbInRange rgb }
{
    [
        b'#',
        hex_digit(rgb.r / 16),
        hex_digit(rgb.r % 16),
        hex_digit(rgb.g / 16),
        hex_digit(rgb.g % 16),
        hex_digit(rgb.b / 16),
        hex_digit(rgb.b % 16),
    ]
}

fn hex_digit(digit: u8) -> u8
    requires { digit < 16 }
    ensures { result ≡ hex_glyph digit }
{
    if digit < 10 {
        b'0' + digit
    } else {
        b'A' - 10 + digit
    }
}

/// The word of SVG for a fill rule.
pub(crate) fn rule_word(rule: Rule) -> &'static [u8]
    ensures { result.now ≡ rule_text rule }
{
    match rule {
        Rule::NonZero => b"nonzero",
        Rule::EvenOdd => b"evenodd",
    }
}

/// The word of SVG for a cap.
pub(crate) fn cap_word(cap: Cap) -> &'static [u8]
    ensures { result.now ≡ cap_text cap }
{
    match cap {
        Cap::Butt => b"butt",
        Cap::Round => b"round",
        Cap::Square => b"square",
    }
}

/// The word of SVG for a join.
pub(crate) fn join_word(join: Join) -> &'static [u8]
    ensures { result.now ≡ join_text join }
{
    match join {
        Join::Miter => b"miter",
        Join::Round => b"round",
        Join::Bevel => b"bevel",
    }
}
