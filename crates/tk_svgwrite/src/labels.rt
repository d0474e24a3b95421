//! Labels. Each call writes at the end of `out`, or runs out of memory.

ghost use Rattle.std.specs.Prelude.{◌≡◌, ◌&&◌, ◌∷◌, ◌++◌, [], OnOk, codes, neg_ℤ};
ghost use Rattle.std.specs.Ordering.{int_eq};
ghost use Rattle.std.specs.List.{AllByRecursion};
ghost use Rattle.std.specs.Char.{IsScalar};
ghost use Rattle.tk_num.specs.Text.{text_of};
ghost use Rattle.tk_svgwrite.specs.Plain.{label_text, is_upright, matrix_numbers, placing_attributes};
ghost use Rattle.tk_svgwrite.specs.Ranges.{PointInRange, MatrixInRange, LabelInRange};
ghost use Rattle.tk_svgwrite.specs.Values.{attribute_text, attributes_text, matrix_text, escaped, content_text};

use crate::attributes::{close_attribute, open_attribute, put_optional};
use crate::values::{put_number, put_numbers, rgb_digits};
use std::alloc::AllocError;
use tk_item::{Label, Point};

/// Writes the element of a label.
pub(crate) fn put_label(out: &mut Vec<u8>, label: &Label) -> Result<(), AllocError>
    ensures text { OnOk result (out.new.items ≡ out.old.items ++ label_text label.now) }
    ensures range { OnOk result (LabelInRange label.now) }
{
    out.extend_from_slice(b"<text")?;
    put_placing(out, label)?;
    put_optional(out, b"fill", b"#000000", &rgb_digits(label.rgb))?;
    out.extend_from_slice(b" xml:space=\"preserve\">")?;
    put_content(out, label.text.as_slice())?;
    out.extend_from_slice(b"</text>\n")?;
    Ok(())
}

/// Writes where a label stands: at a point where it is upright, else by its matrix.
fn put_placing(out: &mut Vec<u8>, label: &Label) -> Result<(), AllocError>
    ensures text { OnOk result
        (out.new.items ≡ out.old.items ++ attributes_text (placing_attributes label.now)) }
    ensures range { OnOk result (MatrixInRange label.now) }
    ensures place { OnOk result (PointInRange label.now.at) }
{
    if is_upright(label) {
        put_place(out, label.at)
    } else {
        put_matrix(out, label)
    }
}

/// Whether a label is neither turned nor scaled.
fn is_upright(label: &Label) -> bool
    ensures value { result ≡ is_upright label.now }
    ensures range { MatrixInRange label.now }
{
    let (a, b, c, d) = (label.a.sp(), label.b.sp(), label.c.sp(), label.d.sp());
    are_both(a, d, 65536) && are_both(b, c, 0)
}

/// Whether two numbers are this one.
fn are_both(one: i64, other: i64, number: i64) -> bool
    ensures { result ≡ (int_eq one number && int_eq other number) }
{
    one == number && other == number
}

/// Writes a point, whose y is upward and is written downward.
fn put_place(out: &mut Vec<u8>, at: Point) -> Result<(), AllocError>
    ensures text { OnOk result (out.new.items ≡ out.old.items
        ++ attributes_text ((codes "x", text_of at.x) ∷ (codes "y", text_of (neg_ℤ at.y)) ∷ [])) }
    ensures place { OnOk result (PointInRange at) }
{
    put_coordinate(out, b"x", at.x.sp())?;
    put_coordinate(out, b"y", -at.y.sp())
}

/// Writes an attribute that is a number.
fn put_coordinate(out: &mut Vec<u8>, name: &[u8], sp: i64) -> Result<(), AllocError>
    ensures { OnOk result (out.new.items ≡ out.old.items ++ attribute_text (name.now, text_of sp)) }
{
    open_attribute(out, name)?;
    put_number(out, sp)?;
    close_attribute(out)
}

/// Writes a matrix, with y turned downward.
fn put_matrix(out: &mut Vec<u8>, label: &Label) -> Result<(), AllocError>
    ensures text { OnOk result (out.new.items ≡ out.old.items
        ++ attributes_text ((codes "transform", matrix_text (matrix_numbers label.now)) ∷ [])) }
    ensures place { OnOk result (PointInRange label.now.at) }
{
    let rest = [
        label.b.negated(),
        label.c.negated(),
        label.d,
        label.at.x,
        label.at.y.negated(),
    ];
    open_attribute(out, b"transform")?;
    out.extend_from_slice(b"matrix(")?;
    put_numbers(out, label.a, &rest)?;
    out.push(b')')?;
    close_attribute(out)
}

/// Writes the characters of a label.
fn put_content(out: &mut Vec<u8>, text: &[char]) -> Result<(), AllocError>
    ensures { OnOk result (out.new.items ≡ out.old.items ++ content_text text.now) }
{
    for character in text {
        put_character(out, *character)?;
    }
    Ok(())
}

/// Writes a character: `&`, `<` and `>` by their names.
fn put_character(out: &mut Vec<u8>, character: char) -> Result<(), AllocError>
    ensures { OnOk result (out.new.items ≡ out.old.items ++ escaped character) }
{
    match character {
        '&' => out.extend_from_slice(b"&amp;"),
        '<' => out.extend_from_slice(b"&lt;"),
        '>' => out.extend_from_slice(b"&gt;"),
        _ => {
            let mut bytes = [0; 4];
            out.extend_from_slice(character.encode_utf8(&mut bytes).as_bytes())
        }
    }
}
