//! Attributes. Each call writes at the end of `out`, or runs out of memory.

ghost use Rattle.std.specs.Prelude.{◌≡◌, ◌∷◌, ◌++◌, [], OnOk, codes};
ghost use Rattle.std.specs.List.{AllByRecursion};
ghost use Rattle.tk_num.specs.Number.{IsScaled};
ghost use Rattle.tk_num.specs.Text.{text_of};
ghost use Rattle.tk_item.specs.Lengths.{AreDashes};
ghost use Rattle.tk_svgwrite.specs.Values.{attribute_text, optional_text, dash_text};

use crate::values::{put_number, put_numbers};
use arrayvec::ArrayVec;
use std::alloc::AllocError;
use tk_item::Dashes;
use tk_num::{Digits, Scaled, push_text};

/// Writes an attribute.
pub(crate) fn put_attribute(out: &mut Vec<u8>, name: &[u8], value: &[u8]) -> Result<(), AllocError>
    ensures { OnOk result (out.new.items ≡ out.old.items ++ attribute_text (name.now, value.now)) }
{
    open_attribute(out, name)?;
    out.extend_from_slice(value)?;
    close_attribute(out)
}

/// Writes an attribute up to its value.
pub(crate) fn open_attribute(out: &mut Vec<u8>, name: &[u8]) -> Result<(), AllocError>
    ensures { OnOk result
        (out.new.items ≡ out.old.items ++ (codes " " ++ name.now ++ codes "=\"")) }
{
    out.push(b' ')?;
    out.extend_from_slice(name)?;
    out.extend_from_slice(b"=\"")
}

/// Writes what stands behind the value of an attribute.
pub(crate) fn close_attribute(out: &mut Vec<u8>) -> Result<(), AllocError>
    ensures { OnOk result (out.new.items ≡ out.old.items ++ codes "\"") }
{
    Ok(out.push(b'"')?)
}

/// Writes an attribute exactly where its value is not the initial one.
#[tactic(auto, unfolding(crate::specs::Values::differing))]
pub(crate) fn put_optional(
    out: &mut Vec<u8>,
    name: &[u8],
    initial: &[u8],
    value: &[u8],
) -> Result<(), AllocError>
    ensures { OnOk result
        (out.new.items ≡ out.old.items ++ optional_text name.now initial.now value.now) }
{
    if value == initial {
        Ok(())
    } else {
        put_attribute(out, name, value)
    }
}

/// The same for a number.
pub(crate) fn put_optional_number(
    out: &mut Vec<u8>,
    name: &[u8],
    initial: &[u8],
    value: Scaled,
) -> Result<(), AllocError>
    ensures text { OnOk result
        (out.new.items ≡ out.old.items ++ optional_text name.now initial.now (text_of value)) }
    ensures range { OnOk result (IsScaled value) }
{
    let mut digits: Digits = ArrayVec::new();
    push_text(&mut digits, value.sp());
    put_optional(out, name, initial, digits.as_slice())
}

/// The same for dashes.
pub(crate) fn put_dashes(out: &mut Vec<u8>, dashes: &Dashes) -> Result<(), AllocError>
    ensures text { OnOk result (out.new.items ≡ out.old.items
        ++ optional_text (codes "stroke-dasharray") (codes "none") (dash_text dashes.now)) }
    ensures range { OnOk result (AllByRecursion IsScaled dashes.now) }
    ensures dashes { OnOk result (AreDashes dashes.now) }
{
    match dashes.as_slice().split_first() {
        None => Ok(()),
        Some((first, rest)) => {
            open_attribute(out, b"stroke-dasharray")?;
            put_numbers(out, *first, rest)?;
            close_attribute(out)
        }
    }
}
