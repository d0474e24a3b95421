//! Decimals that are read.

ghost use Rattle.std.specs.Prelude.{◌≡◌, ◌+◌, ◌*◌, ◌/◌, ◌%◌, ◌^◌, ◌<◌, ◌≤◌, true, pos, length, take, IfSome};
ghost use Rattle.std.specs.List.{list_all, position};
ghost use Rattle.std.specs.Char.{is_ascii_digit};
ghost use Rattle.std.specs.Str.Parse.{digits_value};
ghost use Rattle.std.specs.Option.{SomeIff};
ghost use Rattle.tk_num.specs.Number.{one, is_point, nearest_65536th, fraction_of, whole_digits, part_digits, decimal_parts};
ghost use Rattle.tk_num.specs.Number.{IsWhole, IsFraction};

use crate::ONE;

/// The greatest whole part.
const MOST_WHOLE: u64 = 1_073_741_823;

/// The digits after the point that count.
const MOST_PLACES: usize = 17;

/// The powers of ten that keep a fraction within 64 bits.
static POWERS: [u64; 13] = [
    1,
    10,
    100,
    1_000,
    10_000,
    100_000,
    1_000_000,
    10_000_000,
    100_000_000,
    1_000_000_000,
    10_000_000_000,
    100_000_000_000,
    1_000_000_000_000,
];

/// The number that digits write, where it is at most the greatest whole part.
fn whole_number(digits: &[u8]) -> Option<u64>
    ensures { SomeIff result
        ((list_all is_ascii_digit digits.now ≡ true) × (digits_value 10 digits.now ≤ 1073741823))
        (digits_value 10 digits.now) }
{
    let mut value: u64 = 0;
    for digit in digits {
        if !digit.is_ascii_digit() {
            return None;
        }
        value = value * 10 + u64::from(*digit - b'0');
        if value > MOST_WHOLE {
            return None;
        }
    }
    Some(value)
}

/// The number that a few digits write.
fn short_number(digits: &[u8]) -> u64
    requires digits { list_all is_ascii_digit digits.now ≡ true }
    requires few { length digits.now ≤ 17 }
    ensures value { result ≡ digits_value 10 digits.now }
    ensures below { result < 10 ^ length digits.now }
{
    let mut value: u64 = 0;
    for digit in digits {
        value = value * 10 + u64::from(*digit - b'0');
    }
    value
}

/// A small power of ten.
fn power_of_ten(exponent: u32) -> u64
    requires { exponent ≤ 12 }
    ensures value { result ≡ 10 ^ exponent }
    ensures small { result ≤ 1000000000000 }
{
    POWERS[exponent as usize]
}

/// The same as `nearest_65536th`, by 128 bits.
fn nearest_of_many(count: u32, digits: u64) -> u64
    requires few { count ≤ 17 }
    requires below { digits < 32 * 10 ^ count }
    ensures { result ≡ nearest_65536th count digits }
{
    let unit = 10u128.pow(count);
    ((131_072 * u128::from(digits) + unit) / (2 * unit)) as u64
}

/// The 65536ths nearest to the fraction that so many digits after a point write, ties upward: 32768 for
/// 1 and 5. It needs no more than 64 bits up to 12 digits.
pub fn nearest_65536th(count: u32, digits: u64) -> u64
    requires few { count ≤ 17 }
    requires below { digits < 32 * 10 ^ count }
    ensures value { result ≡ nearest_65536th count digits }
    ensures most { result ≤ 2097152 }
{
    if digits == 0 {
        return 0;
    }
    if count > 12 {
        return nearest_of_many(count, digits);
    }
    let unit = power_of_ten(count);
    (131_072 * digits + unit) / (2 * unit)
}

/// The 65536ths nearest to a fraction of digits.
fn fraction(digits: &[u8]) -> u64
    requires { list_all is_ascii_digit digits.now ≡ true }
    ensures value { result ≡ fraction_of digits.now }
    ensures most { result ≤ one }
{
    let count = digits.len().min(MOST_PLACES);
    nearest_65536th(count as u32, short_number(&digits[..count]))
}

fn are_digits(text: &[u8]) -> bool
    ensures { result ≡ list_all is_ascii_digit text.now }
{
    text.iter().all(|byte| byte.is_ascii_digit())
}

/// The place of the first point.
fn point_place(text: &[u8]) -> Option<usize>
    ensures { result ≡ position is_point text.now }
{
    text.iter().position(|byte| *byte == b'.')
}

/// The text before the first point, and the text after it.
fn split_at_point(text: &[u8]) -> (&[u8], &[u8])
    ensures whole { result.0.now ≡ whole_digits text.now }
    ensures part { result.1.now ≡ part_digits text.now }
{
    match point_place(text) {
        Some(place) => (&text[..place], &text[place + 1..]),
        None => (text, &[]),
    }
}

/// The whole part and the 65536ths of a decimal.
///
/// The fraction is the nearest, ties upward, of its first 17 digits, and one that comes to 65536 is
/// carried into the whole part. None exactly where the text isn't digits with at most one point and at
/// least one digit, or where the whole part passes 1,073,741,823.
pub fn read_decimal(text: &[u8]) -> Option<(i64, i64)>
    ensures parts { result ≡ decimal_parts text.now }
    ensures within { IfSome result (λ parts. IsWhole parts.0 × IsFraction parts.1) }
{
    let (front, back) = split_at_point(text);
    if front.is_empty() && back.is_empty() {
        return None;
    }
    let whole = whole_number(front)?;
    if !are_digits(back) {
        return None;
    }
    let part = fraction(back);
    let carried = whole + part / ONE as u64;
    if carried > MOST_WHOLE {
        return None;
    }
    Some((carried as i64, (part % ONE as u64) as i64))
}
