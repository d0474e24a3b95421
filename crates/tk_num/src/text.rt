//! The text of a number.

ghost use Rattle.std.specs.Prelude.{◌≡◌, ℤ, pos, List, ℕ, ◌+◌, ◌-◌, ◌/◌, ◌%◌, ◌^◌, unsigned_abs, decimal, ◌<◌, ◌≤◌};
ghost use Rattle.std.specs.Prelude.{◌++◌, ◌∷◌, if◌then◌else◌, nat_lt, length, IsUtf8};
ghost use Rattle.arrayvec.specs.ArrayVec.{array_vec_len};
ghost use Rattle.tk_num.specs.Number.{one, decimal_parts};
ghost use Rattle.tk_num.specs.Text.{unsigned_text, places, IsTextOf, IsPointedTextOf, text_of, sign_text, pointed_text};
ghost use Rattle.tk_num.specs.Text.{part_text};

use crate::ONE;
use arrayvec::{ArrayString, ArrayVec};
use itoa::Buffer;

/// The characters of numbers: room for two, and for what stands before and between them.
pub type Digits = ArrayVec<u8, 48>;

/// One whole, in 32 bits.
const UNITY: u32 = ONE as u32;

/// The rest from which the next digit is taken; the fifth digit, which is the last, is rounded.
fn rounded(rest: u32, delta: u32) -> u32
    requires early { one < delta → 50000 ≤ rest }
    requires small { rest < 655360 }
    ensures { result ≡ (if nat_lt one delta then rest + 32768 - 50000 else rest) }
{
    if delta > UNITY {
        rest + 32_768 - 50_000
    } else {
        rest
    }
}

/// Puts the digits of a fraction of 65536ths at the end, as few as read back as it.
///
/// This is the loop of TeX's `print_scaled` (Knuth, TeX: The Program, section 103).
fn push_part(out: &mut Digits, fraction: u32)
    requires room { array_vec_len out.old + 5 ≤ 48 }
    requires fraction { fraction < one }
    ensures text { out.new.items ≡ out.old.items ++ part_text fraction }
    ensures short { array_vec_len out.new ≤ array_vec_len out.old + 5 }
{
    let mut rest = 10 * fraction + 5;
    let mut delta = 10;
    'digits: loop {
        rest = rounded(rest, delta);
        out.push(b'0' + (rest / UNITY) as u8);
        rest = 10 * (rest % UNITY);
        delta *= 10;
        if rest <= delta {
            return;
        }
    }
}

/// Puts the digits of a whole number at the end.
fn push_whole(out: &mut Digits, whole: u64)
    requires room { array_vec_len out.old + length (decimal whole) ≤ 48 }
    ensures text { out.new.items ≡ out.old.items ++ decimal whole }
    ensures length { array_vec_len out.new ≡ array_vec_len out.old + length (decimal whole) }
{
    match out.try_extend_from_slice(Buffer::new().format(whole).as_bytes()) {
        Ok(()) => {}
        Err(_) => unreachable!(),
    }
}

/// Puts a minus before a negative number at the end.
fn push_sign(out: &mut Digits, sp: i64)
    requires room { array_vec_len out.old + 1 ≤ 48 }
    ensures text { out.new.items ≡ out.old.items ++ sign_text sp }
    ensures short { array_vec_len out.new ≤ array_vec_len out.old + 1 }
{
    if sp < 0 {
        out.push(b'-');
    }
}

/// Puts the sign and the whole part of a number at the end.
fn push_front(out: &mut Digits, sp: i64)
    requires room { array_vec_len out.old + 16 ≤ 48 }
    ensures text { out.new.items
        ≡ out.old.items ++ (sign_text sp ++ decimal (unsigned_abs sp / one)) }
    ensures short { array_vec_len out.new ≤ array_vec_len out.old + 16 }
{
    push_sign(out, sp);
    push_whole(out, sp.unsigned_abs() / ONE as u64);
}

/// The 65536ths of the absolute value that come to no whole.
fn part_of_size(sp: i64) -> u32
    ensures part { result ≡ unsigned_abs sp % one }
    ensures small { result < one }
{
    (sp.unsigned_abs() % ONE as u64) as u32
}

/// Puts the text of a number at the end, which is what `print` gives.
pub fn push_text(out: &mut Digits, sp: i64)
    requires room { array_vec_len out.old + 22 ≤ 48 }
    ensures text { out.new.items ≡ out.old.items ++ text_of sp }
    ensures short { array_vec_len out.new ≤ array_vec_len out.old + 22 }
{
    push_front(out, sp);
    let fraction = part_of_size(sp);
    if fraction != 0 {
        out.push(b'.');
        push_part(out, fraction);
    }
}

/// These characters.
fn written(characters: &Digits) -> ArrayString<24>
    requires utf8 { IsUtf8 characters.now.items }
    requires short { array_vec_len characters.now ≤ 24 }
    ensures { result.bytes ≡ characters.now.items }
{
    let mut out = ArrayString::new();
    out.push_str(str::from_utf8(characters.as_slice()).unwrap());
    out
}

/// The text of a number of 65536ths of a point: of all decimals that read back as it the one with the
/// fewest digits after the point, then the nearest, then the greatest, without `.0` at its end.
pub fn print(sp: i64) -> ArrayString<24>
    ensures text { result.bytes ≡ text_of sp }
    ensures chosen { IsTextOf sp result.bytes }
{
    let mut out: Digits = ArrayVec::new();
    push_text(&mut out, sp);
    written(&out)
}

/// The text that TeX prints of a number of 65536ths of a point: as `print`, with `.0` where it ends so.
pub fn print_tex(sp: i64) -> ArrayString<24>
    ensures text { result.bytes ≡ pointed_text sp }
    ensures chosen { IsPointedTextOf sp result.bytes }
{
    let mut out: Digits = ArrayVec::new();
    push_front(&mut out, sp);
    out.push(b'.');
    push_part(&mut out, part_of_size(sp));
    written(&out)
}

/// There is one text of a number, and one that TeX prints.
pub fn text_is_unique()
    ensures text { (sp : ℤ) → (text : List ℕ) → unsigned_abs sp < 2 ^ 64
        → IsTextOf sp text → text ≡ text_of sp }
    ensures pointed { (sp : ℤ) → (text : List ℕ) → unsigned_abs sp < 2 ^ 64
        → IsPointedTextOf sp text → text ≡ pointed_text sp }
{}

/// The text of a number without its sign reads back as its size, and no text with fewer digits after the
/// point does.
#[tactic(auto, using(crate::proofs::Back::text_back, crate::proofs::Back::no_shorter))]
pub fn text_reads_back()
    ensures back { (sp : ℤ) → unsigned_abs sp ≤ 4294967295 → decimal_parts (unsigned_text sp)
        ≡ Some (pos (unsigned_abs sp / one), pos (unsigned_abs sp % one)) }
    ensures shortest { (sp : ℤ) → unsigned_abs sp ≤ 4294967295 → (text : List ℕ)
        → decimal_parts text ≡ Some (pos (unsigned_abs sp / one), pos (unsigned_abs sp % one))
        → places (unsigned_text sp) ≤ places text }
{}
