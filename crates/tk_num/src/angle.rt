//! Sine, cosine and tangent.

ghost use Rattle.std.specs.Prelude.{◌≡◌, ◌+ℤ◌, ◌<◌, ◌≤◌, ◌≤ℤ◌, pos, unsigned_abs, slice_index};
ghost use Rattle.tk_num.specs.Number.{one};
ghost use Rattle.tk_num.specs.Angle.{degrees, sines, quarter_sine, half_sine, turn_sine, sine, cosine, tangent};

use crate::arithmetic::div;
use crate::{NumFault, ONE, Scaled};

/// One degree.
const DEGREE: u32 = ONE as u32;

/// A quarter of a turn.
const RIGHT_ANGLE: i64 = 90 * ONE;

/// A whole turn.
const TURN: i64 = 360 * ONE;

/// The sines of 0 to 90 whole degrees, in 65536ths.
static SINES: [u32; 91] = [
    0, 1144, 2287, 3430, 4572, 5712, 6850, 7987, 9121, 10252, 11380, 12505, 13626, 14742, 15855,
    16962, 18064, 19161, 20252, 21336, 22415, 23486, 24550, 25607, 26656, 27697, 28729, 29753,
    30767, 31772, 32768, 33754, 34729, 35693, 36647, 37590, 38521, 39441, 40348, 41243, 42126,
    42995, 43852, 44695, 45525, 46341, 47143, 47930, 48703, 49461, 50203, 50931, 51643, 52339,
    53020, 53684, 54332, 54963, 55578, 56175, 56756, 57319, 57865, 58393, 58903, 59396, 59870,
    60326, 60764, 61183, 61584, 61966, 62328, 62672, 62997, 63303, 63589, 63856, 64104, 64332,
    64540, 64729, 64898, 65048, 65177, 65287, 65376, 65446, 65496, 65526, 65536,
];

/// The sine of whole degrees.
#[tactic(auto, unfolding(crate::specs::Angle::sines))]
fn table_sine(degrees: u32) -> u32
    requires { degrees ≤ 90 }
    ensures { result ≡ slice_index sines degrees }
{
    SINES[degrees as usize]
}

/// The sine up to 90 degrees, on the straight line between two whole degrees.
fn quarter_sine_of(angle: u32) -> u32
    requires { angle ≤ degrees 90 }
    ensures value { result ≡ quarter_sine angle }
    ensures within { result ≤ one }
{
    let (whole, part) = (angle / DEGREE, angle % DEGREE);
    let low = table_sine(whole);
    if part == 0 {
        return low;
    }
    let rise = table_sine(whole + 1) - low;
    low + rise * part / DEGREE
}

/// The sine up to 180 degrees.
fn half_sine_of(angle: u32) -> u32
    requires { angle ≤ degrees 180 }
    ensures value { result ≡ half_sine angle }
    ensures within { result ≤ one }
{
    if angle <= 90 * DEGREE {
        quarter_sine_of(angle)
    } else {
        quarter_sine_of(180 * DEGREE - angle)
    }
}

/// The sine below 360 degrees.
fn turn_sine_of(angle: u32) -> i64
    requires { angle < degrees 360 }
    ensures value { result ≡ turn_sine angle }
    ensures within { unsigned_abs result ≤ one }
{
    if angle < 180 * DEGREE {
        i64::from(half_sine_of(angle))
    } else {
        -i64::from(half_sine_of(angle - 180 * DEGREE))
    }
}

/// The sine of any angle, reduced by whole turns.
fn sine_of(angle: i64) -> Scaled
    requires { unsigned_abs angle ≤ 1099511627776 }
    ensures value { result ≡ sine angle }
    ensures within { unsigned_abs result ≤ one }
{
    let reduced = angle.rem_euclid(TURN);
    Scaled {
        sp: turn_sine_of(reduced as u32),
    }
}

/// The sine of an angle in degrees: from a table of whole degrees, on a straight line between two.
pub fn sin(degrees: Scaled) -> Scaled
    ensures value { result ≡ sine degrees }
    ensures within { unsigned_abs result ≤ one }
{
    sine_of(degrees.sp())
}

/// The cosine of an angle in degrees: the sine of the angle and 90 degrees.
pub fn cos(degrees: Scaled) -> Scaled
    ensures value { result ≡ cosine degrees }
    ensures within { unsigned_abs result ≤ one }
{
    sine_of(degrees.sp() + RIGHT_ANGLE)
}

/// The tangent of an angle in degrees: the quotient of sine and cosine. DivZero where the cosine is 0,
/// else TooLarge where it is out of range.
pub fn tan(degrees: Scaled) -> Result<Scaled, NumFault>
    ensures { result ≡ tangent degrees }
{
    div(sin(degrees), cos(degrees))
}
