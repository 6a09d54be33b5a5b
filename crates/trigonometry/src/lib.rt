// Sine and cosine of f64s by whole numbers, up to 16 radians either sign.
//
// The angle is taken in units of 2^-58, the nearest multiple of half pi is removed, and the sine or
// the cosine of the rest, a sum of `taylor`, is rounded to a multiple of 2^-53. Every answer is
// within 2^-48 of the exact sum: proofs/Bound.
#![tactic(auto)]

pub mod taylor;

ghost use Rattle.std.specs.Prelude.{◌≡◌, ◌^◌, ◌≤◌, true, false, MatchOption};
ghost use Rattle.trigonometry.specs.Angle as Angle;
ghost use Rattle.trigonometry.specs.Units.{one, rest, turned_minus, turned_units};
ghost use Rattle.trigonometry.specs.Sine as Sine;

use crate::taylor::GRID;

// The largest angle, and the angle below which the sine is the angle: 2^-17.
const LARGEST: f64 = 16.0;

pub const TINY: f64 = 7.62939453125e-6;

// One in units, as an f64: 2^58. A step of the grid is 32 units.
const ONE: f64 = 32.0 / GRID;

// Half pi, and half of it, in whole units.
const HALF_PI: u64 = 452751216129820177;

const QUARTER_PI: u64 = HALF_PI / 2;

// The units in the size of a number of at most 16, cut to a whole number; none for any other. They
// stay a plain number, here and below, and `n ≤ 2 ^ 62` a clause: `arcsine` takes them on as the
// units of a sine, and a type of its own would be made here and opened in both.
pub fn units(x: f64) -> Option<u64>
    ensures { MatchOption result (Sine.in_domain x ≡ false) (λ n. (Sine.in_domain x ≡ true) × (n ≡ Sine.scaled x) × (n ≤ 2 ^ 62)) }
{
    let a = math::abs(x);
    (a <= LARGEST).then(|| std::num::truncating_f64_to_u64(a * ONE))
}

// How many half pis are nearest to n units. Half pi is HALF_PI units and nearly 2/3 of a unit more,
// so that a remainder below 2/3 of the quotient belongs to the multiple before.
fn quarters(n: u64) -> u64
    requires { n ≤ 2 ^ 62 }
    ensures { (result ≡ Angle.quarters n one) × (result ≤ 10) }
{
    let shifted = n + QUARTER_PI;
    let k = shifted / HALF_PI;
    if shifted % HALF_PI >= 2 * k / 3 {
        k
    } else {
        k - 1
    }
}

// v units as an f64, to the nearest multiple of 2^-53, with the sign set or not.
fn from_units(minus: bool, v: u64) -> f64
    requires { v ≤ 2 ^ 58 }
    ensures { result ≡ Sine.from_units minus v }
{
    math::multiple(minus, (v + 16) / 32, GRID)
}

// The sine of n units and `more` half pis. `more` stays a number, 0 or 1: it is added to the half
// pis that are nearest, and a bool would be made that number again.
fn turned(n: u64, more: u64) -> f64
    requires { (n ≤ 2 ^ 62) × (more ≤ 1) × (rest n ≤ 2 ^ 58) }
    ensures { result ≡ Sine.from_units (turned_minus more n) (turned_units more n) }
{
    let k = quarters(n);
    let multiple = k * HALF_PI;
    let left = n.abs_diff(multiple);
    let q = k + more;
    let back = q % 4 >= 2;
    if q % 2 == 0 {
        return from_units(back != (n < multiple), crate::taylor::sine(left));
    }
    from_units(back, crate::taylor::cosine(left))
}

// The sine of x radians; not a number outside -16 to 16. The cosine's `map_or` would here have a
// closure of two statements.
pub fn sin(x: f64) -> f64
    ensures { result ≡ Sine.sin x }
{
    if math::abs(x) < TINY {
        return x;
    }
    let Some(n) = units(x) else {
        return f64::NAN;
    };
    let y = turned(n, 0);
    if x < 0.0 { -y } else { y }
}

// The cosine of x radians; not a number outside -16 to 16.
pub fn cos(x: f64) -> f64
    ensures { result ≡ Sine.cos x }
{
    units(x).map_or(f64::NAN, |n| turned(n, 1))
}
