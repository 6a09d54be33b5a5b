// The helpers of math.rs that the encounter module leans on: conversions between degrees and
// radians, signs, tests, and casts. Each takes any f64, NaN and infinities included. The six
// elementary functions stand in crates of their own.
#![tactic(auto)]

pub mod angle;
pub mod duration;
pub mod remainder;
pub mod rounding;

ghost use Rattle.std.specs.Prelude.{◌≡◌, ℕ, suc, ◌*◌, ◌<◌, ◌≤◌, ◌^◌, true, false, pos, negsuc, Float};
ghost use Rattle.std.specs.Float.Ieee as Ieee;
ghost use Rattle.std.specs.Float.{binary64, fin};
ghost use Rattle.std.specs.Float.Ieee.{fits};
ghost use Rattle.std.specs.Float.Ieee.Scale.{finite};
ghost use Rattle.laws.specs.Units.{sign, units_of};
ghost use Rattle.math.specs.Convert.{to_radians, to_degrees};
ghost use Rattle.math.specs.Sign as Sign;
ghost use Rattle.math.specs.Cast as Cast;
ghost use Rattle.math.specs.Test as Test;

use std::f64::consts::PI;

// 2^52: the weight of a normal f64's leading digit, and of the exponent's field in its pattern.
pub const LEADING: u64 = 4503599627370496;

// Degrees in a radian, as math.rs has them.
const DEGREES_PER_RADIAN: f64 = 180.0 / PI;

// How near to zero a value counts as zero, in parts of its operands.
const RELATIVE_TOLERANCE: f64 = 1e-12;

// Degrees to radians. `f64::to_radians` multiplies by the inverse, which rounds otherwise.
pub fn to_radians(degrees: f64) -> f64
    ensures { result ≡ to_radians degrees }
{
    degrees / DEGREES_PER_RADIAN
}

// Radians to degrees.
#[tactic(auto, unfolding(crate::specs::Convert::to_degrees, crate::specs::Convert::degrees_per_radian))]
pub fn to_degrees(radians: f64) -> f64
    ensures { result ≡ to_degrees radians }
{
    radians.to_degrees()
}

// The absolute value.
#[tactic(auto, using(crate::proofs::Sign::abs_is))]
pub fn abs(x: f64) -> f64
    ensures { result ≡ Sign.abs x }
{
    x.abs()
}

// Whether x is a number and not infinite.
#[tactic(auto, using(crate::proofs::Sign::finite_is))]
pub fn is_finite(x: f64) -> bool
    ensures { result ≡ finite x }
{
    x.is_finite()
}

// `magnitude` with the sign of `sign`, whose sign is clear where it is no number.
#[tactic(auto, using(crate::proofs::Sign::copysign_is, crate::proofs::Sign::copysign_of_nan))]
pub fn copysign(magnitude: f64, sign: f64) -> f64
    ensures { result ≡ Sign.copysign magnitude sign }
{
    if sign.is_nan() {
        abs(magnitude)
    } else {
        magnitude.copysign(sign)
    }
}

// Whether a value is zero relative to `scale`, the magnitude of its operands.
#[tactic(auto, unfolding(crate::specs::Test::is_effectively_zero))]
pub fn is_effectively_zero(value: f64, scale: f64) -> bool
    ensures { result ≡ Test.is_effectively_zero value scale }
{
    abs(value) <= abs(scale) * RELATIVE_TOLERANCE
}

// The larger of two values; `a` where one of them is no number, for which `f64::max` answers the
// other.
#[tactic(auto, unfolding(crate::specs::Test::larger))]
pub fn larger(a: f64, b: f64) -> f64
    ensures { result ≡ Test.larger a b }
{
    if a < b { b } else { a }
}

// The whole part of a value from 0 to 10^9, and 0 for any other.
#[tactic(auto, unfolding(crate::specs::Cast::to_usize))]
pub fn to_usize(value: f64) -> usize
    ensures { result ≡ Cast.to_usize value }
{
    if value >= 0.0 && value <= 1e9 {
        std::num::saturating_f64_to_usize(value)
    } else {
        0
    }
}

// A count as a float, rounded where it has more than 53 digits.
pub fn count_to_f64(count: usize) -> f64
    ensures { result ≡ Ieee.of_int binary64 (pos count) }
{
    std::num::nearest_usize_to_f64(count)
}

// 2^k, and 0 where that is no u64. `unbounded_shl` takes its k as a u32: for a k that is no u32
// this would need an answer of its own.
pub fn power_of_two(k: u64) -> u64
    ensures power { k < 64 → result ≡ 2 ^ k }
    ensures none { 64 ≤ k → result ≡ 0 }
{
    if k < 64 { 1 << k } else { 0 }
}

// The size of a float, as units of 2^-1074: `digits` times 2^`place`.
#[derive(Clone, Copy)]
pub struct Parts {
    pub digits: u64,
    pub place: u64,
    ghost few: { digits < 2 ^ 53 },
    ghost leading: { 0 < place → 2 ^ 52 ≤ digits },
}

impl Parts {
    // The parts of the finite float that has a pattern whose sign is clear.
    pub fn of_pattern(pattern: u64) -> Parts
        ensures { (x : Float) → fits binary64 x ≡ true → finite x ≡ true → sign x ≡ false
            → pattern ≡ Ieee.to_bits binary64 x → units_of x ≡ result.digits * 2 ^ result.place }
    {
        if pattern < LEADING {
            return Parts {
                digits: pattern,
                place: 0,
            };
        }
        Parts {
            digits: pattern % LEADING + LEADING,
            place: pattern / LEADING - 1,
        }
    }
}

// n times a unit that is a power of two below one, with the sign set or not: exactly, for an n of
// at most 2^53, and 0 for a larger one.
pub fn multiple(minus: bool, n: u64, unit: f64) -> f64
    ensures product { (i : ℕ) → n ≤ 2 ^ 53 → unit ≡ fin false 1 (negsuc i) → result ≡ Ieee.round binary64 minus n (2 ^ suc i) }
    ensures none { 2 ^ 53 < n → result ≡ Ieee.of_bits binary64 0 }
{
    if n > 2 * LEADING {
        return 0.0;
    }
    let y = n as f64 * unit;
    if minus { -y } else { y }
}
