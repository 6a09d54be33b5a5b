// A quantity with three decimals, as the encounter sheet's program prints it: the number of
// thousandths nearest to an f64, ties to even, worked out in whole numbers on the float's digits.
ghost use Rattle.std.specs.Prelude.{◌≡◌, true, false, ◌*◌, ◌^◌, ◌≤◌, ◌<◌, pos};
ghost use Rattle.std.specs.Float.{fin};
ghost use Rattle.std.specs.Float.Ieee.{lt};
ghost use Rattle.std.specs.Float.Ieee.Nearest.{closest};
ghost use Rattle.text.specs.Thousandths.{thousandths_of};

use math::{Parts, power_of_two};
use std::cmp::Ordering;

// 2^53, above which no f64 has a fraction, and its thousandths.
const LIMIT: f64 = (1u64 << 53) as f64;

const MOST: u64 = 1000 << 53;

// n / d to the nearest whole number, ties to even.
fn nearest(n: u64, d: u64) -> u64
    requires { (0 < d) × (d ≤ 2 ^ 63) × (n < 2 ^ 63) }
    ensures { result ≡ closest n d }
{
    let q = n / d;
    let twice = n % d * 2;
    match twice.cmp(&d) {
        Ordering::Less => q,
        Ordering::Greater => q + 1,
        Ordering::Equal => q + q % 2,
    }
}

// A quantity above 0 and below 2^53. Its thousandths are digits * 1000 / 2^(1074 - place), and none
// below the place 1011.
fn fraction(x: f64) -> u64
    requires { (lt (fin false 0 (pos 0)) x ≡ true) × (lt x (fin false 1 (pos 53)) ≡ true) }
    ensures { result ≡ thousandths_of x }
{
    let Parts { digits, place } = Parts::of_pattern(f64::to_bits(x));
    if place < 1011 {
        return 0;
    }
    nearest(digits * 1000, power_of_two(1074 - place))
}

// The thousandths nearest to a quantity, ties to even; those of 2^53 for anything from there on,
// and none for anything below 0.
pub(crate) fn thousandths(x: f64) -> u64
    ensures { result ≡ thousandths_of x }
{
    if x > 0.0 {
        if x < LIMIT {
            return fraction(x);
        }
        return MOST;
    }
    0
}
