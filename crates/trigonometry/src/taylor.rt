// The sums behind the sine and the cosine, in whole units of 2^-58.
//
// Angles and values are numbers of units; ONE of them is 1. A product of two is exact up to the cut
// to a whole unit, the coefficients are cut the same way, and Horner's rule has no division. The
// error of the sums is a few units: proofs/Values.
ghost use Rattle.std.specs.Prelude.{◌≡◌, ◌*◌, ◌/◌, ◌-◌, ◌^◌, ◌≤◌, ◌<◌};
ghost use Rattle.trigonometry.specs.Taylor.{sine_divisors, cosine_divisors};
ghost use Rattle.trigonometry.specs.Units.{horner, sine_units, cosine_units};

// One, in units: 2^58.
pub const ONE: u64 = 288230376151711744;

// 32 units, as an f64: 2^-53.
pub const GRID: f64 = 1.1102230246251565e-16;

// The product of a and b, cut to whole units. Units stay plain numbers, and `≤ 2 ^ 58` a clause:
// what is made of them are differences, halves and quotients, each of which would be made a unit
// anew.
fn mul58(a: u64, b: u64) -> u64
    requires { (a ≤ 2 ^ 58) × (b ≤ 2 ^ 58) }
    ensures { (result ≡ a * b / 2 ^ 58) × (result ≤ b) }
{
    ((a as u128 * b as u128) >> 58) as u64
}

// The product of a and b, cut to whole units; 0 where one of them is above one.
pub fn product(a: u64, b: u64) -> u64
    ensures { (a ≤ 2 ^ 58 → b ≤ 2 ^ 58 → result ≡ a * b / 2 ^ 58) × (2 ^ 58 < a → result ≡ 0) × (2 ^ 58 < b → result ≡ 0) × (result ≤ b) }
{
    if ONE < a || ONE < b {
        return 0;
    }
    mul58(a, b)
}

// One step of Horner's rule.
fn step(z: u64, q: u64, c: u64) -> u64
    requires { (z ≤ 2 ^ 58) × (q ≤ c) × (c ≤ 2 ^ 58) }
    ensures { (result ≡ c - z * q / 2 ^ 58) × (result ≤ c) }
{
    c - mul58(z, q)
}

// The two series stand written out: a loop over a table of coefficients would need its order, that
// none is above the next, as a clause and an invariant, where each step here has it from its own
// two numbers.
//
// 1 - z / 3! + z^2 / 5! - ...: the coefficients are ONE / 19!, ONE / 17!, ...; ONE / 21! is no
// whole unit. 0 for a z above one.
pub fn sine_series(z: u64) -> u64
    ensures { (z ≤ 2 ^ 58 → result ≡ horner (2 ^ 58) z 1 sine_divisors) × (2 ^ 58 < z → result ≡ 0) × (result ≤ 2 ^ 58) }
{
    if z > ONE {
        return 0;
    }
    let q8 = step(z, 2, 810);
    let q7 = step(z, q8, 220414);
    let q6 = step(z, q7, 46287042);
    let q5 = step(z, q6, 7220778623);
    let q4 = step(z, q5, 794285648566);
    let q3 = step(z, q4, 57188566696768);
    let q2 = step(z, q3, 2401919801264264);
    let q1 = step(z, q2, 48038396025285290);
    step(z, q1, ONE)
}

// 1 - 2 z / 4! + 2 z^2 / 6! - ...; 0 for a z above one.
pub fn cosine_series(z: u64) -> u64
    ensures { (z ≤ 2 ^ 58 → result ≡ horner (2 ^ 58) z 1 cosine_divisors) × (2 ^ 58 < z → result ≡ 0) × (result ≤ 2 ^ 58) }
{
    if ONE < z {
        return 0;
    }
    let q7 = step(z, 90, 27551);
    let q6 = step(z, q7, 6612434);
    let q5 = step(z, q6, 1203463103);
    let q4 = step(z, q5, 158857129713);
    let q3 = step(z, q4, 14297141674192);
    let q2 = step(z, q3, 800639933754754);
    let q1 = step(z, q2, 24019198012642645);
    step(z, q1, ONE)
}

// The sine of an angle of r units, in units; 0 for an angle above one.
pub fn sine(r: u64) -> u64
    ensures { (r ≤ 2 ^ 58 → result ≡ sine_units (2 ^ 58) r) × (2 ^ 58 < r → result ≡ 0) × (result ≤ 2 ^ 58) }
{
    if r > ONE {
        return 0;
    }
    let z = mul58(r, r);
    mul58(r, sine_series(z))
}

// The cosine of an angle of r units, in units; 0 for an angle above one.
pub fn cosine(r: u64) -> u64
    ensures { (r ≤ 2 ^ 58 → result ≡ cosine_units (2 ^ 58) r) × (2 ^ 58 < r → result ≡ 0) × (result ≤ 2 ^ 58) }
{
    if ONE < r {
        return 0;
    }
    let z = mul58(r, r);
    ONE - mul58(z, cosine_series(z)) / 2
}
