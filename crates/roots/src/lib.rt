// The square root and the hypotenuse of f64s, by whole numbers.
//
// `sqrt` takes the digits m and the exponent j of its argument, which is m * 2^j in units of
// 2^-2148, and finds the whole number nearest to the root of m * 2^52 or m * 2^53. A float
// computation makes a guess, whole numbers decide: the square of the guess tells whether it is the
// nearest, or the number after or before it is, and if none is the library's whole root decides.
#![tactic(auto)]

ghost use Rattle.std.specs.Prelude.{◌≡◌, ◌+◌, ◌*◌, ◌%◌, ◌^◌, ◌≤◌, ◌<◌};
ghost use Rattle.roots.specs.Digits.{Excess};
ghost use Rattle.roots.specs.Root.{NearestRoot};
ghost use Rattle.roots.specs.Sqrt.{root_pattern, sqrt as sqrtOf};
ghost use Rattle.roots.specs.Hypot.{hypot_ordered, hypot as hypotOf};

use math::{LEADING, Parts};

// 2^54: what an excess of 0 counts as.
const MIDDLE: u64 = 18014398509481984;

// The largest argument of the hypotenuse, 2^500, and the size below which it is the larger
// argument, 2^-500.
const LARGEST: f64 = 3.273390607896142e150;

const SMALL: f64 = 3.054936363499605e-151;

// The whole number nearest to the root of d * 2^52: half the root of four times as much, rounded.
fn exact_root(d: u64) -> u64
    requires { (0 < d) × (d < 2 ^ 54) }
    ensures { NearestRoot (d * 2 ^ 52) result }
{
    let root = (d as u128 * (4 * LEADING as u128)).isqrt() as u64;
    (root + 1) / 2
}

// A number above 0: m * 2^j / 2^2148, the leading digit of m at the place 2^52.
#[derive(Clone, Copy)]
struct Scaled {
    m: u64,
    j: u64,
    ghost leading: { 2 ^ 52 ≤ m },
    ghost digits: { m < 2 ^ 53 },
    ghost least: { 52 ≤ j },
    ghost most: { j ≤ 3119 },
}

impl Scaled {
    // A float above 0, its leading digit moved up where it has fewer digits than the normal
    // numbers.
    fn of(n: Parts) -> Scaled
        requires { (0 < n.digits) × (n.place ≤ 2045) }
        ensures { n.digits * 2 ^ n.place * 2 ^ 1074 ≡ result.m * 2 ^ result.j }
    {
        if n.digits < LEADING {
            let places = n.digits.leading_zeros() as u64 - 11;
            return Scaled {
                m: n.digits << places,
                j: 1074 - places,
            };
        }
        Scaled {
            m: n.digits,
            j: n.place + 1074,
        }
    }

    // About 2^52 times the root of f = m * (1 + j % 2) / 2^52. Beside the root s goes half its
    // inverse, h: from first values by the bit pattern, good to 1 part in 29, by a quadratic
    // polynomial, a step of Newton's method and a correction. Nothing is promised of it but its
    // 53 digits.
    fn guess(self) -> u64
        ensures { (2 ^ 52 ≤ result) × (result < 2 ^ 53) }
    {
        let pattern = (1022 + self.j % 2) * LEADING + self.m;
        let f = f64::from_bits(pattern);
        let y = f64::from_bits(6910469410427058089 - pattern / 2);
        let s0 = f * y;
        let h0 = 0.5 * y;
        let t = s0 * y;
        let p = 1.876594766976193 - 1.2520933041327758 * t + 0.37549875440821373 * (t * t);
        let s1 = s0 * p;
        let h1 = h0 * p;
        let q = 1.5 - s1 * h1;
        let s2 = s1 * q;
        let h2 = h1 * q;
        let g = s2 + h2 * (f - s2 * s2);
        if g.is_nan() {
            return LEADING;
        }
        f64::to_bits(g) % LEADING + LEADING
    }

    // The whole number nearest to the root of d * 2^52, for d = m or 2 m.
    fn nearest_root(self) -> u64
        ensures { NearestRoot (self.m * (1 + self.j % 2) * 2 ^ 52) result }
    {
        let d = self.m * (1 + self.j % 2);
        let r = self.guess();
        let x = excess(d, r);
        let trial = Trial { d, r, x };
        if x + r < MIDDLE {
            return trial.one_more();
        }
        if x < MIDDLE + r {
            return r;
        }
        trial.one_less()
    }

    // The bit pattern of the root.
    fn root_pattern(self) -> u64
        ensures { (result ≡ root_pattern self.m self.j) × (result < 2047 * 2 ^ 52) }
    {
        let r = self.nearest_root();
        (self.j - 52) / 2 * LEADING + r
    }
}

// By how much r * r exceeds d * 2^52, plus 2^54; or 0 where it is far from it.
fn excess(d: u64, r: u64) -> u64
    requires { (d < 2 ^ 54) × (r ≤ 2 ^ 53) }
    ensures { Excess d r result }
{
    let square = r as u128 * r as u128 + MIDDLE as u128;
    match square.checked_sub(d as u128 * LEADING as u128) {
        Some(x) if x < 4 * MIDDLE as u128 => x as u64,
        _ => 0,
    }
}

// r tried as the root of d * 2^52, with the excess x of its square.
#[derive(Clone, Copy)]
struct Trial {
    d: u64,
    r: u64,
    x: u64,
    ghost some: { 0 < d },
    ghost few: { d < 2 ^ 54 },
    ghost positive: { 0 < r },
    ghost short: { r ≤ 2 ^ 53 },
    ghost excess: { Excess d r x },
}

impl Trial {
    // Where r is too small: the number after it, or the root by the library.
    fn one_more(self) -> u64
        requires { self.x + self.r < 2 ^ 54 }
        ensures { NearestRoot (self.d * 2 ^ 52) result }
    {
        let Trial { d, r, x } = self;
        if 0 < x && MIDDLE <= x + 3 * r + 2 {
            return r + 1;
        }
        exact_root(d)
    }

    // Where r is too large: the number before it, or the root by the library.
    fn one_less(self) -> u64
        requires { 2 ^ 54 + self.r ≤ self.x }
        ensures { NearestRoot (self.d * 2 ^ 52) result }
    {
        let Trial { d, r, x } = self;
        if x + 2 < MIDDLE + 3 * r {
            return r - 1;
        }
        exact_root(d)
    }
}

// The square root, rounded to the nearest f64: -0 and plus infinity stay, negative numbers and NaN
// give NaN. It is not `f64::sqrt`: that is the processor's operation, taken on trust, and by the
// project's rule the elementary functions rest on sums, products, quotients and comparisons of
// floats, and on whole numbers.
pub fn sqrt(x: f64) -> f64
    ensures { result ≡ sqrtOf x }
{
    if x > 0.0 {
        if x == f64::INFINITY {
            return x;
        }
        let n = Scaled::of(Parts::of_pattern(f64::to_bits(x)));
        return f64::from_bits(n.root_pattern());
    }
    if x == 0.0 {
        return x;
    }
    f64::NAN
}

// The hypotenuse over sides u and v of clear sign, u being the larger.
#[tactic(auto, unfolding(crate::specs::Hypot::hypot_ordered))]
fn hypot_ordered(u: f64, v: f64) -> f64
    ensures { result ≡ hypot_ordered u v }
{
    if v == 0.0 || u < SMALL {
        return u;
    }
    sqrt(u * u + v * v)
}

// The hypotenuse over sides of at most 2^500 in size, and NaN for others.
#[tactic(auto, unfolding(crate::specs::Hypot::hypot, crate::specs::Hypot::in_domain))]
pub fn hypot(x: f64, y: f64) -> f64
    ensures { result ≡ hypotOf x y }
{
    let a = math::abs(x);
    let b = math::abs(y);
    if a <= LARGEST && b <= LARGEST {
        if a < b {
            return hypot_ordered(b, a);
        }
        return hypot_ordered(a, b);
    }
    f64::NAN
}
