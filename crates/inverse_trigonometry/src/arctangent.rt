// Arctangent of f64s by whole numbers: `bisection` finds the angle, and this one takes the f64s
// apart and puts the answer together, which is exact. What is proved of the answers: specs/Atan2.
ghost use Rattle.std.specs.Prelude.{◌≡◌, true, false, ◌*◌, ◌/◌, ◌^◌, ◌≤◌, ◌<◌};
ghost use Rattle.std.specs.Float.{binary64};
ghost use Rattle.std.specs.Float.Ieee.{fits};
ghost use Rattle.std.specs.Float.Ieee.Scale.{finite};
ghost use Rattle.laws.specs.Units.{sign, units_of};
ghost use Rattle.math.specs.Sign as Sign;
ghost use Rattle.grid.specs.Grid.{last_step};
ghost use Rattle.grid.specs.Arctangent as Arctangent;
ghost use Rattle.inverse_trigonometry.specs.Atan2 as Atan2;

pub use crate::arcsine::asin;
use math::Parts;

// The step of the arctangent, 2^-49.
const STEP: f64 = 1.7763568394002505e-15;

// Half pi in steps.
const HALF_PI: u64 = crate::bisection::HALF_PI / 8;

// 2^54, which makes any f64 but 0 that is below the normal ones a normal one.
const RAISE: f64 = 18014398509481984.0;

// The size of a finite f64.
#[derive(Clone, Copy)]
struct Magnitude {
    value: f64,
    ghost held: { fits binary64 value ≡ true },
    ghost number: { finite value ≡ true },
    ghost clear: { sign value ≡ false },
}

impl Magnitude {
    fn of(x: f64) -> Magnitude
        requires { finite x ≡ true }
        ensures { result.value ≡ Sign.abs x }
    {
        Magnitude {
            value: math::abs(x),
        }
    }

    // 2^54 times a size that is below the normal ones.
    fn raised(self) -> Magnitude
        requires { units_of self.value < 2 ^ 52 }
        ensures { units_of result.value ≡ units_of self.value * 2 ^ 54 }
    {
        Magnitude {
            value: self.value * RAISE,
        }
    }

    fn taken_apart(self) -> Parts
        ensures { units_of self.value ≡ result.digits * 2 ^ result.place }
    {
        Parts::of_pattern(f64::to_bits(self.value))
    }
}

// n without its last digits, `places` of them. `unbounded_shr` takes its places as a u32: for a
// number that is no u32 this would need an answer of its own.
fn cut(n: u64, places: u64) -> u64
    ensures { result ≡ n / 2 ^ places }
{
    if places < 64 { n >> places } else { 0 }
}

// An angle of the first octant.
#[derive(Clone, Copy)]
struct Steps {
    count: u64,
    ghost few: { count ≤ last_step },
}

// The arctangent of v / u, for a normal u that is not smaller than v.
fn normal_octant(u: Magnitude, v: Magnitude) -> Steps
    requires { (2 ^ 52 ≤ units_of u.value) × (units_of v.value ≤ units_of u.value) }
    ensures { result.count ≡ Atan2.octant (units_of u.value) (units_of v.value) }
{
    let p = u.taken_apart();
    let q = v.taken_apart();
    Steps {
        count: crate::bisection::arctangent(32 * p.digits, cut(32 * q.digits, p.place - q.place)),
    }
}

// The same for any u that is not 0.
fn octant(u: Magnitude, v: Magnitude) -> Steps
    requires { (0 < units_of u.value) × (units_of v.value ≤ units_of u.value) }
    ensures { result.count ≡ Atan2.octant (units_of u.value) (units_of v.value) }
{
    if u.value < f64::MIN_POSITIVE {
        return normal_octant(u.raised(), v.raised());
    }
    normal_octant(u, v)
}

// An octant's angle in the half plane: `steep` where y is the larger, `left` where x is negative.
// Half pi is cut, so that one step more keeps what is left of it on that side.
fn placed(steep: bool, left: bool, t: Steps) -> u64
    ensures { (result ≡ Arctangent.placed steep left t.count) × (result < 2 ^ 53) }
{
    let Steps { count } = t;
    if steep {
        if left {
            return HALF_PI + count + 1;
        }
        return HALF_PI - count;
    }
    if left {
        return 2 * HALF_PI - count;
    }
    count
}

// The angle of the point (a, b), or of (-a, b) where `left` is true, in steps.
fn angle(left: bool, a: Magnitude, b: Magnitude) -> u64
    ensures { (result ≡ Atan2.angle_steps left (units_of a.value) (units_of b.value)) × (result < 2 ^ 53) }
{
    if b.value == 0.0 {
        if left {
            return 2 * HALF_PI;
        }
        return 0;
    }
    if a.value == 0.0 {
        return HALF_PI;
    }
    if a.value < b.value {
        return placed(true, left, octant(b, a));
    }
    placed(false, left, octant(a, b))
}

// The angle of the point (x, y); not a number where one of them is not finite.
pub fn atan2(y: f64, x: f64) -> f64
    ensures { result ≡ Atan2.atan2 y x }
{
    if math::is_finite(y) && math::is_finite(x) {
        let t = angle(x < 0.0, Magnitude::of(x), Magnitude::of(y));
        return math::multiple(y < 0.0, t, STEP);
    }
    f64::NAN
}
