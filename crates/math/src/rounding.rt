// Rounding to whole numbers, from math.rs: the library's methods. Each takes any f64, NaN and
// infinities included.
ghost use Rattle.std.specs.Prelude.{◌≡◌};
ghost use Rattle.math.specs.Whole as Whole;
ghost use Rattle.math.specs.Rounded as Cast;

// The whole part, towards zero.
#[tactic(auto, using(crate::proofs::Whole::trunc_is))]
pub fn trunc(x: f64) -> f64
    ensures { result ≡ Whole.trunc x }
{
    x.trunc()
}

// The nearest whole number, halves away from zero.
#[tactic(auto, using(crate::proofs::Whole::round_is))]
pub fn round(x: f64) -> f64
    ensures { result ≡ Whole.round_half_away x }
{
    x.round()
}

// The least whole number that is not below x.
#[tactic(auto, using(crate::proofs::Whole::ceil_is))]
pub fn ceil(x: f64) -> f64
    ensures { result ≡ Whole.ceil x }
{
    x.ceil()
}

// Whether x is a whole number.
#[tactic(auto, unfolding(crate::specs::Whole::is_integral))]
pub fn is_integral(x: f64) -> bool
    ensures { result ≡ Whole.is_integral x }
{
    x == trunc(x)
}

// The nearest whole number as an i32, 0 where it is out of range or not a number.
pub fn round_to_i32(value: f64) -> i32
    ensures { result ≡ Cast.round_to_i32 value }
{
    let rounded = round(value);
    if rounded > i32::MAX as f64 || rounded < i32::MIN as f64 {
        0
    } else {
        std::num::saturating_f64_to_i32(rounded)
    }
}
