// Directions and differences of directions, in degrees (document 01, the leaf helpers). Each
// function takes any f64; what is not finite gives NaN.
ghost use Rattle.std.specs.Prelude.{◌≡◌};
ghost use Rattle.math.specs.Fold as Fold;

use crate::remainder::FULL_TURN;

// Half a turn, in degrees.
pub const HALF_TURN: f64 = FULL_TURN / 2.0;

// The whole fold: the same direction, from 0 up to but not including 360.
pub fn wrap360(degrees: f64) -> f64
    ensures { result ≡ Fold.whole_fold degrees }
{
    let rest = crate::remainder::remainder(degrees);
    let turned = not_below_zero(rest);
    if turned == FULL_TURN { 0.0 } else { turned }
}

// A remainder with a full turn added where it is negative.
fn not_below_zero(rest: f64) -> f64
    ensures { result ≡ Fold.turned rest }
{
    if rest < 0.0 { rest + FULL_TURN } else { rest }
}

// The half fold: the same difference of directions, above -180 and at most 180.
pub fn wrap180(degrees: f64) -> f64
    ensures { result ≡ Fold.half_fold degrees }
{
    let whole = wrap360(degrees);
    if whole > HALF_TURN {
        return whole - FULL_TURN;
    }
    whole
}

// The opposite direction.
pub fn reciprocal(degrees: f64) -> f64
    ensures { result ≡ Fold.reciprocal degrees }
{
    wrap360(degrees + HALF_TURN)
}

// A direction from any number of degrees, for relative bearings too: the whole fold. Both names are
// the Rust's, which has `wrap360` of numbers and `Direction::from_degrees_wrapped` of what becomes
// a direction, and each caller has the Rust's.
pub fn from_degrees_wrapped(degrees: f64) -> f64
    ensures { result ≡ Fold.whole_fold degrees }
{
    wrap360(degrees)
}
