// Arcsine of f64s by whole numbers: `bisection` finds the angle, and this one puts the answer
// together, which is exact. What is proved of the answers: specs/Asin.
ghost use Rattle.std.specs.Prelude.{◌≡◌};
ghost use Rattle.inverse_trigonometry.specs.Asin.{asin};

use trigonometry::TINY;

// The step of the arcsine, 2^-52.
const STEP: f64 = f64::EPSILON;

// The arcsine of x; not a number outside 0 to 1.
pub fn asin(x: f64) -> f64
    ensures { result ≡ asin x }
{
    if 0.0 <= x && x <= 1.0 {
        if x < TINY {
            return x;
        }
        if let Some(n) = trigonometry::units(x) {
            return math::multiple(false, crate::bisection::arcsine(n), STEP);
        }
    }
    f64::NAN
}
