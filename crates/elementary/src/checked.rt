// The elementary functions that have a domain, refusing with number 1 outside it.
ghost use Rattle.std.specs.Prelude.{◌≡◌};
ghost use Rattle.elementary.specs.Checked.{number_or_refused, hypot_answer, sin_answer, cos_answer, asin_answer, atan2_answer};

use crate::error::Refusal;

// A value, or refusal 1 in place of a NaN.
#[tactic(auto, using(crate::proofs::CheckedCode::number_of, crate::proofs::CheckedCode::refused_for))]
fn number_or_refused(value: f64) -> Result<f64, Refusal>
    ensures { result ≡ number_or_refused value }
{
    if value.is_nan() {
        Err(Refusal::Angle)
    } else {
        Ok(value)
    }
}

// The hypotenuse over two finite sides of at most 2^500 in size.
#[tactic(auto, using(crate::proofs::CheckedCode::hypot_answer_lem))]
pub fn hypot(x: f64, y: f64) -> Result<f64, Refusal>
    ensures { result ≡ hypot_answer x y }
{
    number_or_refused(roots::hypot(x, y))
}

// The sine of an angle of at most 16 radians either sign.
#[tactic(auto, using(crate::proofs::CheckedCode::sin_answer_lem))]
pub fn sin(x: f64) -> Result<f64, Refusal>
    ensures { result ≡ sin_answer x }
{
    number_or_refused(trigonometry::sin(x))
}

// The cosine of an angle of at most 16 radians either sign.
#[tactic(auto, using(crate::proofs::CheckedCode::cos_answer_lem))]
pub fn cos(x: f64) -> Result<f64, Refusal>
    ensures { result ≡ cos_answer x }
{
    number_or_refused(trigonometry::cos(x))
}

// The arcsine of a number from 0 to 1.
#[tactic(auto, using(crate::proofs::CheckedCode::asin_answer_lem))]
pub fn asin(x: f64) -> Result<f64, Refusal>
    ensures { result ≡ asin_answer x }
{
    number_or_refused(inverse_trigonometry::arctangent::asin(x))
}

// The angle of the point (x, y), both finite.
#[tactic(auto, using(crate::proofs::CheckedCode::atan2_answer_lem))]
pub fn atan2(y: f64, x: f64) -> Result<f64, Refusal>
    ensures { result ≡ atan2_answer y x }
{
    number_or_refused(inverse_trigonometry::arctangent::atan2(y, x))
}
