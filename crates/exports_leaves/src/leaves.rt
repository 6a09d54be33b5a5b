// C exports of the leaf functions, for the comparison with Rust. Each passes its arguments on, and
// its contract is that of the function that it exports.
ghost use Rattle.std.specs.Prelude.{◌≡◌};
ghost use Rattle.math.specs.Cast as Cast;
ghost use Rattle.math.specs.Rounded as Rounded;
ghost use Rattle.math.specs.Convert as Convert;
ghost use Rattle.math.specs.Test as Test;
ghost use Rattle.math.specs.Whole as Whole;
ghost use Rattle.math.specs.Fold as Fold;

#[unsafe(no_mangle)]
pub extern "C" fn port_trunc(x: f64) -> f64
    ensures { result ≡ Whole.trunc x }
{
    math::rounding::trunc(x)
}

#[unsafe(no_mangle)]
pub extern "C" fn port_round(x: f64) -> f64
    ensures { result ≡ Whole.round_half_away x }
{
    math::rounding::round(x)
}

#[unsafe(no_mangle)]
pub extern "C" fn port_ceil(x: f64) -> f64
    ensures { result ≡ Whole.ceil x }
{
    math::rounding::ceil(x)
}

#[unsafe(no_mangle)]
pub extern "C" fn port_to_radians(x: f64) -> f64
    ensures { result ≡ Convert.to_radians x }
{
    math::to_radians(x)
}

#[unsafe(no_mangle)]
pub extern "C" fn port_wrap360(x: f64) -> f64
    ensures { result ≡ Fold.whole_fold x }
{
    math::angle::wrap360(x)
}

#[unsafe(no_mangle)]
pub extern "C" fn port_wrap180(x: f64) -> f64
    ensures { result ≡ Fold.half_fold x }
{
    math::angle::wrap180(x)
}

#[unsafe(no_mangle)]
pub extern "C" fn port_reciprocal(x: f64) -> f64
    ensures { result ≡ Fold.reciprocal x }
{
    math::angle::reciprocal(x)
}

#[unsafe(no_mangle)]
pub extern "C" fn port_is_effectively_zero(value: f64, scale: f64) -> bool
    ensures { result ≡ Test.is_effectively_zero value scale }
{
    math::is_effectively_zero(value, scale)
}

#[unsafe(no_mangle)]
pub extern "C" fn port_round_to_i32(x: f64) -> i32
    ensures { result ≡ Rounded.round_to_i32 x }
{
    math::rounding::round_to_i32(x)
}

#[unsafe(no_mangle)]
pub extern "C" fn port_to_usize(x: f64) -> usize
    ensures { result ≡ Cast.to_usize x }
{
    math::to_usize(x)
}
