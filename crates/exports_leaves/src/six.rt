// The elementary functions for C, with NaN in place of refusal number 1. Each contract has the
// equation with the whole-number method and what is proved of it.
ghost use Rattle.std.specs.Prelude.{◌≡◌};
ghost use Rattle.roots.specs.Sqrt.{sqrt, IsSqrt};
ghost use Rattle.roots.specs.Hypot.{hypot, IsHypot};
ghost use Rattle.trigonometry.specs.Sine.{sin, cos, IsSine, IsCosine};
ghost use Rattle.inverse_trigonometry.specs.Asin.{asin, IsAsin};
ghost use Rattle.inverse_trigonometry.specs.Atan2.{atan2, IsAtan2};

#[unsafe(no_mangle)]
pub extern "C" fn port_sqrt(x: f64) -> f64
    ensures { (result ≡ sqrt x) × IsSqrt x result }
{
    roots::sqrt(x)
}

#[unsafe(no_mangle)]
pub extern "C" fn port_hypot(x: f64, y: f64) -> f64
    ensures { (result ≡ hypot x y) × IsHypot x y result }
{
    roots::hypot(x, y)
}

#[unsafe(no_mangle)]
pub extern "C" fn port_sin(x: f64) -> f64
    ensures { (result ≡ sin x) × IsSine x result }
{
    trigonometry::sin(x)
}

#[unsafe(no_mangle)]
pub extern "C" fn port_cos(x: f64) -> f64
    ensures { (result ≡ cos x) × IsCosine x result }
{
    trigonometry::cos(x)
}

#[unsafe(no_mangle)]
pub extern "C" fn port_asin(x: f64) -> f64
    ensures { (result ≡ asin x) × IsAsin x result }
{
    inverse_trigonometry::arctangent::asin(x)
}

#[unsafe(no_mangle)]
pub extern "C" fn port_atan2(y: f64, x: f64) -> f64
    ensures { (result ≡ atan2 y x) × IsAtan2 y x result }
{
    inverse_trigonometry::arctangent::atan2(y, x)
}
