// Course and speed fitted to the plots of a window by least squares (track.rs, `fit`,
// `fitted_motion`), without the latitude stretch.
ghost use Rattle.std.specs.Prelude.{◌≡◌};
ghost use Rattle.track.specs.Beside as Beside;
ghost use Rattle.track.specs.Fit as Spec;
ghost use Rattle.track.specs.Window as Windows;

use crate::window::{Fix, Window};
use elementary::error::Refusal;
use motion::units::Speed;
use motion::vessel;
use motion::vessel::{Components, Vessel};

// A fix in the local plane about the last one: hours, negative before it, and miles north and east.
// Also sums and means of such.
#[derive(Clone, Copy)]
struct Coordinates {
    t: f64,
    n: f64,
    e: f64,
}

// Sums of products of what hours and miles are off their means.
#[derive(Clone, Copy)]
struct Moments {
    tt: f64,
    tn: f64,
    te: f64,
}

#[tactic(auto, unfolding(crate::specs::Fit::hours, motion::specs::Vessel::difference))]
fn local(fix: Fix, last: Fix) -> Coordinates
    ensures { result ≡ Beside.local last fix }
{
    let ago = last.seconds.saturating_sub(fix.seconds);
    let miles = fix.offset - last.offset;
    Coordinates {
        t: -math::count_to_f64(ago as usize) / 3600.0,
        n: miles.north,
        e: miles.east,
    }
}

impl Coordinates {
    fn plus(self, l: Coordinates) -> Coordinates
        ensures { result ≡ Beside.plus self l }
    {
        Coordinates {
            t: self.t + l.t,
            n: self.n + l.n,
            e: self.e + l.e,
        }
    }
}

impl Moments {
    // The products of one more.
    fn with(self, mean: Coordinates, l: Coordinates) -> Moments
        ensures { result ≡ Beside.with_products mean self l }
    {
        let t = l.t - mean.t;
        Moments {
            tt: self.tt + t * t,
            tn: self.tn + t * (l.n - mean.n),
            te: self.te + t * (l.e - mean.e),
        }
    }
}

// The sums over all, oldest first.
fn sums(fixes: &[Fix], last: Fix) -> Coordinates
    ensures { result ≡ Beside.sums last fixes.now }
{
    let mut sum = Coordinates {
        t: 0.0,
        n: 0.0,
        e: 0.0,
    };
    for fix in fixes {
        sum = sum.plus(local(*fix, last));
    }
    sum
}

#[tactic(auto, unfolding(crate::specs::Fit::mean))]
fn means(fixes: &[Fix], last: Fix) -> Coordinates
    ensures { result ≡ Beside.means last fixes.now }
{
    let sum = sums(fixes, last);
    let count = math::count_to_f64(fixes.len());
    Coordinates {
        t: sum.t / count,
        n: sum.n / count,
        e: sum.e / count,
    }
}

fn products(fixes: &[Fix], last: Fix) -> Moments
    ensures { result ≡ Beside.moments last fixes.now }
{
    let mean = means(fixes, last);
    let mut s = Moments {
        tt: 0.0,
        tn: 0.0,
        te: 0.0,
    };
    for fix in fixes {
        s = s.with(mean, local(*fix, last));
    }
    s
}

// The velocity that fits best; none where the times are not spread.
#[tactic(auto, unfolding(crate::specs::Fit::fitted))]
fn fitted(fixes: &[Fix], last: Fix) -> Option<Components>
    ensures { result ≡ Spec.fitted last fixes.now }
{
    let s = products(fixes, last);
    if (s.tt <= 0.0) | !math::is_finite(s.tt) {
        return None;
    }
    Some(Components {
        north: s.tn / s.tt,
        east: s.te / s.tt,
    })
}

// The vessel that has a velocity, none where its speed is 0; above 1,000 knots refused (number 2).
#[tactic(auto, unfolding(crate::specs::Fit::at_speed, motion::specs::Vessel::from_velocity))]
fn at_speed(velocity: Components) -> Result<Option<Vessel>, Refusal>
    ensures { result ≡ Spec.at_speed velocity }
{
    let speed = velocity.size();
    if !math::is_finite(speed) | (speed <= 0.0) {
        return Ok(None);
    }
    if speed > 1000.0 {
        return Err(Refusal::Speed);
    }
    Ok(Some(Vessel {
        course: vessel::direction_of(velocity),
        speed: Speed(speed),
    }))
}

fn motion(fit: Option<Components>) -> Result<Option<Vessel>, Refusal>
    ensures { result ≡ Spec.motion fit }
{
    match fit {
        Some(velocity) => at_speed(velocity),
        None => Ok(None),
    }
}

fn fit_to(newest: Option<Fix>, fixes: &[Fix]) -> Result<Option<Vessel>, Refusal>
    ensures { result ≡ Spec.fit_to newest fixes.now }
{
    match newest {
        Some(last) if fixes.len() >= 2 => motion(fitted(fixes, last)),
        _ => Err(Refusal::TooFewPlots),
    }
}

impl Window {
    // Course and speed by least squares, or no motion; with fewer than two plots refused (number
    // 17), above 1,000 knots too (2).
    #[tactic(auto, unfolding(crate::specs::Fit::fit_answer))]
    pub fn fit(self) -> Result<Option<Vessel>, Refusal>
        ensures is { result ≡ Spec.fit_answer (Windows.fixes self) }
        ensures property { Spec.Fits (Windows.fixes self) result }
    {
        fit_to(self.newest(), self.fixes())
    }
}
