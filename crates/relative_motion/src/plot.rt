// A target's course and speed from two plots.
ghost use Rattle.std.specs.Prelude.{◌≡◌};
ghost use Rattle.relative_motion.specs.Plot as Spec;

use elementary::error::Refusal;
use math::duration::Duration;
use motion::units::{Angle, Direction, Speed};
use motion::vessel;
use motion::vessel::{Components, Contact, Vessel};

// What two plots tell of a target. The aspect is own craft's bearing off the target's bow, negative
// on its port side.
#[derive(Clone, Copy)]
pub struct TargetSolution {
    pub vessel: Vessel,
    pub relative_course: Direction,
    pub relative_speed: Speed,
    pub aspect: Angle,
}

// The target's velocity relative to own craft, from plots so many hours apart.
#[tactic(auto, unfolding(crate::specs::Plot::relative_motion))]
fn relative_motion(first: Contact, second: Contact, interval: f64) -> Components
    ensures { result ≡ Spec.relative_motion first second interval }
{
    (second.offset() - first.offset()) / interval
}

// The vessel that moves so relative to own craft.
#[tactic(auto, unfolding(crate::specs::Plot::target_of))]
fn target_of(own: Vessel, relative: Components) -> Vessel
    ensures { result ≡ Spec.target_of own relative }
{
    Vessel::from_velocity(relative + own.velocity())
}

#[tactic(auto, unfolding(crate::specs::Plot::solution))]
fn solution(own: Vessel, second: Contact, relative: Components) -> TargetSolution
    ensures { result ≡ Spec.solution own second relative }
{
    let target = target_of(own, relative);
    let from_target = math::angle::reciprocal(second.bearing.0);
    TargetSolution {
        vessel: target,
        relative_course: vessel::direction_of(relative),
        relative_speed: Speed(relative.size()),
        aspect: Angle(math::angle::wrap180(from_target - target.course.0)),
    }
}

// With accepted arguments. Plots at one moment tell nothing.
#[tactic(auto, using(crate::proofs::PlotCode::no_interval, crate::proofs::PlotCode::some_interval))]
fn solved(
    own: Vessel,
    first: Contact,
    second: Contact,
    interval: f64,
) -> Result<TargetSolution, Refusal>
    ensures { result ≡ Spec.solved own first second interval }
{
    if interval <= 0.0 {
        return Err(Refusal::Time);
    }
    Ok(solution(own, second, relative_motion(first, second, interval)))
}

fn check_plots(
    own: Vessel,
    first: Contact,
    second: Contact,
    elapsed: Duration,
) -> Result<(), Refusal>
    ensures { result ≡ Spec.plot_verdict own first second elapsed }
{
    motion::argument::check_vessel(own)?;
    motion::argument::check_contact(first)?;
    motion::argument::check_contact(second)?;
    motion::argument::ensure(elapsed.is_accepted(), Refusal::Time)
}

// The target's course and speed from two plots and the time between them.
pub fn target_from_plot(
    own: Vessel,
    first: Contact,
    second: Contact,
    elapsed: Duration,
) -> Result<TargetSolution, Refusal>
    ensures { result ≡ Spec.plot_answer own first second elapsed }
{
    check_plots(own, first, second, elapsed)?;
    solved(own, first, second, elapsed.hours())
}
