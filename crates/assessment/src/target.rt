// Assessed targets, of which the collision picture is made: which of two is the more dangerous, and
// what a pass over them keeps.
ghost use Rattle.std.specs.Prelude.{◌≡◌};
ghost use Rattle.assessment.specs.Target as Spec;

use crate::assess::CollisionAssessment;
use crate::risk::CollisionRisk;
use math::duration::Duration;

// An assessment, and the number by which its target is known.
#[derive(Clone, Copy, Default)]
pub struct TargetAssessment {
    pub target: u32,
    pub assessment: CollisionAssessment,
}

// The time to go, the longest one where the range does not close.
fn time_of(p: Option<Duration>) -> Duration
    ensures { result ≡ Spec.time_of p }
{
    p.unwrap_or(Duration::MAX)
}

// Whether one is more dangerous than another: a higher risk, or the same and less time. Of a pair
// that is less the time is the less one too, so that each pair has the other's time.
#[tactic(auto, unfolding(crate::specs::Target::outranks, math::specs::Clock::is_before))]
fn outranks(a: CollisionAssessment, b: CollisionAssessment) -> bool
    ensures { result ≡ Spec.outranks a b }
{
    (b.risk(), time_of(a.tcpa())) < (a.risk(), time_of(b.tcpa()))
}

// The more dangerous of the best so far and the next one, the next on equality.
pub(crate) fn keep(best: Option<TargetAssessment>, e: TargetAssessment) -> Option<TargetAssessment>
    ensures { result ≡ Spec.keep best e }
{
    best.filter(|b| outranks(b.assessment, e.assessment))
        .or(Some(e))
}

// Whether a target's risk is at least the given one.
#[tactic(auto, unfolding(crate::specs::Target::is_at_least))]
pub(crate) fn is_at_least(e: TargetAssessment, least: CollisionRisk) -> bool
    ensures { result ≡ Spec.is_at_least least e }
{
    least <= e.assessment.risk()
}
