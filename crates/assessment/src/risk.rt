// Of one contact: how fast the bearing draws, the closest approach and the bow crossing where there
// are any, and the risk against the vessel's limits. From assessment.rs; the definitions in specs/
// follow it operation by operation.
ghost use Rattle.std.specs.Prelude.{◌≡◌};
ghost use Rattle.assessment.specs.Risk as Spec;

use crate::policy::CpaPolicy;
use elementary::error::Refusal;
use motion::units::{Distance, RateOfTurn};
use relative_motion::approach::{Approach, Cpa, Relative};

// In the order of concern: the range opens or stays; the closest approach is outside the limit;
// inside it but late; inside both.
#[derive(Clone, Copy, Default, PartialEq, Eq, PartialOrd, Ord)]
pub enum CollisionRisk {
    #[default]
    Opening,
    Passing,
    Developing,
    Dangerous,
}

impl CollisionRisk {
    // The place in the order of concern, 0 to 3.
    pub fn rank(self) -> u8
        ensures { result ≡ Spec.rank self }
    {
        self as u8
    }
}

// The bearing rate in radians per hour, positive drawing right; 0 where the range's square is 0.
#[tactic(auto, unfolding(crate::specs::Risk::drift_per_hour))]
fn drift_per_hour(seen: Relative) -> f64
    ensures { result ≡ Spec.drift_per_hour seen.range.0 seen.offset seen.velocity }
{
    let Relative {
        range,
        offset,
        velocity: relative,
    } = seen;
    let squared = range.0 * range.0;
    if squared > 0.0 {
        return offset.cross(relative) / squared;
    }
    0.0
}

// The same in degrees per minute.
#[tactic(auto, unfolding(crate::specs::Risk::drift_of))]
pub(crate) fn drift_of(seen: Relative) -> RateOfTurn
    ensures { result ≡ Spec.drift_of seen.range.0 seen.offset seen.velocity }
{
    let per_hour = drift_per_hour(seen);
    if math::is_finite(per_hour) {
        return RateOfTurn(math::to_degrees(per_hour) / 60.0);
    }
    RateOfTurn(0.0)
}

// The closest approach, where the range closes.
pub fn nearest(a: Approach) -> Option<Cpa>
    ensures { result ≡ Spec.nearest a }
{
    match a {
        Approach::Closing(cpa) => Some(cpa),
        Approach::Opening { .. } | Approach::Stationary { .. } => None,
    }
}

// The range of a bow crossing, where there is one.
pub(crate) fn ahead_of(answer: Result<Distance, Refusal>) -> Option<Distance>
    ensures { result ≡ Spec.ahead_of answer }
{
    answer.ok()
}

// The risk of a closest approach: outside the limit, inside it but later than the time limit, or
// inside both.
#[tactic(auto, unfolding(math::specs::Clock::is_before), using(crate::proofs::RiskCode::develops, crate::proofs::RiskCode::endangers, crate::proofs::RiskCode::passes))]
fn risk_at(policy: CpaPolicy, cpa: Cpa) -> CollisionRisk
    ensures { result ≡ Spec.risk_at policy cpa }
{
    if cpa.distance.0 > policy.cpa_limit().0 {
        return CollisionRisk::Passing;
    }
    if policy.tcpa_limit() < cpa.time_to_go {
        return CollisionRisk::Developing;
    }
    CollisionRisk::Dangerous
}

// The risk, opening where there is no closest approach to come.
pub fn risk_of(policy: CpaPolicy, p: Option<Cpa>) -> CollisionRisk
    ensures { result ≡ Spec.risk_of policy p }
{
    p.map_or(CollisionRisk::Opening, |cpa| risk_at(policy, cpa))
}
