// The limits within which an approach is dangerous, from assessment.rs; the definitions in specs/
// follow it operation by operation.
ghost use Rattle.std.specs.Prelude.{◌≡◌};
ghost use Rattle.motion.specs.Check as Check;
ghost use Rattle.assessment.specs.Policy as Spec;

use elementary::error::Refusal;
use math::duration::Duration;
use motion::units::Distance;

// A closest approach within `cpa_limit` is dangerous; later than `tcpa_limit` it is developing.
#[derive(Clone, Copy)]
pub struct CpaPolicy {
    cpa_limit: Distance,
    tcpa_limit: Duration,
}

// A distance (number 3), then a time that may be handed in (6).
pub(crate) fn check_policy(policy: CpaPolicy) -> Result<(), Refusal>
    ensures { result ≡ Check.checked (Spec.policy_checks policy) }
{
    motion::argument::ensure(
        motion::argument::is_distance(policy.cpa_limit),
        Refusal::Distance,
    )?;
    motion::argument::ensure(policy.tcpa_limit.is_accepted(), Refusal::Time)
}

impl CpaPolicy {
    // A policy of accepted limits, or the number of the first that is not.
    pub fn new(limit: Distance, time: Duration) -> Result<CpaPolicy, Refusal>
        ensures { result ≡ Spec.policy_answer limit time }
    {
        let policy = CpaPolicy {
            cpa_limit: limit,
            tcpa_limit: time,
        };
        check_policy(policy)?;
        Ok(policy)
    }

    // The limit of the closest approach's distance, in nautical miles.
    pub fn cpa_limit(self) -> Distance
        ensures { result ≡ self.cpa_limit }
    {
        self.cpa_limit
    }

    // The limit of the time to it.
    pub fn tcpa_limit(self) -> Duration
        ensures { result ≡ self.tcpa_limit }
    {
        self.tcpa_limit
    }
}
