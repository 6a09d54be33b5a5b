// One contact, assessed.
ghost use Rattle.std.specs.Prelude.{◌≡◌};
ghost use Rattle.assessment.specs.Assess as Spec;

use crate::policy::CpaPolicy;
use crate::risk::CollisionRisk;
use elementary::error::Refusal;
use math::duration::Duration;
use motion::units::{Direction, Distance, RateOfTurn, Speed};
use motion::vessel;
use motion::vessel::{Contact, Vessel};
use relative_motion::approach::{Cpa, Relative};

#[derive(Clone, Copy, Default)]
pub struct CollisionAssessment {
    range: Distance,
    bearing: Direction,
    relative_course: Direction,
    relative_speed: Speed,
    bearing_drift: RateOfTurn,
    cpa: Option<Cpa>,
    bow_crossing: Option<Distance>,
    risk: CollisionRisk,
}

// With accepted arguments.
#[tactic(auto, unfolding(crate::specs::Assess::assessment))]
fn assessed(own: Vessel, contact: Contact, target: Vessel, policy: CpaPolicy) -> CollisionAssessment
    ensures { result ≡ Spec.assessment own contact target policy }
{
    let seen = Relative::of(own, contact, target);
    let ahead = relative_motion::bow_crossing::crossing(seen, vessel::unit(own.course.0));
    let cpa = crate::risk::nearest(seen.approach());
    CollisionAssessment {
        range: contact.range,
        bearing: contact.bearing,
        relative_course: vessel::direction_of(seen.velocity),
        relative_speed: Speed(seen.velocity.size()),
        bearing_drift: crate::risk::drift_of(seen),
        cpa,
        bow_crossing: crate::risk::ahead_of(ahead),
        risk: crate::risk::risk_of(policy, cpa),
    }
}

// Arguments are checked in document 01's order: own craft, the contact, the target, the policy.
pub fn assess(
    own: Vessel,
    contact: Contact,
    target: Vessel,
    policy: CpaPolicy,
) -> Result<CollisionAssessment, Refusal>
    ensures { result ≡ Spec.assess_answer own contact target policy }
{
    motion::argument::check_encounter(own, contact, target)?;
    crate::policy::check_policy(policy)?;
    Ok(assessed(own, contact, target, policy))
}

impl CollisionAssessment {
    // The contact's range, in nautical miles.
    pub fn range(self) -> Distance
        ensures { result ≡ self.range }
    {
        self.range
    }

    // The contact's true bearing, in degrees.
    pub fn bearing(self) -> Direction
        ensures { result ≡ self.bearing }
    {
        self.bearing
    }

    // The direction in which the echo moves.
    pub fn relative_course(self) -> Direction
        ensures { result ≡ self.relative_course }
    {
        self.relative_course
    }

    // How fast the echo moves, in knots.
    pub fn relative_speed(self) -> Speed
        ensures { result ≡ self.relative_speed }
    {
        self.relative_speed
    }

    // How fast the bearing draws, in degrees per minute, positive to the right.
    pub fn bearing_drift(self) -> RateOfTurn
        ensures { result ≡ self.bearing_drift }
    {
        self.bearing_drift
    }

    // The closest approach, where the range closes.
    pub fn cpa(self) -> Option<Cpa>
        ensures { result ≡ self.cpa }
    {
        self.cpa
    }

    // The distance of the closest approach, where the range closes.
    pub fn cpa_distance(self) -> Option<Distance>
        ensures { result ≡ Spec.cpa_distance self.cpa }
    {
        self.cpa.map(|cpa| cpa.distance)
    }

    // The time to the closest approach, where the range closes.
    pub fn tcpa(self) -> Option<Duration>
        ensures { result ≡ Spec.tcpa self.cpa }
    {
        self.cpa.map(|cpa| cpa.time_to_go)
    }

    // The true bearing at the closest approach, where the range closes.
    pub fn bearing_at_cpa(self) -> Option<Direction>
        ensures { result ≡ Spec.bearing_at_cpa self.cpa }
    {
        self.cpa.map(|cpa| cpa.bearing)
    }

    // The range ahead at which the target crosses own track, if she will.
    pub fn bow_crossing(self) -> Option<Distance>
        ensures { result ≡ self.bow_crossing }
    {
        self.bow_crossing
    }

    // The risk against the policy's limits.
    pub fn risk(self) -> CollisionRisk
        ensures { result ≡ self.risk }
    {
        self.risk
    }
}
