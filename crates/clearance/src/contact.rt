// What one contact does to a course (avoidance.rs, `clears`): it closes under the distance that is
// wanted, or passes at a distance.
//
// specs/Contact.antt has the plain definition, by `closest_point_of_approach`, and beside it what
// is computed here.
ghost use Rattle.std.specs.Prelude.{◌≡◌};
ghost use Rattle.motion.specs.Vessel as Motion;
ghost use Rattle.clearance.specs.Contact as Spec;

use motion::units::Distance;
use motion::vessel::{Components, Contact, Vessel};
use relative_motion::approach::{ApproachDistance, Relative};

// A target as the search sees it: where it is and how it moves.
#[derive(Clone, Copy)]
pub struct Target {
    pub contact: Contact,
    pub vessel: Vessel,
}

// The same by its range, and by the north and east parts of its offset and its velocity. Apart from
// `Relative`, which has these fields: this velocity is the target's own, the same for every course
// that is tried, and that one is relative to own craft.
#[derive(Clone, Copy, Default)]
pub struct Moving {
    pub range: Distance,
    pub offset: Components,
    pub velocity: Components,
}

impl Moving {
    // The target, seen from own craft at a velocity.
    pub(crate) fn seen_from(self, own: Components) -> Relative
        ensures range { result.range ≡ self.range }
        ensures offset { result.offset ≡ self.offset }
        ensures velocity { result.velocity ≡ Motion.difference self.velocity own }
    {
        Relative {
            range: self.range,
            offset: self.offset,
            velocity: self.velocity - own,
        }
    }
}

// A target's parts, worked out.
impl From<Target> for Moving {
    ghost from_gives = { λ target result. result ≡ Spec.moving target };

    #[tactic(auto, unfolding(crate::specs::Contact::moving))]
    fn from(target: Target) -> Moving {
        let offset = target.contact.offset();
        let velocity = target.vessel.velocity();
        Moving {
            range: target.contact.range,
            offset,
            velocity,
        }
    }
}

fn cleared(pass: ApproachDistance, floor: f64) -> Option<Distance>
    ensures { result ≡ Spec.cleared floor pass }
{
    match pass {
        ApproachDistance::Closing(d) if d.0 < floor => None,
        ApproachDistance::Closing(d)
        | ApproachDistance::Opening { current_range: d }
        | ApproachDistance::Stationary { range: d } => Some(d),
    }
}

// A contact that does not close passes at its range, and costs no root and no division.
#[tactic(auto, unfolding(crate::specs::Contact::contact_clears_computed))]
pub(crate) fn contact_clears(own: Components, m: Moving, floor: f64) -> Option<Distance>
    ensures { result ≡ Spec.contact_clears_computed own floor m }
{
    let seen = m.seen_from(own);
    if seen.range_rate() >= 0.0 {
        return Some(m.range);
    }
    cleared(seen.approach_distance(), floor)
}
