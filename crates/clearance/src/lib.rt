// Whether the traffic is clear on a course (avoidance.rs, `clears`): the distance of the contact
// that passes closest, and its place in the list, unless a contact closes under the distance that
// is wanted.
//
// A contact's offset and velocity are worked out once (`Moving`), own craft's velocity once for
// each course. specs/Clearing.antt has the plain definition, by `closest_point_of_approach`, and
// beside it what is computed here. Most courses of a search are blocked, and one contact that
// blocks is enough. So the suspects come first, of which a product tells, without a root or a
// division, that they may close under the distance. A contact blocks only if it is worked out to;
// where no suspect does, all are worked out.
#![tactic(auto)]

pub mod contact;
pub mod traffic;

ghost use Rattle.std.specs.Prelude.{◌≡◌, true, None};
ghost use Rattle.std.specs.Option.{IfSome};
ghost use Rattle.clearance.specs.Clearing as Spec;

use crate::contact::{Moving, contact_clears};
use motion::units::Distance;
use motion::vessel::Components;

// How many times the square of the wanted distance a suspect's may be.
const DOUBT: f64 = 1.000001;

// The least passing distance, and whose it is.
#[derive(Clone, Copy)]
pub struct Clearance {
    pub distance: Distance,
    pub limiting: Option<usize>,
}

// What passes without contacts: nobody, at the largest distance.
const NOBODY: Clearance = Clearance {
    distance: Distance(f64::MAX),
    limiting: None,
};

// Of the one that passes closest so far and the next, at its place: the earlier of equals.
#[tactic(auto, unfolding(crate::specs::Clearing::nearer))]
fn nearer(closest: Option<Clearance>, place: usize, distance: Distance) -> Clearance
    ensures { result ≡ Spec.nearer closest place distance }
{
    let next = Clearance {
        distance,
        limiting: Some(place),
    };
    closest
        .filter(|least| !(distance.0 < least.distance.0))
        .unwrap_or(next)
}

// Whether a contact seems to close to a point nearer than the root of `square`: that point's
// distance is the offset's cross product with the relative velocity, over the relative speed.
// Nothing is promised of it.
fn is_suspect(own: Components, m: Moving, square: f64) -> bool {
    let seen = m.seen_from(own);
    let cross = seen.offset.cross(seen.velocity);
    let speed = seen.velocity.dot(seen.velocity);
    seen.range_rate() < 0.0 && cross * cross < square * speed
}

// Whether a contact is a suspect and blocks the course.
fn is_blocker(own: Components, m: Moving, floor: f64) -> bool
    ensures { result ≡ true → Spec.contact_clears_computed own floor m ≡ None }
{
    is_suspect(own, m, floor * floor * DOUBT) && contact_clears(own, m, floor).is_none()
}

// A suspect that blocks the course, by its place. Which one, and whether there is one where a course
// is blocked, is left free; the contact at the place that is answered blocks.
pub fn blocker(own: Components, scene: &[Moving], floor: f64) -> Option<usize>
    ensures { IfSome result (Spec.Blocks own floor scene.now) }
{
    for (at, m) in scene.iter().enumerate() {
        if is_blocker(own, *m, floor) {
            return Some(at);
        }
    }
    None
}

// All contacts, each worked out.
fn tallied(own: Components, scene: &[Moving], floor: f64) -> Option<Clearance>
    ensures { result ≡ Spec.clears_computed own floor scene.now }
{
    // A loop: `try_fold` would carry an `Option` of an `Option`, one for a contact that blocks and
    // one for nobody yet.
    let mut closest = None;
    for (place, m) in scene.iter().enumerate() {
        let distance = contact_clears(own, *m, floor)?;
        closest = Some(nearer(closest, place, distance));
    }
    Some(closest.unwrap_or(NOBODY))
}

// With own craft at a velocity, whether no contact of the scene closes under `floor`.
pub fn clears(own: Components, scene: &[Moving], floor: f64) -> Option<Clearance>
    ensures { result ≡ Spec.clears_computed own floor scene.now }
{
    if blocker(own, scene, floor).is_some() {
        return None;
    }
    tallied(own, scene, floor)
}

// The same, of which the contact at a place is asked first, if there is one. The answer does not
// hang on it.
pub fn clears_from(
    own: Components,
    scene: &[Moving],
    floor: f64,
    first: Option<usize>,
) -> Option<Clearance>
    ensures { result ≡ Spec.clears_computed own floor scene.now }
{
    let place = first.unwrap_or(0);
    if place < scene.len() && is_blocker(own, scene[place], floor) {
        return None;
    }
    clears(own, scene, floor)
}
