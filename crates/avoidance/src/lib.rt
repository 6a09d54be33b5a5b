// The avoidance of one contact: the smallest permitted alteration that opens it to the distance
// that is wanted (avoidance.rs, `avoid`). A side's exact course is tried first, then its trial list
// (`seed`); specs/Avoid.antt has the definition.
#![tactic(auto)]

pub mod search;
pub mod seed;

ghost use Rattle.std.specs.Prelude.{◌≡◌};
ghost use Rattle.motion.specs.Check as Check;
ghost use Rattle.avoidance.specs.Avoid as Spec;

use crate::search::{Chosen, Search};
use crate::seed::{courses_or_none, seeded_choice};
use clearance::contact::{Moving, Target};
use elementary::error::Refusal;
use manoeuvre::AvoidanceManoeuvre;
use manoeuvre::constraints::ManoeuvreConstraints;
use motion::units::{Angle, Distance};
use motion::vessel::{Contact, Vessel};

// Apart from `ruled`'s of this name: `avoid` answers `AvoidanceManoeuvre`, the Rust's type, and
// `ruled` the other, which says why there are two.
fn manoeuvre_of(own: Vessel, c: ManoeuvreConstraints, x: Chosen) -> AvoidanceManoeuvre
    ensures { result ≡ Spec.manoeuvre_of own c x }
{
    let alteration = crate::search::signed(x.side, x.magnitude.0);
    AvoidanceManoeuvre::new(
        crate::search::altered(own, alteration).course,
        Angle(alteration),
        manoeuvre::turn_time(math::abs(alteration), c.rate_of_turn()),
        x.clearance.distance,
        None,
    )
}

// With accepted arguments.
#[tactic(auto, unfolding(crate::specs::Avoid::avoided_computed))]
fn avoided(
    own: Vessel,
    contact: Contact,
    target: Vessel,
    desired: Distance,
    c: ManoeuvreConstraints,
) -> Result<AvoidanceManoeuvre, Refusal>
    ensures { result ≡ Spec.avoided_computed own contact target desired c }
{
    let courses = courses_or_none(relative_motion::course::course_for_cpa(
        own, contact, target, desired,
    ));
    let m = Moving::from(Target {
        contact,
        vessel: target,
    });
    seeded_choice(&Search::new(own, &[m], desired), courses, c)
        .map(|x| manoeuvre_of(own, c, x))
        .ok_or(Refusal::NoTrialClears)
}

// Own craft, the contact, the target, the desired distance, the constraints.
fn check_arguments(
    own: Vessel,
    contact: Contact,
    target: Vessel,
    desired: Distance,
    c: ManoeuvreConstraints,
) -> Result<(), Refusal>
    ensures { result ≡ Check.checked (Spec.avoid_checks own contact target desired c) }
{
    motion::argument::check_encounter(own, contact, target)?;
    motion::argument::check_distance(desired)?;
    manoeuvre::constraints::check_constraints(c)
}

// The smallest permitted alteration that opens the contact to `desired`, or leaves it opening.
// Arguments are checked in document 01's order: own craft, the contact, the target, the desired
// distance, the constraints; it refuses with 5 where no trial clears.
pub fn avoid(
    own: Vessel,
    contact: Contact,
    target: Vessel,
    desired: Distance,
    constraints: ManoeuvreConstraints,
) -> Result<AvoidanceManoeuvre, Refusal>
    ensures { result ≡ Spec.avoid_answer own contact target desired constraints }
{
    check_arguments(own, contact, target, desired, constraints)?;
    avoided(own, contact, target, desired, constraints)
}
