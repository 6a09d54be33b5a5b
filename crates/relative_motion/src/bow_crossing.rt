// The range ahead at which a contact crosses own track, from relative_motion.rs. Arguments outside
// the ranges of document 01 are refused by its numbers, in its order. The definitions in specs/
// follow the Rust operation by operation.
ghost use Rattle.std.specs.Prelude.{◌≡◌};
ghost use Rattle.relative_motion.specs.Bow as Spec;

use crate::approach::Relative;
use elementary::error::Refusal;
use motion::units::Distance;
use motion::vessel;
use motion::vessel::{Components, Contact, Vessel};

// Below this a determinant says that the contact moves along own track.
const PARALLEL: f64 = 1e-12;

// How far astern, in parts of the range, still counts as over own craft.
const TOLERANCE: f64 = 1e-9;

// offset + velocity * time = ahead * range, solved for the time and the range.
#[tactic(auto, unfolding(crate::specs::Bow::crossing, crate::specs::Bow::determinant))]
pub fn crossing(seen: Relative, ahead: Components) -> Result<Distance, Refusal>
    ensures { result ≡ Spec.crossing seen.range.0 seen.offset seen.velocity ahead }
{
    let Relative {
        range,
        offset,
        velocity,
    } = seen;
    let determinant = velocity.cross(-ahead);
    if math::abs(determinant) < PARALLEL {
        return Err(Refusal::AlongOwnTrack);
    }
    // The other two are not by `cross`: of the next one a sign stands elsewhere, of the last one
    // the factors in another order, and each would need a law of f64s in the proof.
    let time = (-offset.north * -ahead.east + offset.east * -ahead.north) / determinant;
    if time <= 0.0 {
        return Err(Refusal::NotAhead);
    }
    let range_ahead = (velocity.east * offset.north - velocity.north * offset.east) / determinant;
    if range_ahead < -(range.0 * TOLERANCE) {
        return Err(Refusal::NotAhead);
    }
    Ok(Distance(math::larger(0.0, range_ahead)))
}

// The range ahead at which the contact crosses own track.
#[tactic(auto, unfolding(crate::specs::Bow::bow_answer))]
pub fn bow_crossing_range(
    own: Vessel,
    contact: Contact,
    target: Vessel,
) -> Result<Distance, Refusal>
    ensures { result ≡ Spec.bow_answer own contact target }
{
    motion::argument::check_encounter(own, contact, target)?;
    crossing(
        Relative::of(own, contact, target),
        vessel::unit(own.course.0),
    )
}
