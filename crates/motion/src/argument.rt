// The checks of arguments, in document 01's order.
ghost use Rattle.std.specs.Prelude.{◌≡◌, [], ◌∷◌};
ghost use Rattle.motion.specs.Check as Spec;

use crate::units::{Direction, Distance, Speed};
use crate::vessel::{Contact, Vessel};
use elementary::error::Refusal;
use math::remainder::FULL_TURN;

// From 0 up to but not including 360.
#[tactic(auto, unfolding(crate::specs::Check::is_direction))]
pub fn is_direction(d: Direction) -> bool
    ensures { result ≡ Spec.is_direction d }
{
    d.0 >= 0.0 && d.0 < FULL_TURN
}

// From 0 to 1,000 knots.
#[tactic(auto, unfolding(crate::specs::Check::is_speed))]
fn is_speed(s: Speed) -> bool
    ensures { result ≡ Spec.is_speed s }
{
    elementary::error::ensure_range(s.0, 0.0, 1000.0)
}

// From 0 to 10,000 nautical miles.
#[tactic(auto, unfolding(crate::specs::Check::is_distance))]
pub fn is_distance(d: Distance) -> bool
    ensures { result ≡ Spec.is_distance d }
{
    elementary::error::ensure_range(d.0, 0.0, 10000.0)
}

// Whether a check is good, and the refusal if it is not.
#[tactic(auto, unfolding(crate::specs::Check::verdict))]
pub fn ensure(good: bool, why: Refusal) -> Result<(), Refusal>
    ensures { result ≡ Spec.checked (Spec.check good why ∷ []) }
{
    if good { Ok(()) } else { Err(why) }
}

// The course (number 1), then the speed (2).
pub fn check_vessel(v: Vessel) -> Result<(), Refusal>
    ensures { result ≡ Spec.checked (Spec.vessel_checks v) }
{
    ensure(is_direction(v.course), Refusal::Angle)?;
    ensure(is_speed(v.speed), Refusal::Speed)
}

// The bearing (number 1), then the range (3).
pub fn check_contact(c: Contact) -> Result<(), Refusal>
    ensures { result ≡ Spec.checked (Spec.contact_checks c) }
{
    ensure(is_direction(c.bearing), Refusal::Angle)?;
    ensure(is_distance(c.range), Refusal::Distance)
}

// The distance (number 3).
pub fn check_distance(d: Distance) -> Result<(), Refusal>
    ensures { result ≡ Spec.checked (Spec.distance_checks d) }
{
    ensure(is_distance(d), Refusal::Distance)
}

// Own craft, the contact and the target. They stay three arguments of each function on an
// encounter: by the project's rule functions keep kinavis's names and arguments, so that the two
// can be held side by side; a struct of the three would be made in every public function and taken
// apart in every definition.
pub fn check_encounter(own: Vessel, contact: Contact, target: Vessel) -> Result<(), Refusal>
    ensures { result ≡ Spec.checked (Spec.encounter_checks own contact target) }
{
    check_vessel(own)?;
    check_contact(contact)?;
    check_vessel(target)
}
