// The courses, at own speed, that bring a contact to a wanted distance at its closest.
ghost use Rattle.std.specs.Prelude.{◌≡◌};
ghost use Rattle.relative_motion.specs.Course as Spec;

use crate::best_course::{Best, Choice, offered};
use elementary::error::Refusal;
use motion::side::BySide;
use motion::units::{Direction, Distance};
use motion::vessel;
use motion::vessel::{Components, Contact, Vessel};

// The smallest alteration to either side.
pub type Avoidance = BySide<Option<Direction>>;

// The course that gives a relative speed along `track`, if the speed is one.
#[tactic(auto, unfolding(crate::specs::Course::at_speed, motion::specs::Vessel::difference))]
fn at_speed(
    own_course: f64,
    target: Components,
    track: Components,
    relative_speed: f64,
    choice: Choice,
) -> Choice
    ensures { result ≡ Spec.at_speed own_course target track relative_speed choice }
{
    if relative_speed <= 0.0 {
        return choice;
    }
    let velocity = target - relative_speed * track;
    offered(
        own_course,
        math::to_degrees(inverse_trigonometry::arctangent::atan2(velocity.east, velocity.north)),
        choice,
    )
}

// The courses, at own speed, whose relative track goes so.
#[tactic(auto, unfolding(crate::specs::Course::along))]
fn along(own: Vessel, target: Components, degrees: f64, choice: Choice) -> Choice
    ensures { result ≡ Spec.along own target degrees choice }
{
    let track = vessel::unit(degrees);
    let own_speed = own.speed.0;
    let projection = target.dot(track);
    let discriminant = projection * projection - (target.dot(target) - own_speed * own_speed);
    if discriminant < 0.0 {
        return choice;
    }
    let root = roots::sqrt(discriminant);
    let first = at_speed(own.course.0, target, track, projection + root, choice);
    at_speed(own.course.0, target, track, projection - root, first)
}

// How far, in degrees, the relative track must pass aside of own craft.
#[tactic(auto, unfolding(crate::specs::Course::grazing, crate::specs::Course::clamped))]
fn grazing(wanted: f64, range: f64) -> f64
    ensures { result ≡ Spec.grazing wanted range }
{
    math::to_degrees(inverse_trigonometry::arctangent::asin((wanted / range).clamp(-1.0, 1.0)))
}

// The two relative tracks that touch the wanted distance, and the best course of each side for
// them.
#[tactic(auto, unfolding(crate::specs::Course::choice_of))]
fn choice_of(own: Vessel, contact: Contact, target: Vessel, wanted: f64) -> Choice
    ensures { result ≡ Spec.choice_of own contact target wanted }
{
    let aside = grazing(wanted, contact.range.0);
    let away = contact.bearing.0 + math::angle::HALF_TURN;
    let velocity = target.velocity();
    let first = along(own, velocity, away - aside, Choice::default());
    along(own, velocity, away + aside, first)
}

fn alteration_to(best: Option<Best>) -> Option<Direction>
    ensures { result ≡ Spec.alteration_to best }
{
    best.map(|kept| Direction(math::angle::from_degrees_wrapped(kept.course)))
}

#[tactic(auto, unfolding(crate::specs::Course::avoidance_of, motion::specs::Check::verdict))]
fn avoidance_of(choice: Choice) -> Result<Avoidance, Refusal>
    ensures { result ≡ Spec.avoidance_of choice }
{
    let starboard = alteration_to(choice.starboard);
    let port = alteration_to(choice.port);
    motion::argument::ensure(
        starboard.is_some() || port.is_some(),
        Refusal::NoOtherCourse,
    )?;
    Ok(Avoidance { starboard, port })
}

// With accepted arguments. `!(a <= b)` is not `a > b`: of what is no number it is true, as the
// definition has it.
#[tactic(auto, unfolding(crate::specs::Course::course_for, motion::specs::Check::verdict))]
fn course_for(
    own: Vessel,
    contact: Contact,
    target: Vessel,
    wanted: f64,
) -> Result<Avoidance, Refusal>
    ensures { result ≡ Spec.course_for own contact target wanted }
{
    motion::argument::ensure(!(contact.range.0 <= wanted), Refusal::InsideDesired)?;
    motion::argument::ensure(!(own.speed.0 <= 0.0), Refusal::NoOwnSpeed)?;
    avoidance_of(choice_of(own, contact, target, wanted))
}

// The courses at own speed that give a closest approach of at least `desired`: the smallest
// alteration to either side.
#[tactic(auto, unfolding(crate::specs::Course::course_answer, motion::specs::Check::encounter_checks, motion::specs::Check::verdict))]
pub fn course_for_cpa(
    own: Vessel,
    contact: Contact,
    target: Vessel,
    desired: Distance,
) -> Result<Avoidance, Refusal>
    ensures { result ≡ Spec.course_answer own contact target desired }
{
    motion::argument::check_encounter(own, contact, target)?;
    motion::argument::check_distance(desired)?;
    course_for(own, contact, target, desired.0)
}
