// The geometry of a situation, and the other facts of it that the rules speak of (rules.rs,
// `geometry_of`).
ghost use Rattle.std.specs.Prelude.{◌≡◌};
ghost use Rattle.colregs.specs.Geometry as Spec;

use motion::units::{Direction, Speed};
use motion::vessel;
use motion::vessel::{Components, Contact, Vessel};
use situation::party::{Situation, VesselCategory, Visibility};

// Which of two sailing vessels is to windward of the other. Three values and no `Option`: each, the
// unknown one too, has a duty of its own in `responsibility::windward_gives_way`.
#[derive(Clone, Copy)]
pub(crate) enum Windward {
    Unknown,
    Own,
    Target,
}

// What the wind says of two vessels under sail, for Rule 12(a)(ii) and (iii): which of them is to
// windward, and whether own craft sees the other to windward.
#[derive(Clone, Copy)]
pub(crate) struct Wind {
    pub windward: Windward,
    pub seen_to_windward: bool,
}

// `relative` is the target off own bow, `aspect` own craft off the target's, in degrees, positive
// to starboard.
#[derive(Clone, Copy)]
pub(crate) struct Geometry {
    pub relative: f64,
    pub aspect: f64,
    pub closing: bool,
    pub own_speed: Speed,
    pub target_speed: Speed,
    pub own: VesselCategory,
    pub target: VesselCategory,
    pub wind: Wind,
    pub visibility: Visibility,
}

#[tactic(auto, unfolding(crate::specs::Geometry::relative_of))]
fn relative_of(contact: Contact, heading: Direction) -> f64
    ensures { result ≡ Spec.relative_of contact heading }
{
    math::angle::wrap180(contact.bearing.0 - heading.0)
}

#[tactic(auto, unfolding(crate::specs::Geometry::aspect_of))]
fn aspect_of(contact: Contact, heading: Direction) -> f64
    ensures { result ≡ Spec.aspect_of contact heading }
{
    math::angle::wrap180(contact.bearing.0 + math::angle::HALF_TURN - heading.0)
}

// How fast the range grows along a line of sight.
#[tactic(auto, unfolding(crate::specs::Geometry::range_rate, motion::specs::Vessel::difference))]
fn range_rate(line: Components, own: Components, target: Components) -> f64
    ensures { result ≡ Spec.range_rate line own target }
{
    line.dot(target - own)
}

// Whether the range closes; a rate within rounding of zero is neither closing nor opening.
#[tactic(auto, unfolding(crate::specs::Geometry::is_closing, crate::specs::Geometry::speed_of))]
fn is_closing(contact: Contact, own: Vessel, target: Vessel) -> bool
    ensures { result ≡ Spec.is_closing contact own target }
{
    let line = vessel::unit(contact.bearing.0);
    let own_velocity = own.velocity();
    let target_velocity = target.velocity();
    let rate = range_rate(line, own_velocity, target_velocity);
    let scale = math::larger(own_velocity.size(), target_velocity.size());
    let tangential = math::is_effectively_zero(rate, scale);
    rate < 0.0 && !tangential
}

// Rule 12(a)(ii): own craft is to windward if the other lies within 90 degrees of where the wind
// blows to.
fn windward_of(contact: Contact, wind: Option<Direction>) -> Windward
    ensures { result ≡ Spec.windward_of contact wind }
{
    wind.map_or(Windward::Unknown, |from| {
        let downwind = math::angle::wrap180(contact.bearing.0 - (from.0 + math::angle::HALF_TURN));
        if math::abs(downwind) < 90.0 {
            Windward::Own
        } else {
            Windward::Target
        }
    })
}

// Rule 12(a)(iii), request R-2: own craft sees the other to windward if she lies 90 degrees or more
// from where the wind blows to. The direction is folded before the difference is taken, and above,
// as in rules.rs, it is not: the two round differently.
fn seen_to_windward(contact: Contact, wind: Option<Direction>) -> bool
    ensures { result ≡ Spec.seen_to_windward contact wind }
{
    wind.map_or(false, |from| {
        let downwind = math::angle::reciprocal(from.0);
        math::abs(math::angle::wrap180(contact.bearing.0 - downwind)) >= 90.0
    })
}

fn wind_of(contact: Contact, wind: Option<Direction>) -> Wind
    ensures { result ≡ Spec.wind_of contact wind }
{
    Wind {
        windward: windward_of(contact, wind),
        seen_to_windward: seen_to_windward(contact, wind),
    }
}

// The geometry of a situation, from the bearing, the headings and the velocities.
#[tactic(auto, unfolding(crate::specs::Geometry::geometry_of))]
pub(crate) fn geometry_of(s: Situation) -> Geometry
    ensures { result ≡ Spec.geometry_of s }
{
    Geometry {
        relative: relative_of(s.contact, s.own.heading()),
        aspect: aspect_of(s.contact, s.target.heading()),
        closing: is_closing(s.contact, s.own.motion, s.target.motion),
        own_speed: s.own.motion.speed,
        target_speed: s.target.motion.speed,
        own: s.own.category,
        target: s.target.category,
        wind: wind_of(s.contact, s.wind_from),
        visibility: s.visibility,
    }
}
