// The closest point of approach.
ghost use Rattle.std.specs.Prelude.{◌≡◌};
ghost use Rattle.motion.specs.Vessel as Motion;
ghost use Rattle.relative_motion.specs.Approach as Spec;

use elementary::error::Refusal;
use math::duration::Duration;
use motion::units::{Direction, Distance, RelativeBearing};
use motion::vessel;
use motion::vessel::{Components, Contact, Vessel};

// Relative speed, in knots, below which a contact keeps its bearing and range.
const STATIONARY_KNOTS: f64 = 1e-9;

// The closest point of approach.
#[derive(Clone, Copy)]
pub struct Cpa {
    pub distance: Distance,
    pub time_to_go: Duration,
    pub bearing: Direction,
}

// How the range goes: it closes to a point ahead, of which `C` is what is known, or it opens, or
// nothing moves.
#[derive(Clone, Copy)]
pub enum Track<C> {
    Closing(C),
    Opening { current_range: Distance },
    Stationary { range: Distance },
}

// A track with the closest point of approach.
pub type Approach = Track<Cpa>;

// A track with the distance of that point alone.
pub type ApproachDistance = Track<Distance>;

impl<C: Copy> Track<C> {
    // The same track, with what `f` makes of the point ahead.
    fn map<D: Copy, F: FnOnce(C) -> D>(self, f: F) -> Track<D>
        requires { F.IsAlwaysCallable f }
        ensures closing { (c : C) → self ≡ Track.Closing c → (d : D) × F.post f c d × (result ≡ Track.Closing d) }
        ensures opening { (r : Distance) → self ≡ Track.Opening r → result ≡ Track.Opening r }
        ensures stationary { (r : Distance) → self ≡ Track.Stationary r → result ≡ Track.Stationary r }
    {
        match self {
            Track::Closing(point) => Track::Closing(f(point)),
            Track::Opening { current_range } => Track::Opening { current_range },
            Track::Stationary { range } => Track::Stationary { range },
        }
    }
}

// A contact as own craft sees it: its range, its offset, and its velocity relative to own craft.
#[derive(Clone, Copy)]
pub struct Relative {
    pub range: Distance,
    pub offset: Components,
    pub velocity: Components,
}

// The point of a contact's track that is closest: the hours until then, where it is, and how far
// that is.
#[derive(Clone, Copy)]
struct Closest {
    hours: f64,
    point: Components,
    distance: Distance,
}

// A time of so many hours; the longest one where it is too long, which no accepted argument brings
// about.
#[tactic(auto, unfolding(crate::specs::Approach::time_to_go))]
fn time_to_go(hours: f64) -> Duration
    ensures { result ≡ Spec.time_to_go hours }
{
    math::duration::duration_from_hours(hours).unwrap_or(Duration::MAX)
}

impl Relative {
    // A contact, seen from own craft.
    pub fn of(own: Vessel, contact: Contact, target: Vessel) -> Relative
        ensures range { result.range ≡ contact.range }
        ensures offset { result.offset ≡ Motion.offset contact }
        ensures velocity { result.velocity ≡ Motion.relative_velocity own target }
    {
        Relative {
            range: contact.range,
            offset: contact.offset(),
            velocity: vessel::relative_velocity(own, target),
        }
    }

    // How fast the range grows, times the range: negative where it closes.
    #[tactic(auto, unfolding(crate::specs::Approach::closing_rate))]
    pub fn range_rate(self) -> f64
        ensures { result ≡ Spec.closing_rate self.offset self.velocity }
    {
        self.offset.dot(self.velocity)
    }

    // The contact's track.
    #[tactic(auto, unfolding(crate::specs::Approach::track, crate::specs::Approach::relative_speed, crate::specs::Approach::time_of, crate::specs::Approach::closing_rate, crate::specs::Approach::closest))]
    fn track(self) -> Track<Closest>
        ensures { result ≡ Spec.track self.range self.offset self.velocity }
    {
        let relative_speed = self.velocity.size();
        if relative_speed < STATIONARY_KNOTS {
            return Track::Stationary { range: self.range };
        }
        let hours = -self.range_rate() / (relative_speed * relative_speed);
        if hours <= 0.0 {
            return Track::Opening {
                current_range: self.range,
            };
        }
        let point = self.offset + self.velocity * hours;
        Track::Closing(Closest {
            hours,
            point,
            distance: Distance(point.size()),
        })
    }

    // The contact's approach.
    #[tactic(auto, unfolding(crate::specs::Approach::approach_from, crate::specs::Approach::track))]
    pub fn approach(self) -> Approach
        ensures { result ≡ Spec.approach_from self.range self.offset self.velocity }
    {
        self.track().map(|closest| Cpa {
            distance: closest.distance,
            time_to_go: time_to_go(closest.hours),
            bearing: vessel::direction_of(closest.point),
        })
    }

    // The same without time and bearing.
    #[tactic(auto, unfolding(crate::specs::Approach::approach_from, crate::specs::Approach::track))]
    pub fn approach_distance(self) -> ApproachDistance
        ensures { result ≡ Spec.distance_alone (Spec.approach_from self.range self.offset self.velocity) }
    {
        self.track().map(|closest| closest.distance)
    }
}

// The closest point of approach at present courses and speeds.
#[tactic(auto, unfolding(crate::specs::Approach::cpa_answer, crate::specs::Approach::approach))]
pub fn closest_point_of_approach(
    own: Vessel,
    contact: Contact,
    target: Vessel,
) -> Result<Approach, Refusal>
    ensures { result ≡ Spec.cpa_answer own contact target }
{
    motion::argument::check_encounter(own, contact, target)?;
    Ok(Relative::of(own, contact, target).approach())
}

// Its kind and distance alone, at the price of no arctangent and no time.
#[tactic(auto, unfolding(crate::specs::Approach::approach_distance_answer, crate::specs::Approach::cpa_answer, crate::specs::Approach::approach))]
pub fn approach_distance(
    own: Vessel,
    contact: Contact,
    target: Vessel,
) -> Result<ApproachDistance, Refusal>
    ensures { result ≡ Spec.approach_distance_answer own contact target }
{
    motion::argument::check_encounter(own, contact, target)?;
    Ok(Relative::of(own, contact, target).approach_distance())
}

// The bearing of a contact from own bow.
#[tactic(auto, unfolding(crate::specs::Approach::bearing_answer, motion::specs::Check::verdict))]
pub fn relative_bearing_of(own: Vessel, contact: Contact) -> Result<RelativeBearing, Refusal>
    ensures { result ≡ Spec.bearing_answer own contact }
{
    motion::argument::check_vessel(own)?;
    motion::argument::check_contact(contact)?;
    Ok(RelativeBearing(math::angle::from_degrees_wrapped(contact.bearing.0 - own.course.0)))
}
