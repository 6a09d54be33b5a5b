// What a manoeuvre is: the course to steer, the alteration, its time, the passing distance and the
// contact that limits it. The port of avoidance.rs's `AvoidanceManoeuvre`.
#![tactic(auto)]

pub mod constraints;
pub mod trials;

ghost use Rattle.std.specs.Prelude.{◌≡◌};
ghost use Rattle.manoeuvre.specs.Manoeuvre as Spec;

use math::duration::Duration;
use motion::side::Side;
use motion::units::{Angle, Direction, Distance, RateOfTurn};

// The alteration is positive to starboard. Apart from `ruled_search::RuledManoeuvre`: this is the
// Rust's type, whose one signed alteration loses the side of a turn of 0.
#[derive(Clone, Copy)]
pub struct AvoidanceManoeuvre {
    course: Direction,
    alteration: Angle,
    turn_time: Option<Duration>,
    least_passing: Distance,
    limiting: Option<usize>,
}

// The time that a turn of a magnitude in degrees takes at a rate; none without a rate, or where it
// is too long.
#[tactic(auto, unfolding(crate::specs::Manoeuvre::turned))]
pub fn turn_time(magnitude: f64, rate: Option<RateOfTurn>) -> Option<Duration>
    ensures { result ≡ Spec.turn_time magnitude rate }
{
    let rate = rate?;
    math::duration::duration_from_secs(magnitude / rate.0 * 60.0).ok()
}

impl AvoidanceManoeuvre {
    // A manoeuvre of its parts.
    #[tactic(auto, unfolding(crate::specs::Manoeuvre::manoeuvre))]
    pub fn new(
        course: Direction,
        alteration: Angle,
        time: Option<Duration>,
        passing: Distance,
        limiting: Option<usize>,
    ) -> AvoidanceManoeuvre
        ensures { result ≡ Spec.manoeuvre course alteration time passing limiting }
    {
        AvoidanceManoeuvre {
            course,
            alteration,
            turn_time: time,
            least_passing: passing,
            limiting,
        }
    }

    // The new course, in degrees.
    pub fn course(self) -> Direction
        ensures { result ≡ self.course }
    {
        self.course
    }

    // The alteration, in degrees, positive to starboard.
    pub fn alteration(self) -> Angle
        ensures { result ≡ self.alteration }
    {
        self.alteration
    }

    // Port for a negative alteration, starboard for any other.
    #[tactic(auto, unfolding(crate::specs::Manoeuvre::side_of))]
    pub fn side(self) -> Side
        ensures { result ≡ Spec.side_of self.alteration }
    {
        if self.alteration.0 < 0.0 {
            Side::Port
        } else {
            Side::Starboard
        }
    }

    // The time that the turn takes.
    pub fn turn_time(self) -> Option<Duration>
        ensures { result ≡ self.turn_time }
    {
        self.turn_time
    }

    // The smallest passing distance of any contact, in nautical miles.
    pub fn least_passing(self) -> Distance
        ensures { result ≡ self.least_passing }
    {
        self.least_passing
    }

    // The contact that passes at it, by its place in the list; in the Rust `limiting_target`, by
    // its id.
    pub fn limiting(self) -> Option<usize>
        ensures { result ≡ self.limiting }
    {
        self.limiting
    }
}
