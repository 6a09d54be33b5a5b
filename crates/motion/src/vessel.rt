// Vessels and contacts, and their velocities and offsets as north and east parts.
ghost use Rattle.std.specs.Prelude.{◌≡◌};
ghost use Rattle.motion.specs.Vessel as Spec;

use crate::units::{Direction, Distance, Speed};
use std::ops::{Add, Div, Mul, Neg, Sub};

// Course and speed of a vessel.
#[derive(Clone, Copy, Default)]
pub struct Vessel {
    pub course: Direction,
    pub speed: Speed,
}

// Where a contact is, from own craft.
#[derive(Clone, Copy, Default)]
pub struct Contact {
    pub bearing: Direction,
    pub range: Distance,
}

// North and east parts: of a velocity in knots, of an offset in nautical miles.
#[derive(Clone, Copy, Default)]
pub struct Components {
    pub north: f64,
    pub east: f64,
}

impl Components {
    // How long it is.
    pub fn size(self) -> f64
        ensures { result ≡ Spec.size self }
    {
        roots::hypot(self.north, self.east)
    }

    // The inner product, how far it goes along `other` times the other's size.
    pub fn dot(self, other: Components) -> f64
        ensures { result ≡ Spec.dot self other }
    {
        self.north * other.north + self.east * other.east
    }

    // The outer product, positive where `other` is to starboard.
    pub fn cross(self, other: Components) -> f64
        ensures { result ≡ Spec.cross self other }
    {
        self.north * other.east - self.east * other.north
    }
}

impl Add for Components {
    type Output = Components;

    ghost add_gives = { λ a b r. r ≡ Spec.sum a b };

    fn add(self, rhs: Components) -> Components {
        Components {
            north: self.north + rhs.north,
            east: self.east + rhs.east,
        }
    }
}

impl Sub for Components {
    type Output = Components;

    ghost sub_gives = { λ a b r. r ≡ Spec.difference a b };

    #[tactic(auto, unfolding(crate::specs::Vessel::difference))]
    fn sub(self, rhs: Components) -> Components {
        Components {
            north: self.north - rhs.north,
            east: self.east - rhs.east,
        }
    }
}

impl Neg for Components {
    type Output = Components;

    ghost neg_gives = { λ c r. r ≡ Spec.opposite c };

    fn neg(self) -> Components {
        Components {
            north: -self.north,
            east: -self.east,
        }
    }
}

impl Mul<f64> for Components {
    type Output = Components;

    ghost mul_gives = { λ c k r. r ≡ Spec.times c k };

    fn mul(self, rhs: f64) -> Components {
        Components {
            north: self.north * rhs,
            east: self.east * rhs,
        }
    }
}

impl Mul<Components> for f64 {
    type Output = Components;

    ghost mul_gives = { λ k c r. r ≡ Spec.scaled k c };

    fn mul(self, rhs: Components) -> Components {
        Components {
            north: self * rhs.north,
            east: self * rhs.east,
        }
    }
}

impl Div<f64> for Components {
    type Output = Components;

    ghost div_gives = { λ c k r. r ≡ Spec.divided c k };

    fn div(self, rhs: f64) -> Components {
        Components {
            north: self.north / rhs,
            east: self.east / rhs,
        }
    }
}

// One, in a direction of so many degrees.
#[tactic(auto, unfolding(crate::specs::Vessel::unit))]
pub fn unit(degrees: f64) -> Components
    ensures { result ≡ Spec.unit degrees }
{
    let radians = math::to_radians(degrees);
    Components {
        north: trigonometry::cos(radians),
        east: trigonometry::sin(radians),
    }
}

// `size` in a direction.
#[tactic(auto, unfolding(crate::specs::Vessel::resolved))]
fn resolved(size: f64, direction: Direction) -> Components
    ensures { result ≡ Spec.resolved size direction }
{
    size * unit(direction.0)
}

// The direction of a velocity or an offset.
#[tactic(auto, unfolding(crate::specs::Vessel::direction_of))]
pub fn direction_of(c: Components) -> Direction
    ensures { result ≡ Spec.direction_of c }
{
    Direction(math::angle::from_degrees_wrapped(math::to_degrees(
        inverse_trigonometry::arctangent::atan2(c.east, c.north),
    )))
}

impl Vessel {
    // Knots north and east; rules.rs has it once more, as `components`.
    #[tactic(auto, unfolding(crate::specs::Vessel::velocity))]
    pub fn velocity(self) -> Components
        ensures { result ≡ Spec.velocity self }
    {
        resolved(self.speed.0, self.course)
    }

    // The vessel that moves so.
    #[tactic(auto, unfolding(crate::specs::Vessel::from_velocity))]
    pub fn from_velocity(velocity: Components) -> Vessel
        ensures { result ≡ Spec.from_velocity velocity }
    {
        Vessel {
            course: direction_of(velocity),
            speed: Speed(velocity.size()),
        }
    }
}

impl Contact {
    // Nautical miles north and east.
    #[tactic(auto, unfolding(crate::specs::Vessel::offset))]
    pub fn offset(self) -> Components
        ensures { result ≡ Spec.offset self }
    {
        resolved(self.range.0, self.bearing)
    }
}

// The target's velocity as seen from own craft.
#[tactic(auto, unfolding(crate::specs::Vessel::relative_velocity))]
pub fn relative_velocity(own: Vessel, target: Vessel) -> Components
    ensures { result ≡ Spec.relative_velocity own target }
{
    target.velocity() - own.velocity()
}
