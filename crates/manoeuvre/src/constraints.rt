// What a manoeuvre may be: permitted sides, the least and the most alteration, the rate of turn,
// and their checks. The port of avoidance.rs's `PermittedSides` and `ManoeuvreConstraints`.
ghost use Rattle.std.specs.Prelude.{◌≡◌};
ghost use Rattle.motion.specs.Check as Check;
ghost use Rattle.manoeuvre.specs.Constraints as Spec;

use crate::trials::TrialList;
use elementary::error::Refusal;
use motion::side::BySide;
use motion::units::{Angle, RateOfTurn};

// The most that an alteration may be, in degrees: document 01's limit, which has no other figure's
// name.
const MAX_ALTERATION: f64 = 180.0;

// The smallest normal f64 and the largest one: a rate of turn is at least the first in size.
const SLOWEST: f64 = f64::MIN_POSITIVE;

const FASTEST: f64 = f64::MAX;

#[derive(Clone, Copy)]
pub enum PermittedSides {
    Either,
    Starboard,
    Port,
}

#[derive(Clone, Copy)]
pub struct ManoeuvreConstraints {
    sides: PermittedSides,
    least_alteration: Angle,
    most_alteration: Angle,
    rate_of_turn: Option<RateOfTurn>,
}

impl PermittedSides {
    // Whether an alteration to starboard is permitted.
    pub fn starboard(self) -> bool
        ensures { result ≡ Spec.permits_starboard self }
    {
        !matches!(self, PermittedSides::Port)
    }

    // Whether an alteration to port is permitted.
    pub fn port(self) -> bool
        ensures { result ≡ Spec.permits_port self }
    {
        !matches!(self, PermittedSides::Starboard)
    }
}

impl From<PermittedSides> for BySide<bool> {
    ghost from_gives = { λ sides result. result ≡ Spec.permits sides };

    fn from(sides: PermittedSides) -> BySide<bool> {
        BySide {
            starboard: sides.starboard(),
            port: sides.port(),
        }
    }
}

// The least alteration from 0 to 180 degrees, then the most from there to 180 (number 4). Two
// arguments and no `TrialList`, whose figures are bare f64s: all callers hold two `Angle`s, and
// would make a list for the check alone.
#[tactic(auto, unfolding(motion::specs::Check::verdict))]
fn check_alterations(least: Angle, most: Angle) -> Result<(), Refusal>
    ensures { result ≡ Check.checked (Spec.alteration_checks least most) }
{
    motion::argument::ensure(
        elementary::error::ensure_range(least.0, 0.0, MAX_ALTERATION),
        Refusal::Constraints,
    )?;
    motion::argument::ensure(
        elementary::error::ensure_range(most.0, least.0, MAX_ALTERATION),
        Refusal::Constraints,
    )
}

#[tactic(auto, unfolding(motion::specs::Check::verdict))]
fn check_rate(rate: Option<RateOfTurn>) -> Result<(), Refusal>
    ensures { result ≡ Check.checked (Spec.rate_checks rate) }
{
    motion::argument::ensure(
        rate.is_none_or(|r| elementary::error::ensure_range(r.0, SLOWEST, FASTEST)),
        Refusal::Constraints,
    )
}

// The least alteration, the most, the rate of turn.
#[tactic(auto, unfolding(crate::specs::Constraints::constraint_checks, motion::specs::Check::verdict))]
pub fn check_constraints(c: ManoeuvreConstraints) -> Result<(), Refusal>
    ensures { result ≡ Check.checked (Spec.constraint_checks c) }
{
    check_alterations(c.least_alteration, c.most_alteration)?;
    check_rate(c.rate_of_turn)
}

impl ManoeuvreConstraints {
    // Constraints without a rate of turn, or the number of the first check that fails.
    #[tactic(auto, unfolding(crate::specs::Constraints::constraints_answer))]
    pub fn new(
        sides: PermittedSides,
        least: Angle,
        most: Angle,
    ) -> Result<ManoeuvreConstraints, Refusal>
        ensures { result ≡ Spec.constraints_answer sides least most }
    {
        check_alterations(least, most)?;
        Ok(ManoeuvreConstraints {
            sides,
            least_alteration: least,
            most_alteration: most,
            rate_of_turn: None,
        })
    }

    // The sign of the rate is ignored.
    #[tactic(auto, unfolding(crate::specs::Constraints::with_rate_of_turn))]
    pub fn with_rate_of_turn(self, rate: RateOfTurn) -> Result<ManoeuvreConstraints, Refusal>
        ensures { result ≡ Spec.with_rate_of_turn self rate }
    {
        let rate_of_turn = Some(RateOfTurn(math::abs(rate.0)));
        check_rate(rate_of_turn)?;
        Ok(ManoeuvreConstraints {
            rate_of_turn,
            ..self
        })
    }

    // The sides that may be turned to.
    pub fn sides(self) -> PermittedSides
        ensures { result ≡ self.sides }
    {
        self.sides
    }

    // The least alteration, in degrees.
    pub fn least_alteration(self) -> Angle
        ensures { result ≡ self.least_alteration }
    {
        self.least_alteration
    }

    // The most alteration, in degrees.
    pub fn most_alteration(self) -> Angle
        ensures { result ≡ self.most_alteration }
    {
        self.most_alteration
    }

    // The trials of a side: from the least alteration to the most.
    pub fn trials(self) -> TrialList
        ensures least { result.least ≡ self.least_alteration.0 }
        ensures most { result.most ≡ self.most_alteration.0 }
    {
        TrialList {
            least: self.least_alteration.0,
            most: self.most_alteration.0,
        }
    }

    // The rate of turn in degrees per minute, where one is given.
    pub fn rate_of_turn(self) -> Option<RateOfTurn>
        ensures { result ≡ self.rate_of_turn }
    {
        self.rate_of_turn
    }
}
