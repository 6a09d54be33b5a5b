// The checks of a situation and of the widths, in document 01's order.
ghost use Rattle.std.specs.Prelude.{◌≡◌};
ghost use Rattle.motion.specs.Check as Check;
ghost use Rattle.situation.specs.Arguments as Spec;

use crate::config::ColregsConfig;
use crate::party::{Party, Situation};
use elementary::error::Refusal;
use motion::units::{Angle, Direction};

// A direction where it is known (number 1).
#[tactic(auto, unfolding(motion::specs::Check::verdict))]
pub fn check_optional(p: Option<Direction>) -> Result<(), Refusal>
    ensures { result ≡ Check.checked (Spec.optional_checks p) }
{
    motion::argument::ensure(p.is_none_or(motion::argument::is_direction), Refusal::Angle)
}

// A party's course, speed and heading.
#[tactic(auto, unfolding(crate::specs::Arguments::party_checks, motion::specs::Check::verdict))]
pub fn check_party(p: Party) -> Result<(), Refusal>
    ensures { result ≡ Check.checked (Spec.party_checks p) }
{
    motion::argument::check_vessel(p.motion)?;
    check_optional(p.heading)
}

// From 0 to 90 degrees.
#[tactic(auto, unfolding(crate::specs::Arguments::is_width))]
fn is_width(a: Angle) -> bool
    ensures { result ≡ Spec.is_width a }
{
    elementary::error::ensure_range(a.0, 0.0, 90.0)
}

// Both widths, 0 to 90 degrees (number 12).
#[tactic(auto, unfolding(motion::specs::Check::verdict))]
pub fn check_config(c: ColregsConfig) -> Result<(), Refusal>
    ensures { result ≡ Check.checked (Spec.config_checks c) }
{
    motion::argument::ensure(is_width(c.overtaking_abaft_beam), Refusal::Config)?;
    motion::argument::ensure(is_width(c.head_on_half_width), Refusal::Config)
}

// Own craft, the contact, the target, the wind.
pub fn check_situation(s: Situation) -> Result<(), Refusal>
    ensures { result ≡ Check.checked (Spec.situation_checks s) }
{
    check_party(s.own)?;
    motion::argument::check_contact(s.contact)?;
    check_party(s.target)?;
    check_optional(s.wind_from)
}
