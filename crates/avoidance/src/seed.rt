// The choice among the seeds of both sides and the trial lists: a side's exact course is tried
// first, then its trial list (avoidance.rs, `avoid`); specs/Seeds.antt has the definition.
ghost use Rattle.std.specs.Prelude.{◌≡◌};
ghost use Rattle.avoidance.specs.Search as Choosing;
ghost use Rattle.manoeuvre.specs.Constraints.{permits};
ghost use Rattle.motion.specs.Sides.{on};
ghost use Rattle.manoeuvre.specs.Trials.{trials};
ghost use Rattle.avoidance.specs.Seeds as Spec;

use crate::search::{Chosen, Search, Sides};
use elementary::error::Refusal;
use manoeuvre::constraints::ManoeuvreConstraints;
use motion::side::{BySide, Side};
use motion::units::Direction;
use relative_motion::course::Avoidance;

// The courses of an answer, none on either side where it is refused.
pub(crate) fn courses_or_none(answer: Result<Avoidance, Refusal>) -> Avoidance
    ensures { result ≡ Spec.courses_or_none answer }
{
    answer.unwrap_or_default()
}

// An alteration that is on the side, raised to least.
#[tactic(auto, unfolding(crate::specs::Seeds::seed))]
fn seed(side: Side, least: f64, alteration: f64) -> Option<f64>
    ensures { result ≡ Spec.seed side least alteration }
{
    let towards = crate::search::signed(side, alteration);
    (towards > 0.0).then_some(math::larger(math::abs(alteration), least))
}

fn optional_seed(own: Direction, side: Side, least: f64, a: Option<Direction>) -> Option<f64>
    ensures { result ≡ Spec.optional_seed own side least a }
{
    seed(side, least, math::angle::wrap180(a?.0 - own.0))
}

fn only(side: Side) -> Sides
    ensures { result ≡ Spec.only side }
{
    Sides {
        starboard: matches!(side, Side::Starboard),
        port: matches!(side, Side::Port),
    }
}

// The seed, where it is not above most and clears.
fn try_seed(search: &Search<'_>, side: Side, most: f64, seed: Option<f64>) -> Option<Chosen>
    ensures { result ≡ Spec.seed_choice (Choosing.trial_clears_computed search.now.own search.now.floor search.now.scene.now side) side most seed }
{
    let m = seed?;
    search.try_side(m <= most, side, m)
}

// A side's choice, where it is permitted: its seed, else the first of its trial list that clears.
#[tactic(auto, using(crate::proofs::SeedCode::trials_alone), unfolding(crate::specs::Seeds::seeded_side))]
fn on_side(
    search: &Search<'_>,
    side: Side,
    courses: Avoidance,
    c: ManoeuvreConstraints,
) -> Option<Chosen>
    ensures { result ≡ Spec.seeded_side
        (on (permits c.sides) side)
        (Choosing.trial_clears_computed search.now.own search.now.floor search.now.scene.now side)
        side c.most_alteration.0
        (Spec.optional_seed search.now.own.course side c.least_alteration.0 (on courses side))
        (trials c.least_alteration.0 c.most_alteration.0) }
{
    if !BySide::from(c.sides()).on(side) {
        return None;
    }
    let list = c.trials();
    let seed = optional_seed(search.own.course, side, list.least, courses.on(side));
    // A match: of a closure that borrows a type with a lifetime, here `&Search<'_>`, `first_found`
    // says nothing of what it returns (tried).
    match try_seed(search, side, list.most, seed) {
        Some(c) => Some(c),
        None => search.smallest(only(side), list),
    }
}

// Starboard's choice and port's: the smaller, starboard on equality.
fn smaller_of(starboard: Option<Chosen>, port: Option<Chosen>) -> Option<Chosen>
    ensures { result ≡ Choosing.smaller starboard port }
{
    // A match: `starboard.filter(|s| !port.is_some_and(|p| p.magnitude.0 <
    // s.magnitude.0)).or(port)` is shorter, and hides the case of a tie.
    match (starboard, port) {
        (Some(s), Some(p)) if p.magnitude.0 < s.magnitude.0 => port,
        (None, _) => port,
        _ => starboard,
    }
}

// The smaller of both sides' choices, starboard on equality.
#[tactic(auto, unfolding(crate::specs::Seeds::seeded_choice))]
pub(crate) fn seeded_choice(
    search: &Search<'_>,
    courses: Avoidance,
    c: ManoeuvreConstraints,
) -> Option<Chosen>
    ensures { result ≡ Spec.seeded_choice search.now.own (Choosing.trial_clears_computed search.now.own search.now.floor search.now.scene.now) courses c }
{
    smaller_of(
        on_side(search, Side::Starboard, courses, c),
        on_side(search, Side::Port, courses, c),
    )
}
