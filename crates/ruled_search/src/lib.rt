// The ruled search: the smallest trial that clears all traffic, on a side that the ruling on every
// contact permits. Its contract holds the equation with its definition (specs/Ruled.antt) and the
// order's third demand, clause by clause (specs/Demand3.antt).
#![tactic(auto)]

pub mod shared_sides;

ghost use Rattle.std.specs.Prelude.{◌≡◌, OnOk, length};
ghost use Rattle.motion.specs.Check as Check;
ghost use Rattle.ruled_search.specs.Demand3.{Demand3};
ghost use Rattle.ruled_search.specs.Ruled as Spec;
ghost use Rattle.clearance.specs.Traffic as Around;

use avoidance::search::{Chosen, Search};
use clearance::traffic::Entry;
use elementary::error::Refusal;
use manoeuvre::constraints::ManoeuvreConstraints;
use math::duration::Duration;
use motion::side::Side;
use motion::units::{Angle, Direction, Distance};
use motion::vessel::Vessel;
use situation::check;
use situation::party::Circumstances;

// A trial that clears the traffic: the list that held it, its magnitude, the altered course, the
// time that the turn takes, the least passing distance and whose it is. Apart from
// `manoeuvre::AvoidanceManoeuvre`, the Rust's, whose one signed alteration loses the side of a turn
// of 0: here side and magnitude stand apart.
#[derive(Clone, Copy)]
pub struct RuledManoeuvre {
    pub side: Side,
    pub magnitude: Angle,
    pub course: Direction,
    pub turn_time: Option<Duration>,
    pub least_passing: Distance,
    pub limiting: Option<usize>,
}

// The count of contacts, own craft, the contacts entry by entry, the wind, the desired distance,
// the constraints.
pub fn check_arguments(
    around: Circumstances,
    t: &[Entry],
    desired: Distance,
    c: ManoeuvreConstraints,
) -> Result<(), Refusal>
    ensures checked { result ≡ Check.checked (Spec.ruled_checks around.own (length t.now) t.now around.wind_from desired c) }
    ensures held { OnOk result (Around.HeldEntries t.now) }
{
    clearance::traffic::check_count(t.len())?;
    check::check_party(around.own)?;
    clearance::traffic::check_contacts(t)?;
    check::check_optional(around.wind_from)?;
    motion::argument::check_distance(desired)?;
    manoeuvre::constraints::check_constraints(c)
}

// What is said of a trial that was chosen. Apart from `avoid`'s of this name: `ruled` answers
// `RuledManoeuvre`, which says why it is a second type, and `avoid` the Rust's.
pub fn manoeuvre_of(own: Vessel, c: ManoeuvreConstraints, chosen: Chosen) -> RuledManoeuvre
    ensures { result ≡ Spec.manoeuvre_of own c chosen }
{
    let altered = avoidance::search::altered(
        own,
        avoidance::search::signed(chosen.side, chosen.magnitude.0),
    );
    RuledManoeuvre {
        side: chosen.side,
        magnitude: chosen.magnitude,
        course: altered.course,
        turn_time: manoeuvre::turn_time(chosen.magnitude.0, c.rate_of_turn()),
        least_passing: chosen.clearance.distance,
        limiting: chosen.clearance.limiting,
    }
}

fn chosen_answer(
    own: Vessel,
    c: ManoeuvreConstraints,
    choice: Option<Chosen>,
) -> Result<RuledManoeuvre, Refusal>
    ensures { result ≡ Spec.chosen_answer (Spec.manoeuvre_of own c) choice }
{
    choice
        .map(|chosen| manoeuvre_of(own, c, chosen))
        .ok_or(Refusal::NoTrialClears)
}

// The smallest trial that clears every contact, on a side that every contact's ruling permits,
// starboard of equal ones. Arguments are checked in document 01's order; it refuses with 13 where
// no side is shared, then with 5 where no trial on a shared side clears.
pub fn ruled_search(
    around: Circumstances,
    t: &[Entry],
    desired: Distance,
    constraints: ManoeuvreConstraints,
) -> Result<RuledManoeuvre, Refusal>
    ensures { (result ≡ Spec.ruled_answer around.own (length t.now) t.now around.visibility around.wind_from desired constraints)
        × Demand3 around.own t.now around.visibility around.wind_from desired constraints (length t.now) result }
{
    check_arguments(around, t, desired, constraints)?;
    let own = around.own.motion;
    let sides = crate::shared_sides::shared_sides(around, t);
    motion::argument::ensure(sides.starboard || sides.port, Refusal::NoSharedSide)?;
    let scene = clearance::traffic::scene_of(t);
    let search = Search::new(own, &scene, desired);
    let choice = search.smallest(sides, constraints.trials());
    chosen_answer(own, constraints, choice)
}
