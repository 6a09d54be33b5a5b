// The slowing search (request R-3): course and speed are tried together, the course trials of the
// ruled search at own speed and at seven eighths of it down to one. Its contract holds the equation
// with its definition (specs/Slowing.antt), what the request states, clause by clause
// (specs/Pairs.antt), and how its answer stands to the ruled search's.
#![tactic(auto)]

pub mod pairs;

ghost use Rattle.std.specs.Prelude.{◌≡◌, length, map, take, true};
ghost use Rattle.motion.specs.Capacity.{max_contacts};
ghost use Rattle.clearance.specs.Clearing.{floor_of, moving};
ghost use Rattle.clearance.specs.Traffic.{targets};
ghost use Rattle.ruled_search.specs.Ruled as Ruled;
ghost use Rattle.slowing_search.specs.Computed as Computed;
ghost use Rattle.slowing_search.specs.Pairs.{Pairs, BesideRuled};
ghost use Rattle.slowing_search.specs.Slowing as Spec;

use crate::pairs::Pair;
use avoidance::search::{Search, Sides};
use clearance::traffic::Entry;
use elementary::error::Refusal;
use manoeuvre::constraints::ManoeuvreConstraints;
use motion::units::{Distance, Speed};
use motion::vessel::Vessel;
use ruled_search::RuledManoeuvre;
use situation::party::Circumstances;

// A pair of a trial and a speed that clears the traffic: what the ruled search says of a trial,
// here at that speed, and the speed.
#[derive(Clone, Copy)]
pub struct SlowingManoeuvre {
    pub turn: RuledManoeuvre,
    pub speed: Speed,
}

fn manoeuvre_of(own: Vessel, c: ManoeuvreConstraints, p: Pair) -> SlowingManoeuvre
    ensures { result ≡ Spec.manoeuvre_of own c p }
{
    SlowingManoeuvre {
        turn: ruled_search::manoeuvre_of(own, c, p.trial),
        speed: p.speed,
    }
}

fn chosen_answer(
    own: Vessel,
    c: ManoeuvreConstraints,
    choice: Option<Pair>,
) -> Result<SlowingManoeuvre, Refusal>
    ensures { result ≡ Ruled.chosen_answer (Spec.manoeuvre_of own c) choice }
{
    choice
        .map(|p| manoeuvre_of(own, c, p))
        .ok_or(Refusal::NoTrialClears)
}

// The pair that is chosen, on sides that are shared. All eight speeds are tried: every ruling
// permits slowing (`colregs/proofs/Slowing.antt`), so that none need be asked for it.
fn chosen_pair(
    own: Vessel,
    t: &[Entry],
    desired: Distance,
    sides: Sides,
    c: ManoeuvreConstraints,
) -> Option<Pair>
    ensures { result ≡ Computed.smallest own (floor_of desired) (map moving (targets (take max_contacts t.now))) sides
        (Spec.trial_speeds own.speed true) c.least_alteration.0 c.most_alteration.0 }
{
    let scene = clearance::traffic::scene_of(t);
    let search = Search::new(own, &scene, desired);
    let speeds = crate::pairs::trial_speeds(own.speed);
    crate::pairs::smallest(&search, sides, &speeds, c.trials())
}

// The pair of a course trial on a shared side and a speed that clears every contact with the
// smallest turn, then at the highest speed, then to starboard. Arguments are checked, and sides are
// shared, as in the ruled search; it refuses with 13 where no side is shared, then with 5 where no
// pair clears.
pub fn slowing_search(
    around: Circumstances,
    t: &[Entry],
    desired: Distance,
    constraints: ManoeuvreConstraints,
) -> Result<SlowingManoeuvre, Refusal>
    ensures is { result ≡ Spec.slowing_answer around.own (length t.now) t.now around.visibility around.wind_from desired constraints }
    ensures pairs { Pairs around.own t.now around.visibility around.wind_from desired constraints (length t.now) result }
    ensures beside { BesideRuled around.own t.now around.visibility around.wind_from desired constraints (length t.now) result }
{
    ruled_search::check_arguments(around, t, desired, constraints)?;
    let own = around.own.motion;
    let sides = ruled_search::shared_sides::shared_sides(around, t);
    motion::argument::ensure(sides.starboard || sides.port, Refusal::NoSharedSide)?;
    chosen_answer(
        own,
        constraints,
        chosen_pair(own, t, desired, sides, constraints),
    )
}
