// The search over pairs of a course trial and a speed: by magnitude, then from the highest speed
// on, starboard first, so that the first pair that clears is the answer.
//
// The sine and cosine of an altered course are worked out once for all its speeds, and so is a
// contact that blocks it at own speed, which is asked first at each.
ghost use Rattle.std.specs.Prelude.{◌≡◌, map, true};
ghost use Rattle.slowing_search.specs.Computed as Computed;
ghost use Rattle.slowing_search.specs.Slowing as Spec;

use avoidance::search::{Chosen, Search, Sides};
use manoeuvre::trials::TrialList;
use motion::side::{BySide, Side};
use motion::units::{Angle, Speed};
use motion::vessel::Components;

// A pair that clears: the trial, and the speed.
#[derive(Clone, Copy)]
pub struct Pair {
    pub trial: Chosen,
    pub speed: Speed,
}

// How many trial speeds there are.
pub const SPEEDS: usize = 8;

// k/8 of a speed.
fn part_of(own: Speed, eighths: f64) -> Speed
    ensures { result ≡ Computed.part_of own eighths }
{
    Speed(own.0 * eighths)
}

// Own speed times k/8, for k from 8 down to 1, each rounded once.
#[tactic(auto, unfolding(crate::specs::Slowing::trial_speeds, crate::specs::Slowing::down_from))]
pub fn trial_speeds(own: Speed) -> [Speed; SPEEDS]
    ensures { result ≡ Spec.trial_speeds own true }
{
    [
        part_of(own, 1.0),
        part_of(own, 0.875),
        part_of(own, 0.75),
        part_of(own, 0.625),
        part_of(own, 0.5),
        part_of(own, 0.375),
        part_of(own, 0.25),
        part_of(own, 0.125),
    ]
}

// An altered course: one towards it, and the place of a contact that is likely to block it, since
// it does at own speed.
#[derive(Clone, Copy)]
pub struct Altered {
    towards: Components,
    likely: Option<usize>,
}

// The courses of one magnitude: none where the side is not permitted.
type Courses = BySide<Option<Altered>>;

fn course(search: &Search<'_>, permitted: bool, side: Side, magnitude: f64) -> Option<Altered>
    ensures { Computed.towards result ≡ Computed.course search.now.own permitted side magnitude }
{
    if permitted {
        let v = avoidance::search::altered(search.own, avoidance::search::signed(side, magnitude));
        let towards = motion::vessel::unit(v.course.0);
        let likely = clearance::blocker(search.own.speed.0 * towards, search.scene, search.floor);
        return Some(Altered { towards, likely });
    }
    None
}

fn courses(search: &Search<'_>, sides: Sides, magnitude: f64) -> Courses
    ensures { Computed.towards_both result ≡ Computed.courses search.now.own sides magnitude }
{
    Courses {
        starboard: course(search, sides.starboard, Side::Starboard, magnitude),
        port: course(search, sides.port, Side::Port, magnitude),
    }
}

// One side, at one speed.
#[tactic(auto, unfolding(crate::specs::Computed::on_side))]
fn try_side(
    search: &Search<'_>,
    side: Side,
    magnitude: f64,
    course: Option<Altered>,
    speed: Speed,
) -> Option<Chosen>
    ensures { result ≡ Computed.on_side search.now.floor search.now.scene.now side magnitude (Computed.towards course) speed }
{
    let c = course?;
    let v = speed.0 * c.towards;
    let clearance = clearance::clears_from(v, search.scene, search.floor, c.likely)?;
    Some(Chosen {
        side,
        magnitude: Angle(magnitude),
        clearance,
    })
}

// Both sides, starboard first.
#[tactic(auto, unfolding(crate::specs::Computed::on_sides))]
fn try_sides(search: &Search<'_>, magnitude: f64, on: Courses, speed: Speed) -> Option<Chosen>
    ensures { result ≡ Computed.on_sides search.now.floor search.now.scene.now magnitude (Computed.towards_both on) speed }
{
    let starboard = try_side(search, Side::Starboard, magnitude, on.starboard, speed);
    if starboard.is_some() {
        return starboard;
    }
    try_side(search, Side::Port, magnitude, on.port, speed)
}

fn try_speed(search: &Search<'_>, magnitude: f64, on: Courses, speed: Speed) -> Option<Pair>
    ensures { result ≡ Computed.at_speed search.now.floor search.now.scene.now magnitude (Computed.towards_both on) speed }
{
    try_sides(search, magnitude, on, speed).map(|trial| Pair { trial, speed })
}

// The pairs of one magnitude, from the highest speed on.
fn try_magnitude(
    search: &Search<'_>,
    sides: Sides,
    speeds: &[Speed],
    magnitude: f64,
) -> Option<Pair>
    ensures { result ≡ Computed.fastest search.now.own search.now.floor search.now.scene.now sides speeds.now magnitude }
{
    let on = courses(search, sides, magnitude);
    speeds
        .iter()
        .find_map(|speed| try_speed(search, magnitude, on, *speed))
}

// The pair with the smallest turn that clears the scene on a permitted side, then with the highest
// speed, then to starboard.
pub fn smallest(
    search: &Search<'_>,
    sides: Sides,
    speeds: &[Speed],
    list: TrialList,
) -> Option<Pair>
    ensures { result ≡ Computed.smallest search.now.own search.now.floor search.now.scene.now sides speeds.now list.least list.most }
{
    (0..list.count()).find_map(|k| try_magnitude(search, sides, speeds, list.trial(k)))
}
