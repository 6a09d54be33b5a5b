// The answers of the C exports, as words: specs/Answers.antt says which word is what. Word 0 is the
// refusal's number, or 0 where there is an answer; the others are 0 where it is refused.
ghost use Rattle.std.specs.Prelude.{◌≡◌};
ghost use Rattle.exports.specs.Answers as Spec;

use assessment::assess::CollisionAssessment;
use avoidance::search::Chosen;
use colregs::answer::{Encounter, Responsibility, Ruling};
use elementary::error::Refusal;
use manoeuvre::AvoidanceManoeuvre;
use math::duration::Duration;
use motion::side::Side;
use motion::units::{Direction, Distance, RelativeBearing};
use motion::vessel::Vessel;
use relative_motion::approach::{Approach, ApproachDistance, Cpa};
use relative_motion::course::Avoidance;
use relative_motion::plot::TargetSolution;
use ruled_search::RuledManoeuvre;
use slowing_search::SlowingManoeuvre;
use std::num::f64_to_bits_with_nan;

// ---- a word
// The word of a place, 0 for one beyond the last.
pub(crate) fn word(words: &[u64], part: u32) -> u64
    ensures { result ≡ Spec.word words.now part }
{
    words.get(part as usize).copied().unwrap_or(0)
}

// The bit pattern of a float, one and the same for every NaN.
#[tactic(auto, using(crate::proofs::Patterns::one_pattern))]
pub(crate) fn pattern(x: f64) -> u64
    ensures { result ≡ Spec.pattern x }
{
    f64_to_bits_with_nan(x)
}

// A refusal's number, and no values.
fn refused<const N: usize>(why: Refusal) -> [u64; N]
    ensures { result ≡ Spec.refused N why }
{
    let mut words = [0; N];
    if let Some(number) = words.first_mut() {
        *number = why.number() as u64;
    }
    words
}

// The word of a refusal alone.
pub(crate) fn refusal_word(why: Refusal, part: u32) -> u64
    ensures { result ≡ Spec.word (Spec.refused 1 why) part }
{
    let words: [u64; 1] = refused(why);
    word(&words, part)
}

// ---- an approach
fn closing(cpa: Cpa) -> [u64; 6]
    ensures { result ≡ Spec.closing cpa }
{
    [
        0,
        0,
        pattern(cpa.distance.0),
        pattern(cpa.bearing.0),
        cpa.time_to_go.secs,
        cpa.time_to_go.nanos as u64,
    ]
}

fn at_distance(kind: u64, distance: Distance) -> [u64; 6]
    ensures { result ≡ Spec.at_distance kind distance }
{
    [0, kind, pattern(distance.0), 0, 0, 0]
}

fn approach(a: Approach) -> [u64; 6]
    ensures { result ≡ Spec.approach a }
{
    match a {
        Approach::Closing(cpa) => closing(cpa),
        Approach::Opening { current_range } => at_distance(1, current_range),
        Approach::Stationary { range } => at_distance(2, range),
    }
}

pub(crate) fn approach_words(answer: Result<Approach, Refusal>) -> [u64; 6]
    ensures { result ≡ Spec.approach_words answer }
{
    answer.map_or_else(refused, approach)
}

fn approach_distance(a: ApproachDistance) -> [u64; 6]
    ensures { result ≡ Spec.approach_distance a }
{
    match a {
        ApproachDistance::Closing(d) => at_distance(0, d),
        ApproachDistance::Opening { current_range } => at_distance(1, current_range),
        ApproachDistance::Stationary { range } => at_distance(2, range),
    }
}

pub(crate) fn approach_distance_words(answer: Result<ApproachDistance, Refusal>) -> [u64; 6]
    ensures { result ≡ Spec.approach_distance_words answer }
{
    answer.map_or_else(refused, approach_distance)
}

// ---- one figure
pub(crate) fn figure(x: f64) -> [u64; 2]
    ensures { result ≡ Spec.figure x }
{
    [0, pattern(x)]
}

pub(crate) fn bearing_words(answer: Result<RelativeBearing, Refusal>) -> [u64; 2]
    ensures { result ≡ Spec.bearing_words answer }
{
    answer.map(|b| b.0).map_or_else(refused, figure)
}

pub(crate) fn range_words(answer: Result<Distance, Refusal>) -> [u64; 2]
    ensures { result ≡ Spec.range_words answer }
{
    answer.map(|d| d.0).map_or_else(refused, figure)
}

// ---- a plot, and the courses for a closest approach
fn solution(s: TargetSolution) -> [u64; 6]
    ensures { result ≡ Spec.solution s }
{
    [
        0,
        pattern(s.vessel.course.0),
        pattern(s.vessel.speed.0),
        pattern(s.relative_course.0),
        pattern(s.relative_speed.0),
        pattern(s.aspect.0),
    ]
}

pub(crate) fn solution_words(answer: Result<TargetSolution, Refusal>) -> [u64; 6]
    ensures { result ≡ Spec.solution_words answer }
{
    answer.map_or_else(refused, solution)
}

fn is_course(a: Option<Direction>) -> u64
    ensures { result ≡ Spec.is_course a }
{
    u64::from(a.is_some())
}

fn course(a: Option<Direction>) -> u64
    ensures { result ≡ Spec.course a }
{
    a.map_or(0, |d| pattern(d.0))
}

fn courses(a: Avoidance) -> [u64; 5]
    ensures { result ≡ Spec.courses a }
{
    [
        0,
        is_course(a.starboard),
        course(a.starboard),
        is_course(a.port),
        course(a.port),
    ]
}

pub(crate) fn courses_words(answer: Result<Avoidance, Refusal>) -> [u64; 5]
    ensures { result ≡ Spec.courses_words answer }
{
    answer.map_or_else(refused, courses)
}

// ---- a ruling
fn encounter_code(e: Encounter) -> u64
    ensures { result ≡ Spec.encounter_code e }
{
    match e {
        Encounter::Overtaking => 0,
        Encounter::BeingOvertaken => 1,
        Encounter::HeadOn => 2,
        Encounter::Crossing {
            target_on: Side::Starboard,
        } => 3,
        Encounter::Crossing {
            target_on: Side::Port,
        } => 4,
    }
}

// The enum's own number.
fn responsibility_code(duty: Responsibility) -> u64
    ensures { result ≡ Spec.responsibility_code duty }
{
    duty as u64
}

fn ruling(r: Ruling) -> [u64; 8]
    ensures { result ≡ Spec.ruling r }
{
    [
        0,
        encounter_code(r.encounter),
        responsibility_code(r.responsibility),
        r.rule.number() as u64,
        u64::from(r.manoeuvre.starboard),
        u64::from(r.manoeuvre.port),
        u64::from(r.manoeuvre.slow_down),
        u64::from(r.manoeuvre.hold),
    ]
}

pub(crate) fn ruling_words(answer: Result<Ruling, Refusal>) -> [u64; 8]
    ensures { result ≡ Spec.ruling_words answer }
{
    answer.map_or_else(refused, ruling)
}

// A category's rank.
pub(crate) fn rank_words(rank: u8) -> [u64; 2]
    ensures { result ≡ Spec.rank_words rank }
{
    [0, rank as u64]
}

// ---- an assessment
// By a `match`: of a closure that makes an array `map_or` says nothing of what it returns (tried),
// and `p.map_or([0; 5], found)` wants `found`, a second function with a contract of its own, for
// each of the two.
fn nearest(p: Option<Cpa>) -> [u64; 5]
    ensures { result ≡ Spec.nearest p }
{
    match p {
        None => [0; 5],
        Some(cpa) => {
            let time = cpa.time_to_go;
            let nanos = time.nanos as u64;
            [
                1,
                pattern(cpa.distance.0),
                pattern(cpa.bearing.0),
                time.secs,
                nanos,
            ]
        }
    }
}

fn crossing(p: Option<Distance>) -> [u64; 2]
    ensures { result ≡ Spec.crossing p }
{
    match p {
        None => [0; 2],
        Some(d) => [1, pattern(d.0)],
    }
}

fn assessment(a: CollisionAssessment) -> [u64; 14]
    ensures { result ≡ Spec.assessment a }
{
    let [near, distance, at, secs, nanos] = nearest(a.cpa());
    let [crosses, ahead] = crossing(a.bow_crossing());
    [
        0,
        pattern(a.relative_course().0),
        pattern(a.relative_speed().0),
        pattern(a.bearing_drift().0),
        near,
        distance,
        at,
        secs,
        nanos,
        crosses,
        ahead,
        a.risk().rank() as u64,
        pattern(a.range().0),
        pattern(a.bearing().0),
    ]
}

pub(crate) fn assessment_words(answer: Result<CollisionAssessment, Refusal>) -> [u64; 14]
    ensures { result ≡ Spec.assessment_words answer }
{
    answer.map_or_else(refused, assessment)
}

// ---- a manoeuvre
// The enum's own number.
fn side(side: Side) -> u64
    ensures { result ≡ Spec.side side }
{
    side as u64
}

fn limiting(limiting: Option<usize>) -> u64
    ensures { result ≡ Spec.limiting limiting }
{
    limiting.map_or(0, |place| (place % 64) as u64 + 1)
}

fn turn(
    side: u64,
    size: u64,
    course: u64,
    passing: u64,
    time: Option<Duration>,
    limiting: u64,
) -> [u64; 9]
    ensures { result ≡ Spec.turn side size course passing time limiting }
{
    let (known, secs, nanos) = time.map_or((0, 0, 0), |d| (1, d.secs, d.nanos as u64));
    [0, side, size, course, passing, known, secs, nanos, limiting]
}

fn avoidance(m: AvoidanceManoeuvre) -> [u64; 9]
    ensures { result ≡ Spec.avoidance m }
{
    turn(
        side(m.side()),
        pattern(m.alteration().0),
        pattern(m.course().0),
        pattern(m.least_passing().0),
        m.turn_time(),
        limiting(m.limiting()),
    )
}

pub(crate) fn avoidance_words(answer: Result<AvoidanceManoeuvre, Refusal>) -> [u64; 9]
    ensures { result ≡ Spec.avoidance_words answer }
{
    answer.map_or_else(refused, avoidance)
}

fn ruled(m: RuledManoeuvre) -> [u64; 9]
    ensures { result ≡ Spec.ruled m }
{
    turn(
        side(m.side),
        pattern(m.magnitude.0),
        pattern(m.course.0),
        pattern(m.least_passing.0),
        m.turn_time,
        limiting(m.limiting),
    )
}

pub(crate) fn ruled_words(answer: Result<RuledManoeuvre, Refusal>) -> [u64; 9]
    ensures { result ≡ Spec.ruled_words answer }
{
    answer.map_or_else(refused, ruled)
}

fn slowing(m: SlowingManoeuvre) -> [u64; 10]
    ensures { result ≡ Spec.slowing m }
{
    let [
        zero,
        side,
        magnitude,
        course,
        passing,
        known,
        secs,
        nanos,
        limiting,
    ] = ruled(m.turn);
    [
        zero,
        side,
        magnitude,
        course,
        passing,
        known,
        secs,
        nanos,
        limiting,
        pattern(m.speed.0),
    ]
}

pub(crate) fn slowing_words(answer: Result<SlowingManoeuvre, Refusal>) -> [u64; 10]
    ensures { result ≡ Spec.slowing_words answer }
{
    answer.map_or_else(refused, slowing)
}

pub(crate) fn chosen_words(choice: Option<Chosen>) -> [u64; 6]
    ensures { result ≡ Spec.chosen_words choice }
{
    match choice {
        None => [0; 6],
        Some(c) => {
            [
                0,
                1,
                side(c.side),
                pattern(c.magnitude.0),
                pattern(c.clearance.distance.0),
                limiting(c.clearance.limiting),
            ]
        }
    }
}

// A count of trials.
pub(crate) fn count_words(count: usize) -> [u64; 2]
    ensures { result ≡ Spec.count_words count }
{
    [0, count as u64]
}

// ---- the motion that is fitted
fn motion(m: Option<Vessel>) -> [u64; 4]
    ensures { result ≡ Spec.motion m }
{
    match m {
        None => [0; 4],
        Some(v) => [0, 1, pattern(v.course.0), pattern(v.speed.0)],
    }
}

pub(crate) fn motion_words(answer: Result<Option<Vessel>, Refusal>) -> [u64; 4]
    ensures { result ≡ Spec.motion_words answer }
{
    answer.map_or_else(refused, motion)
}
