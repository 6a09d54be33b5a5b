// C exports of the module's functions, for the comparison with the Rust (docs/COMPARISON.md). Each
// takes its arguments as one list of words (specs/Arguments.antt) and answers one word, the one of
// the place `part` of the answer (specs/Answers.antt). The arguments are checked in document 01's
// order, limits and constraints too (specs/Asked.antt).
#![tactic(auto)]

mod answers;
mod arguments;
mod picture;
mod plots;

ghost use Rattle.std.specs.Prelude.{◌≡◌};
ghost use Rattle.situation.specs.Situation as Situation;
ghost use Rattle.manoeuvre.specs.Step as Step;
ghost use Rattle.manoeuvre.specs.Trials as Trials;
ghost use Rattle.exports.specs.Answers as Answer;
ghost use Rattle.exports.specs.Arguments as Argument;
ghost use Rattle.exports.specs.Asked as Asked;
ghost use Rattle.exports.specs.Picture as Picture;
ghost use Rattle.exports.specs.Plots as Plots;

use assessment::assess::CollisionAssessment;
use avoidance::search::{Chosen, Search, Sides};
use clearance::traffic::Entry;
use elementary::error::Refusal;
use manoeuvre::AvoidanceManoeuvre;
use manoeuvre::constraints::ManoeuvreConstraints;
use motion::units::Distance;
use ruled_search::RuledManoeuvre;
use situation::party::Circumstances;
use slowing_search::SlowingManoeuvre;

#[unsafe(no_mangle)]
pub extern "C" fn port_closest_point_of_approach(part: u32, words: &[u64]) -> u64
    ensures { result ≡ Answer.word (Answer.approach_words (Asked.cpa_asked words.now)) part }
{
    let e = arguments::entry(words, 0);
    let answer = relative_motion::approach::closest_point_of_approach(
        arguments::own(words).motion,
        e.contact,
        e.target.motion,
    );
    answers::word(&answers::approach_words(answer), part)
}

#[unsafe(no_mangle)]
pub extern "C" fn port_approach_distance(part: u32, words: &[u64]) -> u64
    ensures { result ≡ Answer.word (Answer.approach_distance_words (Asked.approach_distance_asked words.now)) part }
{
    let e = arguments::entry(words, 0);
    let answer = relative_motion::approach::approach_distance(
        arguments::own(words).motion,
        e.contact,
        e.target.motion,
    );
    answers::word(&answers::approach_distance_words(answer), part)
}

#[unsafe(no_mangle)]
pub extern "C" fn port_relative_bearing_of(part: u32, words: &[u64]) -> u64
    ensures { result ≡ Answer.word (Answer.bearing_words (Asked.bearing_asked words.now)) part }
{
    let answer = relative_motion::approach::relative_bearing_of(
        arguments::own(words).motion,
        arguments::entry(words, 0).contact,
    );
    answers::word(&answers::bearing_words(answer), part)
}

#[unsafe(no_mangle)]
pub extern "C" fn port_bow_crossing_range(part: u32, words: &[u64]) -> u64
    ensures { result ≡ Answer.word (Answer.range_words (Asked.bow_asked words.now)) part }
{
    let e = arguments::entry(words, 0);
    let answer = relative_motion::bow_crossing::bow_crossing_range(
        arguments::own(words).motion,
        e.contact,
        e.target.motion,
    );
    answers::word(&answers::range_words(answer), part)
}

// The two plots are those of the first two contacts.
#[unsafe(no_mangle)]
pub extern "C" fn port_target_from_plot(part: u32, words: &[u64]) -> u64
    ensures { result ≡ Answer.word (Answer.solution_words (Asked.plot_asked words.now)) part }
{
    let answer = relative_motion::plot::target_from_plot(
        arguments::own(words).motion,
        arguments::entry(words, 0).contact,
        arguments::entry(words, 1).contact,
        arguments::elapsed(words),
    );
    answers::word(&answers::solution_words(answer), part)
}

#[unsafe(no_mangle)]
pub extern "C" fn port_course_for_cpa(part: u32, words: &[u64]) -> u64
    ensures { result ≡ Answer.word (Answer.courses_words (Asked.course_asked words.now)) part }
{
    let e = arguments::entry(words, 0);
    let answer = relative_motion::course::course_for_cpa(
        arguments::own(words).motion,
        e.contact,
        e.target.motion,
        arguments::desired(words),
    );
    answers::word(&answers::courses_words(answer), part)
}

#[unsafe(no_mangle)]
pub extern "C" fn port_rule_of_the_road(part: u32, words: &[u64]) -> u64
    ensures { result ≡ Answer.word (Answer.ruling_words (Asked.ruling_asked words.now)) part }
{
    let e = arguments::entry(words, 0);
    let answer = colregs::rules::rule_of_the_road(
        arguments::around(words).with(e.contact, e.target),
        arguments::config(words),
    );
    answers::word(&answers::ruling_words(answer), part)
}

// Own craft's rank, as word 1.
#[unsafe(no_mangle)]
pub extern "C" fn port_precedence(part: u32, words: &[u64]) -> u64
    ensures { result ≡ Answer.word (Answer.rank_words (Situation.precedence (Argument.own words.now).category)) part }
{
    let rank = arguments::own(words).category.precedence();
    answers::word(&answers::rank_words(rank), part)
}

fn assess_asked(words: &[u64]) -> Result<CollisionAssessment, Refusal>
    ensures { result ≡ Asked.assess_asked words.now }
{
    let own = arguments::own(words).motion;
    let e = arguments::entry(words, 0);
    motion::argument::check_encounter(own, e.contact, e.target.motion)?;
    let policy = arguments::policy(words)?;
    assessment::assess::assess(own, e.contact, e.target.motion, policy)
}

#[unsafe(no_mangle)]
pub extern "C" fn port_assess(part: u32, words: &[u64]) -> u64
    ensures { result ≡ Answer.word (Answer.assessment_words (Asked.assess_asked words.now)) part }
{
    answers::word(&answers::assessment_words(assess_asked(words)), part)
}

#[unsafe(no_mangle)]
pub extern "C" fn port_collision_picture(part: u32, words: &[u64]) -> u64
    ensures { result ≡ Picture.picture_word (Argument.own words.now).motion (Argument.entries words.now) (Argument.policy words.now) part }
{
    picture::picture_word(
        arguments::own(words).motion,
        &arguments::entries(words),
        arguments::policy(words),
        part,
    )
}

fn avoid_asked(words: &[u64]) -> Result<AvoidanceManoeuvre, Refusal>
    ensures { result ≡ Asked.avoid_asked words.now }
{
    let own = arguments::own(words).motion;
    let e = arguments::entry(words, 0);
    let desired = arguments::desired(words);
    motion::argument::check_encounter(own, e.contact, e.target.motion)?;
    motion::argument::check_distance(desired)?;
    let constraints = arguments::constraints(words)?;
    avoidance::avoid(own, e.contact, e.target.motion, desired, constraints)
}

#[unsafe(no_mangle)]
pub extern "C" fn port_avoid(part: u32, words: &[u64]) -> u64
    ensures { result ≡ Answer.word (Answer.avoidance_words (Asked.avoid_asked words.now)) part }
{
    answers::word(&answers::avoidance_words(avoid_asked(words)), part)
}

// The constraints of a ruled search, with its other arguments checked.
fn search_constraints(
    words: &[u64],
    around: Circumstances,
    t: &[Entry],
    desired: Distance,
) -> Result<ManoeuvreConstraints, Refusal>
    ensures { result ≡ Asked.search_constraints words.now around t.now desired }
{
    clearance::traffic::check_count(arguments::count(words))?;
    situation::check::check_party(around.own)?;
    clearance::traffic::check_contacts(t)?;
    situation::check::check_optional(around.wind_from)?;
    motion::argument::check_distance(desired)?;
    arguments::constraints(words)
}

fn ruled_asked(words: &[u64]) -> Result<RuledManoeuvre, Refusal>
    ensures { result ≡ Asked.ruled_asked words.now }
{
    let around = arguments::around(words);
    let t = arguments::entries(words);
    let desired = arguments::desired(words);
    let constraints = search_constraints(words, around, &t, desired)?;
    ruled_search::ruled_search(around, &t, desired, constraints)
}

#[unsafe(no_mangle)]
pub extern "C" fn port_ruled_search(part: u32, words: &[u64]) -> u64
    ensures { result ≡ Answer.word (Answer.ruled_words (Asked.ruled_asked words.now)) part }
{
    answers::word(&answers::ruled_words(ruled_asked(words)), part)
}

fn slowing_asked(words: &[u64]) -> Result<SlowingManoeuvre, Refusal>
    ensures { result ≡ Asked.slowing_asked words.now }
{
    let around = arguments::around(words);
    let t = arguments::entries(words);
    let desired = arguments::desired(words);
    let constraints = search_constraints(words, around, &t, desired)?;
    slowing_search::slowing_search(around, &t, desired, constraints)
}

#[unsafe(no_mangle)]
pub extern "C" fn port_slowing_search(part: u32, words: &[u64]) -> u64
    ensures { result ≡ Answer.word (Answer.slowing_words (Asked.slowing_asked words.now)) part }
{
    answers::word(&answers::slowing_words(slowing_asked(words)), part)
}

// The search alone, without checks.
fn search_asked(words: &[u64]) -> Option<Chosen>
    ensures { result ≡ Asked.search_asked words.now }
{
    let scene = clearance::traffic::scene_of(&arguments::entries(words));
    let own = arguments::own(words).motion;
    Search::new(own, &scene, arguments::desired(words)).smallest(
        Sides::from(arguments::sides(arguments::code(words, 13))),
        arguments::trials(words),
    )
}

#[unsafe(no_mangle)]
pub extern "C" fn port_search(part: u32, words: &[u64]) -> u64
    ensures { result ≡ Answer.word (Answer.chosen_words (Asked.search_asked words.now)) part }
{
    answers::word(&answers::chosen_words(search_asked(words)), part)
}

// How many trials the list has, as word 1.
#[unsafe(no_mangle)]
pub extern "C" fn port_trial_count(part: u32, words: &[u64]) -> u64
    ensures { result ≡ Answer.word (Answer.count_words (Step.count (Argument.least words.now) (Argument.most words.now))) part }
{
    answers::word(
        &answers::count_words(arguments::trials(words).count()),
        part,
    )
}

// One trial, as word 1.
#[unsafe(no_mangle)]
pub extern "C" fn port_trial(part: u32, words: &[u64]) -> u64
    ensures { result ≡ Answer.word (Answer.figure (Trials.trial (Argument.least words.now) (Argument.most words.now) (Argument.which words.now))) part }
{
    let trial = arguments::trials(words).trial(arguments::which(words));
    answers::word(&answers::figure(trial), part)
}

// A run of plots, handed to an empty window one after the other: the verdict on the last, and what
// the window holds, which is the latest 8 of those that are accepted.
#[unsafe(no_mangle)]
pub extern "C" fn port_window(part: u32, words: &[u64]) -> u64
    ensures { result ≡ Plots.window_word (Asked.window_asked words.now) part }
{
    plots::window_word(plots::run(words), part)
}

// The motion that is fitted after such a run: that which the latest 8 of those that are accepted
// give, worked out afresh.
#[unsafe(no_mangle)]
pub extern "C" fn port_fit(part: u32, words: &[u64]) -> u64
    ensures { result ≡ Answer.word (Answer.motion_words (Asked.fit_asked words.now)) part }
{
    answers::word(&answers::motion_words(plots::run(words).window.fit()), part)
}
