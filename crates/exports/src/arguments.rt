// The arguments of the C exports, read from a list of words: specs/Arguments.antt says which word
// is what. Floats are bit patterns, categories and visibilities have the sheet's codes; what the
// list lacks reads as 0.
ghost use Rattle.std.specs.Prelude.{◌≡◌, length, get_or};
ghost use Rattle.exports.specs.Arguments as Spec;

use arrayvec::ArrayVec;
use assessment::policy::CpaPolicy;
use clearance::traffic::Entry;
use elementary::error::Refusal;
use manoeuvre::constraints::{ManoeuvreConstraints, PermittedSides};
use manoeuvre::trials::TrialList;
use math::duration::Duration;
use motion::capacity::MAX_CONTACTS;
use motion::units::{Angle, Direction, Distance, RateOfTurn, Speed};
use motion::vessel::{Components, Contact, Vessel};
use situation::config::ColregsConfig;
use situation::party::{Circumstances, Party, VesselCategory, Visibility};
use std::num::f64_from_bits_with_nan;
use track::window::Plot;

// How many words come before the contacts.
const BEFORE: usize = 20;

// ---- a word
fn word(words: &[u64], i: usize) -> u64
    ensures { result ≡ Spec.word words.now i }
{
    words.get(i).copied().unwrap_or(0)
}

pub(crate) fn float(words: &[u64], i: usize) -> f64
    ensures { result ≡ Spec.float words.now i }
{
    f64_from_bits_with_nan(word(words, i))
}

pub(crate) fn code(words: &[u64], i: usize) -> u32
    ensures { result ≡ Spec.code words.now i }
{
    (word(words, i) % (1 << 32)) as u32
}

// ---- what words stand for
fn vessel(course: f64, speed: f64) -> Vessel
    ensures { result ≡ Spec.vessel course speed }
{
    Vessel {
        course: Direction(course),
        speed: Speed(speed),
    }
}

fn contact(bearing: f64, range: f64) -> Contact
    ensures { result ≡ Spec.contact bearing range }
{
    Contact {
        bearing: Direction(bearing),
        range: Distance(range),
    }
}

fn optional(known: u64, degrees: f64) -> Option<Direction>
    ensures { result ≡ Spec.optional known degrees }
{
    (known != 0).then_some(Direction(degrees))
}

// Own craft.
#[tactic(auto, unfolding(crate::specs::Arguments::own))]
pub(crate) fn own(words: &[u64]) -> Party
    ensures { result ≡ Spec.own words.now }
{
    Party {
        motion: vessel(float(words, 0), float(words, 1)),
        heading: optional(word(words, 3), float(words, 4)),
        category: VesselCategory::from(code(words, 2)),
    }
}

// What is the same for every contact.
#[tactic(auto, unfolding(crate::specs::Arguments::around))]
pub(crate) fn around(words: &[u64]) -> Circumstances
    ensures { result ≡ Spec.around words.now }
{
    Circumstances {
        own: own(words),
        visibility: Visibility::from(code(words, 5)),
        wind_from: optional(word(words, 6), float(words, 7)),
    }
}

// The distance that is wanted.
pub(crate) fn desired(words: &[u64]) -> Distance
    ensures { result ≡ Spec.desired words.now }
{
    Distance(float(words, 8))
}

#[tactic(auto, unfolding(crate::specs::Arguments::sides))]
pub(crate) fn sides(code: u32) -> PermittedSides
    ensures { result ≡ Spec.sides code }
{
    match code {
        0 => PermittedSides::Either,
        1 => PermittedSides::Starboard,
        _ => PermittedSides::Port,
    }
}

// The trials from the least alteration to the most, whatever these are.
pub(crate) fn trials(words: &[u64]) -> TrialList
    ensures least { result.least ≡ Spec.least words.now }
    ensures most { result.most ≡ Spec.most words.now }
{
    TrialList {
        least: float(words, 9),
        most: float(words, 10),
    }
}

// The constraints, or the first refusal that making them meets.
#[tactic(auto, unfolding(crate::specs::Arguments::constraints))]
pub(crate) fn constraints(words: &[u64]) -> Result<ManoeuvreConstraints, Refusal>
    ensures { result ≡ Spec.constraints words.now }
{
    let c = ManoeuvreConstraints::new(
        sides(code(words, 13)),
        Angle(float(words, 9)),
        Angle(float(words, 10)),
    )?;
    if word(words, 11) == 0 {
        return Ok(c);
    }
    c.with_rate_of_turn(RateOfTurn(float(words, 12)))
}

// Which trial of the list.
pub(crate) fn which(words: &[u64]) -> usize
    ensures { result ≡ Spec.which words.now }
{
    word(words, 19) as usize
}

// The time of a limit, or between two plots.
pub(crate) fn elapsed(words: &[u64]) -> Duration
    ensures { result ≡ Spec.elapsed words.now }
{
    Duration {
        secs: word(words, 15),
        nanos: code(words, 16),
    }
}

// The limits of the assessment, or the refusal that making them meets.
pub(crate) fn policy(words: &[u64]) -> Result<CpaPolicy, Refusal>
    ensures { result ≡ Spec.policy words.now }
{
    CpaPolicy::new(Distance(float(words, 14)), elapsed(words))
}

// The conventional widths.
pub(crate) fn config(words: &[u64]) -> ColregsConfig
    ensures { result ≡ Spec.config words.now }
{
    ColregsConfig {
        overtaking_abaft_beam: Angle(float(words, 17)),
        head_on_half_width: Angle(float(words, 18)),
    }
}

// ---- the contacts
// The whole contacts after the first words.
#[tactic(auto, using(crate::proofs::ArgumentsCode::whole), unfolding(crate::specs::Arguments::contacts))]
fn contacts(words: &[u64]) -> &[[u64; 7]]
    ensures { result.now ≡ Spec.contacts words.now }
{
    let before = words.len().min(BEFORE);
    let (contacts, _) = words[before..].as_chunks::<7>();
    contacts
}

#[tactic(auto, unfolding(crate::specs::Arguments::entry_of))]
fn entry_of(words: [u64; 7]) -> Entry
    ensures { result ≡ Spec.entry_of words }
{
    Entry {
        contact: contact(float(&words, 0), float(&words, 1)),
        target: Party {
            motion: vessel(float(&words, 2), float(&words, 3)),
            heading: optional(word(&words, 5), float(&words, 6)),
            category: VesselCategory::from(code(&words, 4)),
        },
    }
}

// Contact i, of zeros where there is none.
pub(crate) fn entry(words: &[u64], i: usize) -> Entry
    ensures { result ≡ Spec.entry words.now i }
{
    entry_of(contacts(words).get(i).copied().unwrap_or([0; 7]))
}

// How many contacts there are.
pub(crate) fn count(words: &[u64]) -> usize
    ensures { result ≡ length (Spec.contacts words.now) }
{
    contacts(words).len()
}

// The contacts, as many as there is room for.
pub(crate) fn entries(words: &[u64]) -> ArrayVec<Entry, MAX_CONTACTS>
    ensures { result.items ≡ Spec.entries words.now }
{
    let listed = motion::capacity::first(contacts(words));
    let mut t = ArrayVec::new();
    for words in listed {
        t.push(entry_of(*words));
    }
    t
}

// ---- the plots of a run
// The whole threes of words.
#[tactic(auto, unfolding(crate::specs::Arguments::plot_words))]
pub(crate) fn plot_words(words: &[u64]) -> &[[u64; 3]]
    ensures { result.now ≡ Spec.plot_words words.now }
{
    let (plots, _) = words.as_chunks::<3>();
    plots
}

#[tactic(auto, unfolding(crate::specs::Arguments::plot_of))]
pub(crate) fn plot_of(words: [u64; 3]) -> Plot
    ensures { result ≡ Spec.plot_of words }
{
    Plot {
        offset: Components {
            north: float(&words, 0),
            east: float(&words, 1),
        },
        seconds: word(&words, 2).cast_signed(),
    }
}
