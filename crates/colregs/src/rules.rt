// The ruling of COLREGs on an encounter of two vessels: what kind it is, who keeps out of the way,
// by which rule, and which manoeuvres that permits. The port of kinavis-colregs;
// colregs/specs/Colregs.antt has the rules, one definition each.
ghost use Rattle.std.specs.Prelude.{◌≡◌};
ghost use Rattle.colregs.specs.Colregs as Spec;
ghost use Rattle.colregs.specs.Before.{ToWindward};

use crate::answer::{Decision, Encounter, PermittedManoeuvre, Responsibility, Rule, Ruling};
use crate::encounter;
use crate::geometry::Geometry;
use elementary::error::Refusal;
use situation::check;
use situation::config::ColregsConfig;
use situation::party::Situation;

fn is_stand_on(duty: Responsibility) -> bool
    ensures { result ≡ Spec.is_stand_on duty }
{
    matches!(duty, Responsibility::StandOn)
}

fn is_crossing(e: Encounter) -> bool
    ensures { result ≡ Spec.is_crossing e }
{
    matches!(e, Encounter::Crossing { .. })
}

fn is_overtaking(e: Encounter) -> bool
    ensures { result ≡ Spec.is_overtaking e }
{
    matches!(e, Encounter::Overtaking)
}

#[tactic(auto, unfolding(crate::specs::Colregs::forward_of_beam))]
fn forward_of_beam(relative: f64) -> bool
    ensures { result ≡ Spec.forward_of_beam relative }
{
    math::abs(relative) < 90.0
}

// Rule 19(d)(ii): not towards a vessel abeam or abaft the beam.
#[tactic(auto, unfolding(crate::specs::Colregs::rule19_starboard))]
fn rule19_starboard(relative: f64) -> bool
    ensures { result ≡ Spec.rule19_starboard relative }
{
    forward_of_beam(relative) || !(relative >= 0.0)
}

// Rule 19(d): not to port for a vessel forward of the beam, unless she is overtaken, nor towards
// one abeam or abaft it.
#[tactic(auto, unfolding(crate::specs::Colregs::rule19_port))]
fn rule19_port(e: Encounter, relative: f64) -> bool
    ensures { result ≡ Spec.rule19_port e relative }
{
    if forward_of_beam(relative) {
        is_overtaking(e)
    } else {
        relative >= 0.0
    }
}

// Rule 17(c): a vessel that stands on in a crossing does not alter to port.
#[tactic(auto, unfolding(crate::specs::Colregs::rule17_port))]
fn rule17_port(e: Encounter, duty: Responsibility) -> bool
    ensures { result ≡ Spec.rule17_port e duty }
{
    !(is_stand_on(duty) && is_crossing(e))
}

// The sides that a rule permits; rules.rs has both in one, `in_sight` for the rules but 19 and
// `restricted_visibility` for Rule 19.
fn permits_starboard(d: Decision, relative: f64) -> bool
    ensures { result ≡ Spec.permits_starboard d.rule relative }
{
    match d.rule {
        Rule::Rule19 => rule19_starboard(relative),
        _ => true,
    }
}

fn permits_port(e: Encounter, d: Decision, relative: f64) -> bool
    ensures { result ≡ Spec.permits_port d.rule e d.responsibility relative }
{
    match d.rule {
        Rule::Rule14 | Rule::Rule15 => false,
        Rule::Rule19 => rule19_port(e, relative),
        _ => rule17_port(e, d.responsibility),
    }
}

#[tactic(auto, unfolding(crate::specs::Colregs::permitted))]
fn permitted(e: Encounter, d: Decision, relative: f64) -> PermittedManoeuvre
    ensures { result ≡ Spec.permitted e d relative }
{
    PermittedManoeuvre {
        starboard: permits_starboard(d, relative),
        port: permits_port(e, d, relative),
        slow_down: true,
        hold: is_stand_on(d.responsibility),
    }
}

// The ruling on the geometry of a situation.
#[tactic(auto, unfolding(crate::specs::Colregs::ruling_of, crate::specs::Colregs::ruling_for))]
fn ruling_of(config: ColregsConfig, f: Geometry) -> Ruling
    ensures { result ≡ Spec.ruling_of config f }
{
    let e = encounter::encounter_of(config, f);
    let d = crate::responsibility::decided(e, f);
    Ruling {
        encounter: e,
        responsibility: d.responsibility,
        rule: d.rule,
        manoeuvre: permitted(e, d, f.relative),
    }
}

// The ruling on a situation. Arguments are checked in document 01's order: own craft, the contact,
// the target, the wind, the widths.
pub fn rule_of_the_road(s: Situation, config: ColregsConfig) -> Result<Ruling, Refusal>
    ensures is { result ≡ Spec.ruling_answer s config }
    ensures property { ToWindward s config result }
{
    check::check_situation(s)?;
    check::check_config(config)?;
    Ok(ruling_of(config, crate::geometry::geometry_of(s)))
}
