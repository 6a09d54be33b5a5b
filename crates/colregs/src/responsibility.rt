// Who keeps out of the way, and by which rule: the first rule that speaks, in the order of
// colregs/specs/Colregs.antt.
ghost use Rattle.std.specs.Prelude.{◌≡◌, [], ◌∷◌};
ghost use Rattle.colregs.specs.Colregs as Spec;
ghost use Rattle.colregs.specs.Said as Says;

use crate::answer::{Decision, Encounter, Responsibility, Rule};
use crate::geometry::{Geometry, Wind, Windward};
use motion::side::Side;
use situation::party::{Tack, VesselCategory, Visibility};
use std::cmp::Ordering;

// Rule 12(a)(ii): the windward one keeps out of the way.
fn windward_gives_way(windward: Windward) -> Responsibility
    ensures { result ≡ Spec.windward_gives_way windward }
{
    match windward {
        Windward::Own => Responsibility::GiveWay,
        Windward::Target => Responsibility::StandOn,
        Windward::Unknown => Responsibility::Undetermined,
    }
}

// Rule 12(a)(iii), request R-2: on the port tack own craft keeps out of the way of one that she
// sees to windward and whose tack she does not know.
fn port_tack_keeps_clear(seen_to_windward: bool) -> Responsibility
    ensures { result ≡ Spec.port_tack_keeps_clear seen_to_windward }
{
    if seen_to_windward {
        return Responsibility::GiveWay;
    }
    Responsibility::Undetermined
}

// Rule 12: two sailing vessels.
fn sailing_vessels(own: Tack, target: Tack, wind: Wind) -> Responsibility
    ensures { result ≡ Spec.sailing_vessels own target wind }
{
    match (own, target) {
        (Tack::Port, Tack::Starboard) => Responsibility::GiveWay,
        (Tack::Starboard, Tack::Port) => Responsibility::StandOn,
        (Tack::Port, Tack::Unknown) => port_tack_keeps_clear(wind.seen_to_windward),
        (Tack::Unknown, _) | (_, Tack::Unknown) => Responsibility::Undetermined,
        _ => windward_gives_way(wind.windward),
    }
}

// Rules 14, 15 and 17: two vessels of one rank, neither overtaking.
#[tactic(auto, unfolding(crate::specs::Colregs::decided))]
fn one_rank(e: Encounter) -> Decision
    ensures { result ≡ Spec.decided (Spec.one_rank e) }
{
    let (responsibility, rule) = match e {
        Encounter::HeadOn => (Responsibility::Both, Rule::Rule14),
        Encounter::Crossing {
            target_on: Side::Starboard,
        } => (Responsibility::GiveWay, Rule::Rule15),
        Encounter::Crossing {
            target_on: Side::Port,
        } => (Responsibility::StandOn, Rule::Rule17),
        Encounter::Overtaking | Encounter::BeingOvertaken => {
            (Responsibility::Undetermined, Rule::Rule13)
        }
    };
    Decision {
        responsibility,
        rule,
    }
}

// Rule 12, where both sail.
fn both_sailing(f: Geometry) -> Option<Decision>
    ensures { result ≡ Says.said Rule.Rule12 (Spec.rule12 f.own f.target f.wind) }
{
    match (f.own, f.target) {
        (VesselCategory::Sailing { tack: on }, VesselCategory::Sailing { tack: other }) => Some(
            Decision {
                responsibility: sailing_vessels(on, other, f.wind),
                rule: Rule::Rule12,
            },
        ),
        _ => None,
    }
}

// Rule 18, and between vessels of one rank Rules 12, 14, 15 and 17.
#[tactic(auto, using(crate::proofs::ResponsibilityCode::lower, crate::proofs::ResponsibilityCode::higher, crate::proofs::ResponsibilityCode::equal))]
fn ranks_first(e: Encounter, f: Geometry) -> Decision
    ensures { result ≡ Spec.decided (Spec.ranks_first e f.own f.target f.wind) }
{
    let responsibility = match f.own.precedence().cmp(&f.target.precedence()) {
        Ordering::Less => Responsibility::GiveWay,
        Ordering::Greater => Responsibility::StandOn,
        Ordering::Equal => return both_sailing(f).unwrap_or(one_rank(e)),
    };
    Decision {
        responsibility,
        rule: Rule::Rule18,
    }
}

// Rule 13 before the others.
fn responsibility_of(e: Encounter, f: Geometry) -> Decision
    ensures { result ≡ Spec.unless_silent (Spec.rule13 e) Rule.Rule13 (Spec.decided (Spec.ranks_first e f.own f.target f.wind)) }
{
    let responsibility = match e {
        Encounter::Overtaking => Responsibility::GiveWay,
        Encounter::BeingOvertaken => Responsibility::StandOn,
        Encounter::HeadOn | Encounter::Crossing { .. } => return ranks_first(e, f),
    };
    Decision {
        responsibility,
        rule: Rule::Rule13,
    }
}

// The first rule that speaks.
#[tactic(auto, unfolding(crate::specs::Colregs::decided))]
pub(crate) fn decided(e: Encounter, f: Geometry) -> Decision
    ensures { result ≡ Spec.decided (Spec.clauses e f) }
{
    match f.visibility {
        Visibility::Restricted => Decision {
            responsibility: Responsibility::Both,
            rule: Rule::Rule19,
        },
        Visibility::InSight => responsibility_of(e, f),
    }
}
