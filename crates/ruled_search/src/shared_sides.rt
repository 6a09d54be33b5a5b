// The sides to which every ruling on the traffic lets own craft alter.
ghost use Rattle.std.specs.Prelude.{◌≡◌};
ghost use Rattle.ruled_search.specs.Ruled as Spec;

use avoidance::search::Sides;
use clearance::traffic::Entry;
use colregs::answer::Ruling;
use elementary::error::Refusal;
use situation::config::ColregsConfig;
use situation::party::Circumstances;

// The sides that a ruling permits; none where there is no ruling.
fn permitted_sides(answer: Result<Ruling, Refusal>) -> Sides
    ensures { result ≡ Spec.permitted_sides answer }
{
    answer.map_or(
        Sides::default(),
        |ruling| Sides {
            starboard: ruling.manoeuvre.starboard,
            port: ruling.manoeuvre.port,
        },
    )
}

// The sides that the ruling on one contact permits.
#[tactic(auto, unfolding(crate::specs::Ruled::sides_of))]
fn sides_of(around: Circumstances, e: Entry) -> Sides
    ensures { result ≡ Spec.sides_of around.own around.visibility around.wind_from e }
{
    let s = around.with(e.contact, e.target);
    permitted_sides(colregs::rules::rule_of_the_road(s, ColregsConfig::STANDARD))
}

#[tactic(auto, unfolding(crate::specs::Ruled::in_both))]
fn in_both(a: Sides, b: Sides) -> Sides
    ensures { result ≡ Spec.in_both a b }
{
    Sides {
        starboard: a.starboard && b.starboard,
        port: a.port && b.port,
    }
}

// The sides that the rulings on all contacts permit; both without contacts.
pub fn shared_sides(around: Circumstances, t: &[Entry]) -> Sides
    ensures { result ≡ Spec.shared_sides around.own around.visibility around.wind_from t.now }
{
    let both = Sides {
        starboard: true,
        port: true,
    };
    t.iter()
        .fold(both, |sides, e| in_both(sides, sides_of(around, *e)))
}
