// The fields of a line that say the approach and the risk, each appended with the space that
// follows it. Words are byte strings, put by a `match`, and no `Display`: `Text::put` says why.
#![tactic(auto, unfolding(text::specs::Text::bytes))]

ghost use Rattle.std.specs.Prelude.{◌≡◌};
ghost use Rattle.text.specs.Text.{appended};
ghost use Rattle.text.specs.Line.{spaced};
ghost use Rattle.lines.specs.Approach as Spec;

use assessment::risk::CollisionRisk;
use motion::units::Distance;
use relative_motion::approach::Approach;
use text::Text;
pub use text::number::{number, quantity};

// How the range goes.
pub fn approach(t: &mut Text, a: Approach)
    ensures { t.new ≡ appended t.old (spaced (Spec.approach_field a)) }
{
    match a {
        Approach::Closing(_) => t.put(b"CLOSING "),
        Approach::Opening { .. } => t.put(b"OPENING "),
        Approach::Stationary { .. } => t.put(b"STATIONARY "),
    }
}

// The distance of the closest point of approach, and the range where there is none.
pub fn distance(a: Approach) -> Distance
    ensures { result ≡ Spec.distance_of a }
{
    match a {
        Approach::Closing(cpa) => cpa.distance,
        Approach::Opening { current_range } => current_range,
        Approach::Stationary { range } => range,
    }
}

// The whole seconds to the closest point of approach, rounded down; a dash where there is none.
pub fn seconds(t: &mut Text, a: Approach)
    ensures { t.new ≡ appended t.old (spaced (Spec.seconds_field a)) }
{
    match a {
        Approach::Closing(cpa) => number(t, cpa.time_to_go.secs),
        Approach::Opening { .. } | Approach::Stationary { .. } => t.put(b"- "),
    }
}

// The risk against own limits.
pub fn risk(t: &mut Text, k: CollisionRisk)
    ensures { t.new ≡ appended t.old (spaced (Spec.risk_field k)) }
{
    match k {
        CollisionRisk::Opening => t.put(b"OPENING "),
        CollisionRisk::Passing => t.put(b"PASSING "),
        CollisionRisk::Developing => t.put(b"DEVELOPING "),
        CollisionRisk::Dangerous => t.put(b"DANGEROUS "),
    }
}
