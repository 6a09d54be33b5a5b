// The fields of a contact's line that come from its ruling, each appended with the space that
// follows it. Words are byte strings, put by a `match`, and no `Display`: `Text::put` says why.
#![tactic(auto, unfolding(text::specs::Text::bytes))]

ghost use Rattle.std.specs.Prelude.{◌≡◌};
ghost use Rattle.text.specs.Text.{appended};
ghost use Rattle.text.specs.Line.{spaced};
ghost use Rattle.lines.specs.Ruling as Spec;

use colregs::answer::{Encounter, Responsibility};
use motion::side::Side;
use text::Text;

// A crossing, by the side on which the target is.
fn crossing(t: &mut Text, side: Side)
    ensures { t.new ≡ appended t.old (spaced (Spec.crossing_field side)) }
{
    match side {
        Side::Port => t.put(b"CROSSING-P "),
        Side::Starboard => t.put(b"CROSSING-S "),
    }
}

// The kind of the encounter.
pub fn encounter(t: &mut Text, e: Encounter)
    ensures { t.new ≡ appended t.old (spaced (Spec.encounter_field e)) }
{
    match e {
        Encounter::Overtaking => t.put(b"OVERTAKING "),
        Encounter::BeingOvertaken => t.put(b"BEING-OVERTAKEN "),
        Encounter::HeadOn => t.put(b"HEAD-ON "),
        Encounter::Crossing { target_on } => crossing(t, target_on),
    }
}

// Own craft's duty.
pub fn responsibility(t: &mut Text, duty: Responsibility)
    ensures { t.new ≡ appended t.old (spaced (Spec.responsibility_field duty)) }
{
    match duty {
        Responsibility::GiveWay => t.put(b"GIVEWAY "),
        Responsibility::StandOn => t.put(b"STANDON "),
        Responsibility::Both => t.put(b"BOTH "),
        Responsibility::Undetermined => t.put(b"UNDETERMINED "),
    }
}
