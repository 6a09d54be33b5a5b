// The lines that the encounter sheet's program prints, each appended to a text.
#![tactic(auto, using(text::proofs::Appending::appended_twice), unfolding(text::specs::Text::bytes, crate::specs::Lines::alter_line, crate::specs::Lines::refused_line))]

pub mod approach;
pub mod ruling;
pub mod turn;

ghost use Rattle.std.specs.Prelude.{◌≡◌};
ghost use Rattle.text.specs.Text.{appended};
ghost use Rattle.lines.specs.Lines as Spec;

use crate::turn::{passing_fields, side_field};
use assessment::risk::CollisionRisk;
use colregs::answer::Ruling;
use elementary::error::Refusal;
use relative_motion::approach::Approach;
use ruled_search::RuledManoeuvre;
use text::Text;

// The line on a contact: its id, how it approaches, the risk, and the ruling on it.
pub fn contact_line(t: &mut Text, id: u32, approach: Approach, risk: CollisionRisk, ruling: Ruling)
    ensures { t.new ≡ appended t.old (Spec.contact_line id approach risk ruling) }
{
    t.put(b"CONTACT ");
    crate::approach::number(t, id as u64);
    crate::approach::approach(t, approach);
    crate::approach::quantity(t, crate::approach::distance(approach).0);
    crate::approach::seconds(t, approach);
    crate::approach::risk(t, risk);
    crate::ruling::encounter(t, ruling.encounter);
    crate::ruling::responsibility(t, ruling.responsibility);
    t.number(ruling.rule.number() as u64);
    t.byte(b'\n');
}

// The line on the ruled search's answer. The id is that of the limiting contact, and is not read
// where there is none.
pub fn alter_line(t: &mut Text, m: RuledManoeuvre, id: u32)
    ensures { t.new ≡ appended t.old (Spec.alter_line m id) }
{
    t.put(b"ALTER ");
    side_field(t, m.side);
    crate::approach::quantity(t, m.magnitude.0);
    crate::approach::quantity(t, m.course.0);
    passing_fields(t, m.limiting, m.least_passing, id);
}

// The line on a refusal, by its number.
pub fn refused_line(t: &mut Text, why: Refusal)
    ensures { t.new ≡ appended t.old (Spec.refused_line why) }
{
    t.put(b"REFUSED ");
    t.number(why.number() as u64);
    t.byte(b'\n');
}
