// The fields of the line on a turn that say its side, the passing distance and the contact whose it
// is. Words are byte strings, put by a `match`, and no `Display`: `Text::put` says why.
#![tactic(auto, using(text::proofs::Appending::appended_twice), unfolding(text::specs::Text::bytes))]

ghost use Rattle.std.specs.Prelude.{◌≡◌, [], ◌∷◌};
ghost use Rattle.text.specs.Text.{appended};
ghost use Rattle.text.specs.Line.{spaced, line};
ghost use Rattle.lines.specs.Turn as Spec;

use motion::side::Side;
use motion::units::Distance;
use text::Text;

// The side of the turn.
pub(crate) fn side_field(t: &mut Text, side: Side)
    ensures { t.new ≡ appended t.old (spaced (Spec.side_field side)) }
{
    match side {
        Side::Starboard => t.put(b"S "),
        Side::Port => t.put(b"P "),
    }
}

// The least passing distance and the id of the contact whose it is, to the line's end.
pub(crate) fn passing_fields(t: &mut Text, limiting: Option<usize>, passing: Distance, id: u32)
    ensures { t.new ≡ appended t.old (line (Spec.passing_field limiting passing ∷ Spec.limiting_field limiting id ∷ [])) }
{
    match limiting {
        None => t.put(b"FREE NONE\n"),
        Some(_) => {
            text::number::quantity(t, passing.0);
            t.number(id as u64);
            t.byte(b'\n');
        }
    }
}
