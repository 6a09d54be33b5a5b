// The fields of a line that are numbers, each appended with the space that follows it.
#![tactic(auto, using(crate::proofs::Appending::appended_twice), unfolding(crate::specs::Text::bytes))]

ghost use Rattle.std.specs.Prelude.{◌≡◌};
ghost use Rattle.text.specs.Text.{appended};
ghost use Rattle.text.specs.Decimal.{decimal_of};
ghost use Rattle.text.specs.Line.{spaced};
ghost use Rattle.text.specs.Number as Spec;

use crate::Text;

// A whole number.
pub fn number(t: &mut Text, n: u64)
    ensures { t.new ≡ appended t.old (spaced (decimal_of n)) }
{
    t.number(n);
    t.byte(b' ');
}

// A quantity, with three decimals.
pub fn quantity(t: &mut Text, x: f64)
    ensures { t.new ≡ appended t.old (spaced (Spec.quantity_field x)) }
{
    t.thousandths(crate::decimal::thousandths(x));
    t.byte(b' ');
}
