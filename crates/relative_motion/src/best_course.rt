// The best course of each side among those that are offered.
ghost use Rattle.std.specs.Prelude.{◌≡◌};
ghost use Rattle.relative_motion.specs.Offers as Spec;

use motion::side::BySide;

// The best course so far on a side: by how much it alters, to port a negative number, and the
// course.
#[derive(Clone, Copy)]
pub struct Best {
    pub alteration: f64,
    pub course: f64,
}

// The best so far on each side.
pub type Choice = BySide<Option<Best>>;

// The smaller of two alterations to starboard, the first of equals (`!(a < b)` is not `a >= b`: of
// what is no number it is true).
fn smaller(best: Option<Best>, offer: Best) -> Option<Best>
    ensures { result ≡ Spec.smaller best offer.alteration offer.course }
{
    best.filter(|least| !(offer.alteration < least.alteration))
        .or(Some(offer))
}

// The larger of two alterations, the first of equals: to port they are negative. Beside `smaller`:
// one function for both, on the alteration to a side, would have `offered` answer port's with the
// other sign.
fn larger(best: Option<Best>, offer: Best) -> Option<Best>
    ensures { result ≡ Spec.larger best offer.alteration offer.course }
{
    best.filter(|most| !(offer.alteration > most.alteration))
        .or(Some(offer))
}

// One course more to choose from. No alteration at all belongs to neither side. The arms stay two:
// a setter by side would need a definition and a proof of its own, and which of two is the better
// would still be told apart here.
#[tactic(auto, unfolding(crate::specs::Offers::offered))]
pub(crate) fn offered(own_course: f64, course: f64, choice: Choice) -> Choice
    ensures { result ≡ Spec.offered own_course course choice }
{
    let alteration = math::angle::wrap180(course - own_course);
    let offer = Best { alteration, course };
    if alteration > 0.0 {
        return Choice {
            starboard: smaller(choice.starboard, offer),
            ..choice
        };
    }
    if alteration < 0.0 {
        return Choice {
            port: larger(choice.port, offer),
            ..choice
        };
    }
    choice
}
