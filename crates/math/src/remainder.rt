// The remainder of an f64 by a full turn, 360, without a division: whole numbers of full turns are
// taken away, 2^1015 of them first where there are so many, then half as many, and so on to one.
// Every difference is exact (proofs/FullTurns.antt). Not by `%`, which is what the contract says:
// it compiles to a call of the C library's `fmod`, which nothing proves (docs/DECISIONS.md,
// 'Folds').
ghost use Rattle.std.specs.Prelude.{◌≡◌, false, cond, ◌≤◌};
ghost use Rattle.std.specs.Float.{binary64};
ghost use Rattle.std.specs.Float.Ieee.{sub, rem, lt, le};
ghost use Rattle.laws.specs.Units.{units_of};
ghost use Rattle.math.specs.Remainder.{zero, full_turn, Left, Rest};

// A full turn, in degrees.
pub const FULL_TURN: f64 = 360.0;

// Two full turns, and the most of which the number is a power of two: 2^1015.
const TWO_TURNS: f64 = 720.0;

const MOST_TURNS: f64 = 1.2640029854500659e308;

// What is left of a number when another that is not more is taken away.
fn less(rest: f64, turn: f64) -> f64
    ensures { result ≡ cond (le turn rest) (sub binary64 rest turn) rest }
{
    if turn <= rest { rest - turn } else { rest }
}

// The remainder by a full turn, of a number below two times `turn`, which is 2^(left - 1) full
// turns: they are taken away where there are so many, then half as many, and so on to one. No
// difference is rounded.
fn reduced(a: f64, turn: f64, left: u64) -> f64
    requires { Left (units_of a) a turn left × (left ≤ 1016) }
    ensures { Rest (units_of a) result }
{
    let mut rest = a;
    let mut part = turn;
    for _ in 0..left {
        rest = less(rest, part);
        part = part * 0.5;
    }
    rest
}

// The remainder by a full turn of a number that is not negative, and NaN of what is not finite.
fn remainder_of_positive(a: f64) -> f64
    requires { lt a zero ≡ false }
    ensures { result ≡ rem binary64 a full_turn }
{
    if a < FULL_TURN {
        return a;
    }
    if a < TWO_TURNS {
        return reduced(a, FULL_TURN, 1);
    }
    if crate::is_finite(a) {
        return reduced(a, MOST_TURNS, 1016);
    }
    f64::NAN
}

// The remainder by a full turn, with the sign of the number; NaN of what is not finite.
pub fn remainder(x: f64) -> f64
    ensures { result ≡ rem binary64 x full_turn }
{
    if x < 0.0 {
        return -remainder_of_positive(-x);
    }
    remainder_of_positive(x)
}
