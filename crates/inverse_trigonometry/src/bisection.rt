// Arcsine and arctangent by whole numbers: angles in steps of 2^-49, sines and cosines in units of
// 2^-58.
//
// Each is the last step of a grid up to a quarter pi that passes a test. The tests are those of the
// three types of the trait `Goal`; one search serves them all. It starts from a guess in f64
// operations, on which nothing rests but the speed: a step that `settled` accepts is the one that
// the definition names, whatever the guess was, and where it accepts none the grid is halved.
ghost use Rattle.std.specs.Prelude.{◌≡◌, Bool, true, Some, None, T, ℕ, ◌*◌, ◌/◌, ◌^◌, ◌≤◌, ◌<◌};
ghost use Rattle.grid.specs.Search.{up_to, greatest_to, Found};
ghost use Rattle.grid.specs.Grid.{last_step, sine_step, cosine_step};
ghost use Rattle.grid.specs.Arcsine.{rest_step, at_most, fits_in, scale, upper_steps, arcsine_units};
ghost use Rattle.grid.specs.Arctangent.{not_above, arctangent_steps};
ghost use Rattle.inverse_trigonometry.specs.Goal as Goal;

use trigonometry::taylor::ONE;

// The grid's last step, a quarter pi, and its sine in units.
const LAST: u64 = HALF_PI / 16;

const SINE_OF_LAST: u64 = 203809653520824534;

// What a slope of one rises in a step, in units, is ONE / STEP: 2^49.
const STEP: u64 = 562949953421312;

// Half pi in steps of 2^-52.
pub const HALF_PI: u64 = 7074237752028440;

// What is searched for: the last step of the grid that passes a test.
trait Goal: Copy {
    ghost test: { Self → ℕ → Bool };

    // The test, once it fails, fails from there on.
    ghost Steady: { Self → Type 0 };

    // A step to begin from: any will do.
    fn guess(self) -> u64;

    // Whether a step passes.
    fn holds(self, a: u64) -> bool
        requires { a ≤ last_step }
        ensures { result ≡ test self a };

    // Whether a step is the last that passes, as far as its own value and the slope there tell: of
    // a step that passes, these can be too near to tell.
    fn told(self, a: u64) -> Option<bool>
        requires { a < last_step }
        ensures found { result ≡ Some true → Found last_step (test self) a }
        ensures passes { result ≡ None → T (test self a) };

    // The check of one step: what is told, or, where that is nothing, by the next step.
    fn settled(self, a: u64) -> bool
        requires { a < last_step }
        ensures { result ≡ true → Found last_step (test self) a }
    {
        self.told(a).unwrap_or_else(|| !self.holds(a + 1))
    }

    // A step that is found is the one that the definition names, and the definition names one.
    ghost only: { (g : Self) → Steady g → (A : ℕ) → Found last_step (test g) A → A ≡ greatest_to 49 last_step (test g) };

    ghost named: { (g : Self) → Steady g → Found last_step (test g) (greatest_to 49 last_step (test g)) };
}

// The sine is at most x units.
#[derive(Clone, Copy)]
pub(crate) struct AtMost {
    pub(crate) x: u64,
    ghost small: { x ≤ 2 ^ 58 },
}

// The angle, over f, has a cosine that is at most e units below one.
#[derive(Clone, Copy)]
pub(crate) struct FitsIn {
    pub(crate) e: u64,
    pub(crate) f: u64,
    ghost below_one: { e ≤ 2 ^ 58 },
    ghost positive: { 0 < f },
    ghost few: { f ≤ 2 ^ 28 },
    ghost enough: { 2 ^ 54 ≤ e * (f * f) },
    ghost most: { e * (f * f) ≤ 2 ^ 58 },
}

// u times the sine is at most w times the cosine.
#[derive(Clone, Copy)]
pub(crate) struct NotAbove {
    pub(crate) u: u64,
    pub(crate) w: u64,
    ghost small_u: { u ≤ 2 ^ 58 },
    ghost small_w: { w ≤ 2 ^ 58 },
}

// ---- the sine, the cosine and the scaled rest at a step
// A step stays a plain number, and `a ≤ last_step` a clause: the search adds and halves, and each
// sum would be made a step anew.
fn sine_at(a: u64) -> u64
    requires { a ≤ last_step }
    ensures { (result ≡ sine_step a) × (result ≤ 2 ^ 58) }
{
    trigonometry::taylor::sine(512 * a)
}

fn cosine_at(a: u64) -> u64
    requires { a ≤ last_step }
    ensures { (result ≡ cosine_step a) × (result ≤ 2 ^ 58) }
{
    trigonometry::taylor::cosine(512 * a)
}

impl FitsIn {
    // Twice e * f^2, which the scaled rest is held against.
    fn twice(self) -> u64
        ensures { (result ≡ 2 * (self.e * (self.f * self.f))) × (result ≤ 2 ^ 59) }
    {
        2 * (self.e * (self.f * self.f))
    }

    fn rest_at(self, a: u64) -> u64
        requires { a ≤ last_step }
        ensures { (result ≡ rest_step self.f a) × (result ≤ 2 ^ 58) }
    {
        let z = trigonometry::taylor::product(512 * a, 512 * a);
        trigonometry::taylor::product(
            z,
            trigonometry::taylor::cosine_series(z / (self.f * self.f)),
        )
    }
}

impl Goal for AtMost {
    ghost test = { λ g. at_most g.x };

    ghost Steady = { λ _. Unit {0} };

    fn guess(self) -> u64 {
        crate::guess::sine(self)
    }

    fn holds(self, a: u64) -> bool {
        sine_at(a) <= self.x
    }

    fn told(self, a: u64) -> Option<bool> {
        let AtMost { x } = self;
        let r = 512 * a;
        let z = trigonometry::taylor::product(r, r);
        let s = trigonometry::taylor::product(r, trigonometry::taylor::sine_series(z));
        if x < s {
            return Some(false);
        }
        (x - s + 10 <= (ONE - z / 2) / STEP).then_some(true)
    }

    ghost only = { λ g _ A r. Goal.at_most_only g.x A r };

    ghost named = { λ g _. Goal.at_most_named g.x };
}

impl Goal for FitsIn {
    ghost test = { λ g. fits_in g.e g.f };

    ghost Steady = { λ _. Unit {0} };

    fn guess(self) -> u64 {
        crate::guess::rest(self)
    }

    fn holds(self, a: u64) -> bool {
        self.rest_at(a) <= self.twice()
    }

    fn told(self, a: u64) -> Option<bool> {
        let twice = self.twice();
        let r = 512 * a;
        let z = trigonometry::taylor::product(r, r);
        let y = z / (self.f * self.f);
        let t = trigonometry::taylor::product(z, trigonometry::taylor::cosine_series(y));
        if twice < t {
            return Some(false);
        }
        (twice + 9 <= t + trigonometry::taylor::product(r, ONE - y / 6) / (STEP / 2)).then_some(
            true,
        )
    }

    ghost only = { λ g _ A r. Goal.fits_in_only g.e g.f g.positive g.enough A r };

    ghost named = { λ g _. Goal.fits_in_named g.e g.f g.enough };
}

impl Goal for NotAbove {
    ghost test = { λ g. not_above g.u g.w };

    ghost Steady = { λ g. (2 ^ 57 ≤ g.u) × (g.w ≤ g.u) };

    fn guess(self) -> u64 {
        crate::guess::tangent(self)
    }

    fn holds(self, a: u64) -> bool {
        trigonometry::taylor::product(self.u, sine_at(a))
            <= trigonometry::taylor::product(self.w, cosine_at(a))
    }

    fn told(self, a: u64) -> Option<bool> {
        let NotAbove { u, w } = self;
        let r = 512 * a;
        let z = trigonometry::taylor::product(r, r);
        let s = trigonometry::taylor::product(r, trigonometry::taylor::sine_series(z));
        let c = ONE - trigonometry::taylor::product(z, trigonometry::taylor::cosine_series(z)) / 2;
        let g = trigonometry::taylor::product(u, s);
        let h = trigonometry::taylor::product(w, c);
        if h < g {
            return Some(false);
        }
        let slope = trigonometry::taylor::product(u, ONE - z / 2)
            + trigonometry::taylor::product(w, r - r / 6);
        (h + 17 <= g + slope / STEP).then_some(true)
    }

    ghost only = { λ g h A r. Goal.not_above_only g.u g.w h.0 h.1 A r };

    ghost named = { λ g _. Goal.not_above_named g.u g.w };
}

// ---- the search by halves
#[tactic(auto, unfolding(grid::specs::Search::up_to))]
fn passes<G: Goal>(goal: G, a: u64) -> bool
    ensures { result ≡ up_to last_step (G.test goal) a }
{
    a <= LAST && goal.holds(a)
}

fn by_halves<G: Goal>(goal: G) -> u64
    ensures { result ≡ greatest_to 49 last_step (G.test goal) }
{
    let mut low: u64 = 0;
    let mut half: u64 = STEP;
    for _ in 0..49u64 {
        half = half / 2;
        if passes(goal, low + half) {
            low += half;
        }
    }
    low
}

// ---- the search from a guess
fn search<G: Goal>(goal: G) -> u64
    requires { G.Steady goal }
    ensures { (result ≡ greatest_to 49 last_step (G.test goal)) × (result ≤ last_step) }
{
    let guess = goal.guess();
    // A guess of the grid's last step, as on a diagonal, has that one tried alone.
    if guess < LAST {
        for a in [guess, guess.wrapping_add(1), guess.wrapping_sub(1)] {
            if a < LAST && goal.settled(a) {
                return a;
            }
        }
    }
    if passes(goal, LAST) {
        return LAST;
    }
    by_halves(goal)
}

// ---- the arcsine
// The scale of a rest of e units: the least power of two f with e * f^2 at least 2^54. Such a
// product has at most 9 leading zeros, and each doubling of f makes them two fewer.
#[tactic(auto, using(grid::proofs::Scaling::scale_shifted))]
fn scale_of(e: u64) -> u64
    requires { (0 < e) × (e ≤ 2 ^ 58) }
    ensures { result ≡ scale e }
{
    1 << (e.leading_zeros().saturating_sub(8) / 2)
}

// The angle that is left to half pi where the sine is e units below one, in steps of 2^-52.
fn rest(e: u64) -> u64
    requires { (0 < e) × (e ≤ 2 ^ 58) }
    ensures { (result ≡ 8 * upper_steps e (scale e) / scale e) × (result ≤ 8 * last_step) }
{
    let f = scale_of(e);
    8 * search(FitsIn { e, f }) / f
}

// The arcsine of x units, in steps of 2^-52.
pub(crate) fn arcsine(x: u64) -> u64
    ensures { (result ≡ arcsine_units x) × (result < 2 ^ 53) }
{
    if x < SINE_OF_LAST {
        return 8 * search(AtMost { x });
    }
    if x < ONE {
        return HALF_PI - rest(ONE - x);
    }
    HALF_PI
}

// ---- the arctangent
// The arctangent of w / u in steps of 2^-49, up to the last of the grid; 0 where u or w is above
// one.
#[tactic(auto, unfolding(grid::specs::Arctangent::arctangent_steps), using(crate::specs::Goal::not_above_named))]
pub(crate) fn arctangent(u: u64, w: u64) -> u64
    ensures { (u ≤ 2 ^ 58 → w ≤ 2 ^ 58 → result ≡ arctangent_steps u w) × (2 ^ 58 < u → result ≡ 0) × (2 ^ 58 < w → result ≡ 0) × (result ≤ last_step) }
{
    if ONE < u || ONE < w {
        return 0;
    }
    let goal = NotAbove { u, w };
    if u < ONE / 2 || u < w {
        return by_halves(goal);
    }
    search(goal)
}
