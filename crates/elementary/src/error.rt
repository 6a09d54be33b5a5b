// Refusals and the range check.
ghost use Rattle.std.specs.Prelude.{◌≡◌};
ghost use Rattle.elementary.specs.Refusal.{number_of};
ghost use Rattle.elementary.specs.Range.{in_range};

// Why a function refuses. A refusal is its number in document 01's table and nothing else.
#[derive(Clone, Copy)]
pub enum Refusal {
    // A course, heading, bearing or wind outside 0 to 360, another angle not finite, or an
    // elementary function outside its domain.
    Angle = 1,
    // A speed not in 0 to 1,000 knots.
    Speed = 2,
    // A distance not in 0 to 10,000 nautical miles.
    Distance = 3,
    // A least or most alteration out of range, or a turn rate that is refused.
    Constraints = 4,
    // No trial clears.
    NoTrialClears = 5,
    // No time between two plots, or a time handed in above 2^53 s or with 10^9 nanoseconds or more.
    Time = 6,
    // The contact moves along own track.
    AlongOwnTrack = 7,
    // The crossing is not ahead.
    NotAhead = 8,
    // The range is at most the desired distance.
    InsideDesired = 9,
    // Own speed is 0.
    NoOwnSpeed = 10,
    // No course but the present one at that speed.
    NoOtherCourse = 11,
    // A config width not in 0 to 90.
    Config = 12,
    // No side is permitted by all rulings.
    NoSharedSide = 13,
    // More contacts than the limit.
    TooManyContacts = 14,
    // The sheet's layout is wrong.
    Layout = 15,
    // An unknown code on a sheet.
    UnknownCode = 16,
    // Fewer than two plots in the window at a fit.
    TooFewPlots = 17,
    // A plot with a time below 0, above 2^31 - 1 s or not later than the newest that is kept.
    PlotTime = 18,
}

impl Refusal {
    // The number in document 01's table, 1 to 18.
    pub fn number(self) -> u8
        ensures { result ≡ number_of self }
    {
        self as u8
    }
}

// Whether a value lies from `low` to `high`, both ends included. A NaN does not.
#[tactic(auto, unfolding(crate::specs::Range::in_range))]
pub fn ensure_range(value: f64, low: f64, high: f64) -> bool
    ensures { result ≡ in_range low high value }
{
    low <= value && value <= high
}
