// Times: whole seconds with nanoseconds, and their conversions from and to f64 (document 01, the
// leaf helpers).
ghost use Rattle.std.specs.Prelude.{◌≡◌};
ghost use Rattle.math.specs.Clock.{from_seconds, from_hours, hours_of, is_before, is_accepted};

// A length of time. Fewer than 10^9 nanoseconds, in what the functions here answer; what is handed
// in may have more, as the library's `Duration` may not, and `is_accepted` tells.
#[derive(Clone, Copy, PartialEq, Eq, PartialOrd, Ord)]
pub struct Duration {
    pub secs: u64,
    pub nanos: u32,
}

// Why a number of seconds or hours is no time.
#[derive(Clone, Copy)]
pub enum TimeError {
    // 2^64 seconds and more, which no Duration holds.
    TooLong,
    // Below 0, or not a number.
    NoTime,
}

const NANOS_PER_SECOND: u32 = 1000000000;

// A number of seconds as a time, to the nearest nanosecond, ties to even.
#[tactic(auto, unfolding(crate::specs::Clock::from_seconds, crate::specs::Clock::clock, crate::specs::Clock::nanos_in))]
pub fn duration_from_secs(seconds: f64) -> Result<Duration, TimeError>
    ensures { result ≡ from_seconds seconds }
{
    if seconds >= 0.0 {
        if seconds < 18446744073709551616.0 {
            let d = std::time::Duration::from_secs_f64(seconds);
            return Ok(Duration {
                secs: d.as_secs(),
                nanos: d.subsec_nanos(),
            });
        }
        return Err(TimeError::TooLong);
    }
    Err(TimeError::NoTime)
}

// A number of hours as a time: times 3600, rounded once, and then as `duration_from_secs`.
pub fn duration_from_hours(hours: f64) -> Result<Duration, TimeError>
    ensures { result ≡ from_hours hours }
{
    duration_from_secs(hours * 3600.0)
}

impl Duration {
    // The longest there is.
    pub const MAX: Duration = Duration {
        secs: u64::MAX,
        nanos: NANOS_PER_SECOND - 1,
    };

    // The longest that is accepted: 2^53 s.
    const LONGEST: Duration = Duration {
        secs: 1 << 53,
        nanos: 0,
    };

    // The time in hours: the seconds plus the nanoseconds / 10^9, each as f64, then / 3600.
    pub fn hours(self) -> f64
        ensures { result ≡ hours_of self }
    {
        let secs = std::num::nearest_u64_to_f64(self.secs);
        let nanos = self.nanos as f64;
        (secs + nanos / 1e9) / 3600.0
    }

    // Whether this time is shorter than the other: by seconds first, then by nanoseconds. It is
    // `<`, under the name that document 01 and the C export have; the module's own code says `<`,
    // but for the replay of the Rust's answers.
    pub fn is_before(self, other: Duration) -> bool
        ensures { result ≡ is_before self other }
    {
        self < other
    }

    // Whether document 01 accepts this time where one is handed in: at most 2^53 s, with fewer than
    // 10^9 nanoseconds.
    #[tactic(auto, unfolding(crate::specs::Clock::is_accepted))]
    pub fn is_accepted(self) -> bool
        ensures { result ≡ is_accepted self }
    {
        self <= Duration::LONGEST && self.nanos < NANOS_PER_SECOND
    }
}
