// C exports of the conversions of times, for the comparison with Rust. Each passes its arguments
// on, and its contract is that of the function that it exports.
ghost use Rattle.std.specs.Prelude.{◌≡◌};
ghost use Rattle.math.specs.Clock as Clock;
ghost use Rattle.exports_leaves.specs.Time.{kind_of, secs_of, nanos_of};

use math::duration::{Duration, TimeError};

// The kind of a time answer: 0 for a time, 1 for too long, 2 for none; and its seconds and
// nanoseconds. The kind is the C interface's code of a `Result`, which has no number of its own.
fn kind_in(t: Result<Duration, TimeError>) -> u32
    ensures { result ≡ kind_of t }
{
    match t {
        Ok(_) => 0,
        Err(TimeError::TooLong) => 1,
        Err(TimeError::NoTime) => 2,
    }
}

fn secs_in(t: Result<Duration, TimeError>) -> u64
    ensures { result ≡ secs_of t }
{
    t.map_or(0, |d| d.secs)
}

fn nanos_in(t: Result<Duration, TimeError>) -> u32
    ensures { result ≡ nanos_of t }
{
    t.map_or(0, |d| d.nanos)
}

#[unsafe(no_mangle)]
pub extern "C" fn port_time_kind(seconds: f64) -> u32
    ensures { result ≡ kind_of (Clock.from_seconds seconds) }
{
    kind_in(math::duration::duration_from_secs(seconds))
}

#[unsafe(no_mangle)]
pub extern "C" fn port_time_secs(seconds: f64) -> u64
    ensures { result ≡ secs_of (Clock.from_seconds seconds) }
{
    secs_in(math::duration::duration_from_secs(seconds))
}

#[unsafe(no_mangle)]
pub extern "C" fn port_time_nanos(seconds: f64) -> u32
    ensures { result ≡ nanos_of (Clock.from_seconds seconds) }
{
    nanos_in(math::duration::duration_from_secs(seconds))
}

#[unsafe(no_mangle)]
pub extern "C" fn port_hours_secs(hours: f64) -> u64
    ensures { result ≡ secs_of (Clock.from_hours hours) }
{
    secs_in(math::duration::duration_from_hours(hours))
}

#[unsafe(no_mangle)]
pub extern "C" fn port_hours_nanos(hours: f64) -> u32
    ensures { result ≡ nanos_of (Clock.from_hours hours) }
{
    nanos_in(math::duration::duration_from_hours(hours))
}

#[unsafe(no_mangle)]
pub extern "C" fn port_hours(secs: u64, nanos: u32) -> f64
    ensures { result ≡ Clock.hours_of (record { secs = secs; nanos = nanos }) }
{
    let d = Duration { secs, nanos };
    d.hours()
}

#[unsafe(no_mangle)]
pub extern "C" fn port_is_before(secs: u64, nanos: u32, other_secs: u64, other_nanos: u32) -> bool
    ensures { result ≡ Clock.is_before (record { secs = secs; nanos = nanos }) (record { secs = other_secs; nanos = other_nanos }) }
{
    let d = Duration { secs, nanos };
    let other = Duration {
        secs: other_secs,
        nanos: other_nanos,
    };
    d.is_before(other)
}
