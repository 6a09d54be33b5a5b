// Replays the Rust's answers. Each record of standard input is three little-endian words: the
// function's number, x and y, floats as bit patterns. For each the program writes the answer, as
// sixteen hexadecimal digits on a line; the file `stdout` has what the Rust answers. How the
// records are made is said in docs/COMPARISON.md.
#![tactic(auto)]

use elementary::error::Refusal;
use math::duration::{Duration, TimeError};
use replay::{Replayed, float, low_half, word};
use std::io;
use std::num::{f64_from_bits_with_nan, f64_to_bits_with_nan};

// The bit pattern of a float, one and the same for every NaN.
fn pattern(x: f64) -> u64 {
    f64_to_bits_with_nan(x)
}

fn pattern_in(r: Result<f64, Refusal>) -> u64 {
    r.map_or_else(|why| why.number() as u64, pattern)
}

// A part of a time, or what stands for the error.
fn part_in(part: Result<u64, TimeError>) -> u64 {
    match part {
        Ok(part) => part,
        Err(TimeError::TooLong) => u64::MAX,
        Err(TimeError::NoTime) => u64::MAX - 1,
    }
}

fn duration(secs: u64, nanos: u64) -> Duration {
    Duration {
        secs,
        nanos: low_half(nanos),
    }
}

// The functions on floats whose answer is a float, by the record's numbers. A `match`, and no table
// of functions: some take one float and some two, so that a table would hold a closure around each
// of the first.
fn number(which: u64, x: f64, y: f64) -> f64 {
    match which {
        0 => roots::sqrt(x),
        1 => roots::hypot(x, y),
        2 => math::abs(x),
        3 => math::copysign(x, y),
        4 => math::rounding::trunc(x),
        5 => math::rounding::round(x),
        6 => math::rounding::ceil(x),
        7 => math::to_radians(x),
        8 => math::to_degrees(x),
        9 => math::angle::wrap360(x),
        10 => math::angle::wrap180(x),
        11 => math::angle::reciprocal(x),
        12 => math::angle::from_degrees_wrapped(x),
        13 => trigonometry::sin(x),
        14 => trigonometry::cos(x),
        15 => inverse_trigonometry::arctangent::asin(x),
        _ => inverse_trigonometry::arctangent::atan2(x, y),
    }
}

// The others, by the record's numbers too.
fn other(which: u64, a: u64, b: u64) -> u64 {
    let x = f64_from_bits_with_nan(a);
    let y = f64_from_bits_with_nan(b);
    match which {
        20 => u64::from(math::rounding::is_integral(x)),
        21 => u64::from(math::is_effectively_zero(x, y)),
        22 => pattern(math::rounding::round_to_i32(x) as f64),
        23 => math::to_usize(x) as u64,
        24 => pattern(math::count_to_f64(a as usize)),
        25 => u64::from(elementary::error::ensure_range(x, 0.0, y)),
        26 => pattern_in(elementary::checked::hypot(x, y)),
        27 => part_in(math::duration::duration_from_secs(x).map(|d| d.secs)),
        28 => part_in(math::duration::duration_from_secs(x).map(|d| d.nanos as u64)),
        29 => part_in(math::duration::duration_from_hours(x).map(|d| d.secs)),
        30 => part_in(math::duration::duration_from_hours(x).map(|d| d.nanos as u64)),
        31 => pattern(duration(a, b).hours()),
        32 => u64::from(duration(a, 1).is_before(duration(b, 2))),
        33 => u64::from(duration(a, b).is_accepted()),
        34 => pattern_in(elementary::checked::sin(x)),
        35 => pattern_in(elementary::checked::cos(x)),
        36 => pattern_in(elementary::checked::asin(x)),
        37 => pattern_in(elementary::checked::atan2(x, y)),
        _ => u64::from(math::is_finite(x)),
    }
}

// Nothing is promised of what is answered but that it is answered: the Rust's own answers say what
// it is.
struct Elementary;

impl Replayed for Elementary {
    ghost Answers = { λ _ _ _. Unit {0} };

    fn answer(&self, record: &[u8]) -> u64 {
        let which = word(record, 0);
        if which < 20 {
            return pattern(number(which, float(record, 1), float(record, 2)));
        }
        other(which, word(record, 1), word(record, 2))
    }
}

fn main(rt: HostRuntime) -> io::Result<()> {
    let mut room = [0u8; 24];
    replay::replay(&mut rt.stdin(), &mut rt.stdout(), &mut room, &Elementary)
}
