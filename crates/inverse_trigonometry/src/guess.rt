// Guesses at the step that a search looks for, in f64 operations. They are the step or its
// neighbour for nearly every argument, and nothing rests on them but the speed: the search accepts
// no step that its checks do not settle. No other crate sees them: their outcome is free, and they
// promise nothing of it.
//
// The quotients of polynomials are the best of their degrees, in the angle's absolute error: about
// 10^-17 for the arctangent, 4 * 10^-17 for the arcsine up to a quarter pi, 9 * 10^-17 for the
// rest.
use crate::bisection::{AtMost, FitsIn, NotAbove};
use trigonometry::taylor::GRID;

// 2^-54.
const HALF_GRID: f64 = GRID / 2.0;

// An angle from 0 to 8 in steps of 2^-49, cut: half a step less than 8 is added, which leaves the
// steps in the low digits of a number from 8 to 16.
fn steps(angle: f64) -> u64 {
    let raised = angle + 7.999999999999999;
    if 8.0 <= raised && raised < 16.0 {
        return f64::to_bits(raised) & 0xf_ffff_ffff_ffff;
    }
    0
}

// c0 + c1 z + c2 z^2 + c3 z^3, by halves.
fn cubic(z: f64, c0: f64, c1: f64, c2: f64, c3: f64) -> f64 {
    c0 + z * c1 + z * z * (c2 + z * c3)
}

// The same to the fifth power.
fn quintic(z: f64, c0: f64, c1: f64, c2: f64, c3: f64, c4: f64, c5: f64) -> f64 {
    c0 + z * c1 + z * z * cubic(z, c2, c3, c4, c5)
}

// The arcsine of x units, up to a quarter pi.
pub(crate) fn sine(goal: AtMost) -> u64 {
    let s = (goal.x / 32) as f64 * GRID;
    let z = s * s;
    let p = quintic(
        z,
        0.16666666666668128,
        -0.40990006272188884,
        0.35363266584467695,
        -0.12412892294930378,
        0.014635229112271757,
        -0.00011772202943746516,
    );
    let q = quintic(
        z,
        1.0,
        -2.9094003763221554,
        3.1631690212601433,
        -1.5711875871604963,
        0.3436948225249337,
        -0.024713514592201866,
    );
    steps(s + s * z * p / q)
}

// The arctangent of w / u, for w up to u.
pub(crate) fn tangent(goal: NotAbove) -> u64 {
    let NotAbove { u, w } = goal;
    let t = (w / 32) as f64 / (u / 32) as f64;
    let z = t * t;
    let p = quintic(
        z,
        -0.3333333333333352,
        -0.7524031540665321,
        -0.5955147686250275,
        -0.1964223404784589,
        -0.02474234652952352,
        -0.0007954144872061348,
    );
    let q = quintic(
        z,
        1.0,
        2.85720946220002,
        3.072298554615619,
        1.5414611466405916,
        0.36208022862927797 + z * z * 0.000882389013292574,
        0.03463797417725223,
    );
    steps(t + t * z * p / q)
}

// A nearer inverse square root of v, from one that is y: the error goes with its third power.
fn nearer(v: f64, y: f64) -> f64 {
    let e = 1.0 - v * y * y;
    y + y * e * (0.5 + 0.375 * e)
}

// f times the angle whose cosine is e units below one, for e * f^2 from 2^54 to 0.293 * 2^58: twice
// the arcsine of the root of half that rest.
pub(crate) fn rest(goal: FitsIn) -> u64 {
    let FitsIn { e, f } = goal;
    let v = (e * (f * f) / 32) as f64 * HALF_GRID;
    let y = cubic(
        v,
        8.47378885688274,
        -117.33939607480798,
        885.7344868064172,
        -2451.7111501440813,
    );
    let s = v * nearer(v, nearer(v, y));
    let z = (e / 32) as f64 * HALF_GRID;
    let p = cubic(
        z,
        0.1666666666666974,
        -0.20458579317404232,
        0.057042981868634636,
        -0.0010393443159716,
    );
    let q = cubic(
        z,
        1.0,
        -1.6775147589924517,
        0.8292823863816705,
        -0.1123703942300072,
    );
    steps(2.0 * (s + s * z * p / q))
}
