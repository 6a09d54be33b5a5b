// Quantities with their units, so that a figure in knots never stands for one in nautical miles.

// Nautical miles.
#[derive(Clone, Copy, Default)]
pub struct Distance(pub f64);

// Knots.
#[derive(Clone, Copy, Default)]
pub struct Speed(pub f64);

// Degrees, of a turn or a difference of directions.
#[derive(Clone, Copy)]
pub struct Angle(pub f64);

// A true course, heading or bearing: degrees clockwise from north.
#[derive(Clone, Copy, Default)]
pub struct Direction(pub f64);

// A bearing from own bow: degrees clockwise.
#[derive(Clone, Copy)]
pub struct RelativeBearing(pub f64);

// Degrees per minute: a rate of turn, or the drift of a bearing.
#[derive(Clone, Copy, Default)]
pub struct RateOfTurn(pub f64);
