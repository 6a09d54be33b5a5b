// The widths that COLREGs leave to convention.
use motion::units::Angle;

// How far abaft the beam overtaking begins, and how far off the bow a vessel still meets head-on.
#[derive(Clone, Copy)]
pub struct ColregsConfig {
    pub overtaking_abaft_beam: Angle,
    pub head_on_half_width: Angle,
}

impl ColregsConfig {
    // Rule 13(b)'s 22.5 degrees, and 6 degrees for Rule 14.
    pub const STANDARD: ColregsConfig = ColregsConfig {
        overtaking_abaft_beam: Angle(22.5),
        head_on_half_width: Angle(6.0),
    };
}
