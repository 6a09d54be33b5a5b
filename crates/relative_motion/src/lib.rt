// relative_motion.rs: the closest point of approach, bow crossing, plots, the course for a closest
// approach.
#![tactic(auto)]

pub mod approach;
pub mod best_course;
pub mod bow_crossing;
pub mod course;
pub mod plot;
