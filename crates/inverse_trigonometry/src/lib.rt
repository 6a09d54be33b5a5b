// Arcsine and arctangent of f64s, and the search of the grid that finds them.
#![tactic(auto)]

pub mod arcsine;
pub mod arctangent;
pub mod bisection;
mod guess;
