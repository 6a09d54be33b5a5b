// COLREGs Rules 12 to 19, after rules.rs: the geometry of a situation, the encounter, who keeps out
// of the way, what is permitted.
#![tactic(auto)]

pub mod answer;
pub mod encounter;
pub mod geometry;
pub mod responsibility;
pub mod rules;
