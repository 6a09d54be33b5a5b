// assessment.rs: limits, risk, the assessment of one contact, the collision picture.
#![tactic(auto)]

pub mod assess;
pub mod picture;
pub mod policy;
pub mod risk;
pub mod target;
