// The refusals, and the six elementary functions in refusing form.
#![tactic(auto)]

pub mod checked;
pub mod error;
