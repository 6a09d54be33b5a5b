// Quantities with their units, vessels and contacts, the capacity for contacts, and the checks of
// arguments.
#![tactic(auto)]

pub mod argument;
pub mod capacity;
pub mod side;
pub mod units;
pub mod vessel;
