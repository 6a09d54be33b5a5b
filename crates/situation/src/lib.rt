// Two vessels that meet: what they are, where and how they move, in what visibility and wind.
#![tactic(auto)]

pub mod check;
pub mod code;
pub mod config;
pub mod party;
