// C exports of the leaves and of the six functions, for the comparison with the Rust.
#![tactic(auto)]

pub mod leaves;
pub mod six;
pub mod times;
