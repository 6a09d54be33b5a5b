// track.rs: the motion of a contact from its last plots (document 02, R-5).
#![tactic(auto)]

pub mod fit;
pub mod window;
