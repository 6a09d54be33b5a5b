// Laws on floats, fractions and lists, for the crates above: definitions in specs/, laws in
// proofs/. There is no code.
#![tactic(auto)]
