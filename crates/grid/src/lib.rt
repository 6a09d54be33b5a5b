// Arcsine and arctangent in whole numbers, on a grid of angles: the definitions, and what is proved
// of them. There is no code.
#![tactic(auto)]
