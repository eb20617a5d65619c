// One step on words: whose turn it is, what the node becomes, and the next term.

#![tactic(auto)]

pub mod steps;
pub mod turns;
