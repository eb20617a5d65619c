// The rules of the reduction at a node whose turn it is: which one fits, and what the node becomes, on words.

#![tactic(auto)]

pub mod choices;
