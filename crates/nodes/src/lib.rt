// Words and nodes: the table of kinds, the walk over the words of a node, the reader of nodes, and refusals 3, 4 and 5.

#![tactic(auto)]

pub mod alone;
pub mod kinds;
pub mod refusals;
pub mod scopes;
pub mod walks;
pub mod words;
