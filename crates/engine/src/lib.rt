// The engine: a file is read, checked and run to an end.

#![tactic(auto)]

pub mod buffers;
pub mod reductions;
pub mod runs;
