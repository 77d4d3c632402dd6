// A pile of layers over a queue, shown at work.
#![tactic(auto)]

pub mod fault;
pub mod show;
