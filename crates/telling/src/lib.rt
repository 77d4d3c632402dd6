// Calls of any device, each told in a line.
#![tactic(auto)]

pub mod calls;
pub mod script;
