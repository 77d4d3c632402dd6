// What the command line tool does.
#![tactic(auto)]

pub mod command;
pub mod demonstration;
