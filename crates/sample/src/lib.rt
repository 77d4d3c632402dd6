// A small volume, and ways in which its descriptors come to harm: for the demonstration and the tests.
#![tactic(auto)]

pub mod damage;
pub mod volume;
