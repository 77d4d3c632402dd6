// The guard layer: a device that takes no writes inside some pairs.
#![tactic(auto)]

pub mod guard;
