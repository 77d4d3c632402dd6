// A layer: a device that is made of the device below and some pairs.
#![tactic(auto)]

pub mod kind;
pub mod layer;
