// The gather layer: a device whose sectors are those of some pairs of the device below, in order.
#![tactic(auto)]

pub mod gather;
