// Pairs of offset and length: runs of sectors of the device below a layer.
#![tactic(auto)]

pub mod calls;
pub mod fault;
pub mod pair;
pub mod search;
pub mod table;
pub mod words;
