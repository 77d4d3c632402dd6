// The tables of descriptors, row by row: read and written.
#![tactic(auto)]

pub mod rows;
