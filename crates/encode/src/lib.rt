// The descriptors that are written, each under its tag.
#![tactic(auto)]

pub mod descriptors;
pub mod limits;
pub mod seal;
pub mod table_descriptors;
