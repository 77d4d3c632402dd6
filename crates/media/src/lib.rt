// Sectors in bytes of the caller, and the image device over them.
#![tactic(auto)]

pub mod image;
pub mod refusal;
pub mod store;
