// The meaning of a device, its calls and their faults, torn sectors, and what a power cut may leave.
#![tactic(auto)]

pub mod fault;
pub mod interface;
pub mod through;
pub mod torn;
pub mod words;
