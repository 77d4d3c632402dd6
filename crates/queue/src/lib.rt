// The queue device: sectors in bytes of the caller, with writes that wait in slots of the caller.
#![tactic(auto)]

mod landing;
pub mod pending;
pub mod queue;
mod waiting;
