// Volume structure descriptors, of which the volume recognition sequence is made: read and written.
#![tactic(auto)]

pub mod structure;
pub mod written;
