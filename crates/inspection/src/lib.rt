// What a sector of an image is, whatever its place: found and counted.
#![tactic(auto)]

pub mod finding;
pub mod summary;
