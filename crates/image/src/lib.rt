// An image file gone through sector by sector.
#![tactic(auto)]

pub mod fault;
pub mod inspect;
