// A sector of 2,048 bytes as a volume descriptor: the four checks, and what each kind of descriptor holds.
#![tactic(auto)]

pub mod checks;
pub mod decode;
pub mod kinds;
pub mod refusal;
pub mod tag;
pub mod words;
