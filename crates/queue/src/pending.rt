// Writes that wait.
use descriptor::kinds::Sector;

// A write that waits.
#[derive(Clone, Copy)]
pub struct Pending {
    pub sector: u32,
    pub bytes: Sector,
}

// What a queue is made over, handed back: the landed bytes, and the slots.
#[derive(Drop)]
pub struct Parts {
    pub bytes: Vec<u8>,
    pub slots: Vec<Pending>,
}
