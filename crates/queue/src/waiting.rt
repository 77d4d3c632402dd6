// The slots of the caller in which writes wait.
ghost use Rattle.std.specs.Prelude.{◌≡◌, ◌≤◌, [], vec_len};
ghost use Rattle.std.specs.Option.{option_copied};
ghost use Rattle.queue.specs.Waiting.{newest, pushed};

use crate::pending::Pending;
use descriptor::kinds::Sector;
use std::mem;

// The first `count` slots hold the writes that wait, the oldest first; what the others hold does not matter. A count stands
// beside the `Vec` because the slots are the caller's memory, and a `Vec` that grows may ask for more.
#[derive(Drop)]
pub(crate) struct Waiting {
    pub(crate) slots: Vec<Pending>,
    pub(crate) count: usize,
    ghost within: { count ≤ vec_len slots },
}

impl Waiting {
    ghost use Rattle.queue.specs.Slots.{slots_in, writes_in};

    // No write waits.
    pub(crate) fn none(slots: Vec<Pending>) -> Waiting
        ensures slots { result.slots.items ≡ slots.items }
        ensures writes { writes_in result ≡ [] }
    {
        Waiting { slots, count: 0 }
    }

    // The writes that wait, the oldest first.
    pub(crate) fn writes(&self) -> &[Pending]
        ensures { result.now ≡ writes_in self.now }
    {
        &self.slots[..self.count]
    }

    // The bytes of the newest of them to a sector.
    pub(crate) fn newest(&self, sector: u32) -> Option<&Sector>
        ensures { option_copied result ≡ newest sector (writes_in self.now) }
    {
        self.writes()
            .iter()
            .rev()
            .find(|write| sector == write.sector)
            .map(|write| &write.bytes)
    }

    // Puts a new write behind the others. Where no slot is free, the oldest of all comes out.
    pub(crate) fn push(&mut self, new: Pending) -> Option<Pending>
        ensures state { (result, writes_in self.new) ≡ pushed (slots_in self.old) new (writes_in self.old) }
        ensures slots { slots_in self.new ≡ slots_in self.old }
    {
        if self.count < self.slots.len() {
            self.slots[self.count] = new;
            self.count += 1;
            return None;
        }
        if self.slots.is_empty() {
            return Some(new);
        }
        let oldest = mem::replace(&mut self.slots[0], new);
        self.slots.rotate_left(1);
        Some(oldest)
    }

    // Leaves no write waiting.
    pub(crate) fn clear(&mut self)
        ensures writes { writes_in self.new ≡ [] }
        ensures slots { self.new.slots.items ≡ self.old.slots.items }
    {
        self.count = 0;
    }
}
