// A queue: sectors in bytes of the caller, and slots of the caller in which writes wait.
ghost use Rattle.std.specs.Prelude.{◌≡◌, ◌^◌, ◌<◌, true};
ghost use Rattle.std.specs.List.{list_all};
ghost use Rattle.media.specs.Landed.{count_of};
ghost use Rattle.queue.specs.Slots.{writes_in};
ghost use Rattle.queue.specs.Waiting.{well_formed};

pub mod calls;

use crate::waiting::Waiting;
use media::store::Store;

// The bytes that have landed, the writes that wait, and how many writes and settles were accepted, modulo 2^64. What holds of
// them is in ghost fields, and no model hides it: the law of a device is proved from it.
#[derive(Drop)]
pub struct Queue {
    store: Store,
    waiting: Waiting,
    tally: u64,
    ghost each: { list_all (well_formed (count_of store)) (writes_in waiting) ≡ true },
    ghost counts: { tally < 2 ^ 64 },
}
