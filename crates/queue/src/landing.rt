// How waiting writes land.
ghost use Rattle.std.specs.Prelude.{◌≡◌};
ghost use Rattle.queue.specs.Waiting.{landing, all_landed};

use crate::pending::Pending;
use media::store::Store;

// Lands a write.
#[tactic(auto, unfolding(crate::specs::Waiting::landing))]
pub(crate) fn land(store: &mut Store, write: &Pending)
    ensures { store.new ≡ landing store.old write.now }
{
    let _ = store.put(write.sector, &write.bytes);
}

// Lands the writes, the oldest first. A `for`, since each of them changes the store.
pub(crate) fn land_all(store: &mut Store, writes: &[Pending])
    ensures { store.new ≡ all_landed store.old writes.now }
{
    for write in writes {
        land(store, write);
    }
}
