// The calls of a queue.
ghost use Rattle.std.specs.Prelude.{◌≡◌, [], length};
ghost use Rattle.device.specs.Calls.{permitted, AfterWrite, settled};
ghost use Rattle.device.specs.Cuts.{Cut};
ghost use Rattle.queue.specs.Laws.{QueueLaws};
ghost use Rattle.queue.specs.Views.{landed_bytes, waiting_list, slots_of, model_of};
ghost use Rattle.queue.specs.Waiting.{queue_model, queue_origins, waits_for, after_write, all_landed};
ghost use Rattle.media.specs.Landed.{count_of};
ghost use Rattle.queue.specs.Queues.{each_decides, queue_sound};

use crate::landing::{land, land_all};
use crate::pending::{Parts, Pending};
use crate::queue::Queue;
use crate::waiting::Waiting;
use descriptor::kinds::Sector;
use device::fault::{DeviceFault, Layer};
use device::interface::Device;
use media::refusal::off_device;
use media::store::Store;

impl Queue {
    // A queue over bytes and slots of the caller, of any number: nothing waits, and the tally begins at 0.
    pub fn over(bytes: Vec<u8>, slots: Vec<Pending>) -> Queue
        ensures bytes { landed_bytes result ≡ bytes.items }
        ensures waiting { waiting_list result ≡ [] }
        ensures slots { result.waiting.slots.items ≡ slots.items }
        ensures model { model_of result ≡ queue_model bytes.items [] 0 }
    {
        Queue {
            store: Store::over(bytes),
            waiting: Waiting::none(slots),
            tally: 0,
        }
    }

    // The landed bytes and the slots, handed back; what waits is lost, unless it is settled first. So a queue that is made
    // anew over the bytes is one that a power cut may leave.
    pub fn into_parts(self) -> Parts
        ensures bytes { result.bytes.items ≡ landed_bytes self }
        ensures slots { result.slots.items ≡ self.waiting.slots.items }
        ensures cut { Cut (model_of self) (queue_model result.bytes.items [] 0) }
        ensures laws { QueueLaws }
    {
        let Queue {
            store,
            waiting,
            tally: _,
        } = self;
        Parts {
            bytes: store.into_bytes(),
            slots: waiting.slots,
        }
    }

    // How many writes wait.
    pub fn waiting(&self) -> usize
        ensures { result ≡ length (waiting_list self.now) }
    {
        self.waiting.writes().len()
    }

    // Whether a write to the sector waits.
    pub fn waits(&self, sector: u32) -> bool
        ensures { result ≡ waits_for sector (waiting_list self.now) }
    {
        self.waiting
            .writes()
            .iter()
            .any(|write| sector == write.sector)
    }
}

// Its answers are a line each, as those of an image, and for the same reason.
impl Device for Queue {
    ghost model = { model_of };

    ghost origins = { λ _. queue_origins };

    ghost sound = { λ d. queue_sound (landed_bytes d) (waiting_list d) d.tally ((each_decides (count_of (landed_bytes d)) (waiting_list d)).0 d.each) d.counts };

    fn count(&self) -> u32 {
        self.store.count()
    }

    fn tally(&self) -> u64 {
        self.tally
    }

    fn takes_writes(&self, sector: u32) -> bool {
        sector < self.store.count()
    }

    fn read(&self, sector: u32, area: &mut Sector) -> Result<(), DeviceFault> {
        let landed = self
            .store
            .get(sector)
            .ok_or(off_device(Layer::Queue, sector))?;
        *area = *self.waiting.newest(sector).unwrap_or(landed);
        Ok(())
    }

    fn write(&mut self, sector: u32, bytes: &Sector) -> Result<(), DeviceFault>
        ensures answer { result ≡ permitted (model_of self.old) queue_origins sector }
        ensures after { AfterWrite (model_of self.old) sector bytes.now (model_of self.new) result }
        ensures origin { queue_origins ≡ queue_origins }
        ensures state { (landed_bytes self.new, waiting_list self.new) ≡ after_write result (slots_of self.old) (record { sector = sector; bytes = bytes.now }) (landed_bytes self.old) (waiting_list self.old) }
        ensures slots { slots_of self.new ≡ slots_of self.old }
    {
        if sector >= self.store.count() {
            return Err(off_device(Layer::Queue, sector));
        }
        let new = Pending {
            sector,
            bytes: *bytes,
        };
        if let Some(oldest) = self.waiting.push(new) {
            land(&mut self.store, &oldest);
        }
        self.tally = self.tally.wrapping_add(1);
        Ok(())
    }

    fn settle(&mut self)
        ensures after { model_of self.new ≡ settled (model_of self.old) }
        ensures origin { queue_origins ≡ queue_origins }
        ensures lands { landed_bytes self.new ≡ all_landed (landed_bytes self.old) (waiting_list self.old) }
        ensures empties { waiting_list self.new ≡ [] }
        ensures slots { slots_of self.new ≡ slots_of self.old }
    {
        land_all(&mut self.store, self.waiting.writes());
        self.waiting.clear();
        self.tally = self.tally.wrapping_add(1);
    }
}
