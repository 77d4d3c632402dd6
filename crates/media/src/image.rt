// The image device: sectors in bytes of the caller. Every write lands at once, so that nothing waits for a settle.
ghost use Rattle.std.specs.Prelude.{◌≡◌, ◌^◌, ◌<◌, is_ok, if◌then◌else◌};
ghost use Rattle.device.specs.Calls.{permitted, AfterWrite, settled};
ghost use Rattle.media.specs.Landed.{stored, image_model, image_origins};
ghost use Rattle.media.specs.Images.{image_sound};

use crate::refusal::off_device;
use crate::store::Store;
use descriptor::kinds::Sector;
use device::fault::{DeviceFault, Layer};
use device::interface::Device;

// The sectors, and how many writes and settles were accepted, modulo 2^64. That the tally has 64 bits is a ghost field, and no
// model hides it: the law of a device is proved from it.
#[derive(Drop)]
pub struct Image {
    store: Store,
    tally: u64,
    ghost counts: { tally < 2 ^ 64 },
}

impl Image {
    // An image over bytes of the caller; its tally begins at 0.
    pub fn over(bytes: Vec<u8>) -> Image
        ensures bytes { result.store ≡ bytes.items }
        ensures model { image_model result.store result.tally ≡ image_model bytes.items 0 }
    {
        let store = Store::over(bytes);
        Image { store, tally: 0 }
    }

    // The bytes, handed back.
    pub fn into_bytes(self) -> Vec<u8>
        ensures { result.items ≡ self.store }
    {
        let Image { store, tally: _ } = self;
        store.into_bytes()
    }
}

// Each device answers what is asked in a line, from its own fields, here and in the queue: to share these lines, both would have
// to be one type with a store and a tally, and a trait for the rest.
impl Device for Image {
    ghost model = { λ d. image_model d.store d.tally };

    ghost origins = { λ _. image_origins };

    ghost sound = { λ d. image_sound d.store d.tally d.counts };

    fn count(&self) -> u32 {
        self.store.count()
    }

    fn tally(&self) -> u64 {
        self.tally
    }

    fn takes_writes(&self, sector: u32) -> bool {
        sector < self.store.count()
    }

    #[tactic(auto, unfolding(crate::specs::Landed::landed))]
    fn read(&self, sector: u32, area: &mut Sector) -> Result<(), DeviceFault> {
        let bytes = self
            .store
            .get(sector)
            .ok_or(off_device(Layer::Image, sector))?;
        *area = *bytes;
        Ok(())
    }

    fn write(&mut self, sector: u32, bytes: &Sector) -> Result<(), DeviceFault>
        ensures answer { result ≡ permitted (image_model self.old.store self.old.tally) image_origins sector }
        ensures after { AfterWrite (image_model self.old.store self.old.tally) sector bytes.now (image_model self.new.store self.new.tally) result }
        ensures origin { image_origins ≡ image_origins }
        ensures lands { self.new.store ≡ (if is_ok result then stored sector bytes.now self.old.store else self.old.store) }
    {
        self.store
            .put(sector, bytes)
            .ok_or(off_device(Layer::Image, sector))?;
        self.tally = self.tally.wrapping_add(1);
        Ok(())
    }

    fn settle(&mut self)
        ensures after { image_model self.new.store self.new.tally ≡ settled (image_model self.old.store self.old.tally) }
        ensures origin { image_origins ≡ image_origins }
        ensures lands { self.new.store ≡ self.old.store }
    {
        let calls = self.tally.wrapping_add(1);
        self.tally = calls;
    }
}
