// The interface of every device: a card's driver, an image, a layer over another device.
ghost use Rattle.std.specs.Prelude.{◌≡◌};
ghost use Rattle.device.specs.Model.{Model, Sound, takes_writes};
ghost use Rattle.device.specs.Faults.{Origins};
ghost use Rattle.device.specs.Calls.{reading, permitted, AfterWrite, settled};

use crate::fault::DeviceFault;
use descriptor::kinds::Sector;

pub trait Device {
    // what the device holds
    ghost model: { Self → Model };

    // where its refusals arise
    ghost origins: { Self → Origins };

    // How many sectors there are.
    fn count(&self) -> u32
        ensures { result ≡ (model self.now).count };

    // How many writes and settles were accepted, modulo 2^64.
    fn tally(&self) -> u64
        ensures { result ≡ (model self.now).tally };

    // Whether a sector takes writes.
    fn takes_writes(&self, sector: u32) -> bool
        ensures { result ≡ takes_writes (model self.now) sector };

    // Fills the area with what the sector holds.
    fn read(&self, sector: u32, area: &mut Sector) -> Result<(), DeviceFault>
        ensures { (result, area.new) ≡ reading (model self.now) (origins self.now) sector area.old };

    // Writes a sector; what is written may wait, and land in any order, until a settle.
    fn write(&mut self, sector: u32, bytes: &Sector) -> Result<(), DeviceFault>
        ensures answer { result ≡ permitted (model self.old) (origins self.old) sector }
        ensures after { AfterWrite (model self.old) sector bytes.now (model self.new) result }
        ensures origin { origins self.new ≡ origins self.old };

    // Lands all that waits.
    fn settle(&mut self)
        ensures after { model self.new ≡ settled (model self.old) }
        ensures origin { origins self.new ≡ origins self.old };

    // what every model of a device keeps to
    ghost sound: { (d : Self) → Sound (model d) };
}
