// A write that is settled at once, on any device.
ghost use Rattle.std.specs.Prelude.{◌≡◌};
ghost use Rattle.device.specs.Calls.{permitted};
ghost use Rattle.device.specs.Through.{after_through};
ghost use Rattle.device.specs.Cuts.{CutLaws};

use crate::fault::DeviceFault;
use crate::interface::Device;
use descriptor::kinds::Sector;

// Writes a sector and settles. Once this is accepted, no power cut changes what any sector holds.
pub fn write_through<D: Device>(
    device: &mut D,
    sector: u32,
    bytes: &Sector,
) -> Result<(), DeviceFault>
    ensures answer { result ≡ permitted (D.Device.model device.old) (D.Device.origins device.old) sector }
    ensures after { D.Device.model device.new ≡ after_through (D.Device.model device.old) sector bytes.now result }
    ensures origin { D.Device.origins device.new ≡ D.Device.origins device.old }
    ensures cuts { CutLaws }
{
    device.write(sector, bytes)?;
    device.settle();
    Ok(())
}
