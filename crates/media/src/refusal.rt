// The refusal of a device at the bottom.
ghost use Rattle.std.specs.Prelude.{◌≡◌};
ghost use Rattle.media.specs.Landed.{off_device};

use device::fault::{DeviceFault, Layer, Reason};

// There is no such sector.
pub fn off_device(layer: Layer, sector: u32) -> DeviceFault
    ensures { result ≡ off_device layer sector }
{
    DeviceFault::arising(Reason::OffDevice, layer, sector)
}
