// One call, told.
ghost use Rattle.std.specs.Prelude.{◌≡◌, replicate, IfOk};
ghost use Rattle.device.specs.Calls.{reading, permitted, AfterWrite};
ghost use Rattle.telling.specs.Told.{first_byte};

use descriptor::kinds::SECTOR_BYTES;
use device::fault::DeviceFault;
use device::interface::Device;
use std::io;

// Writes a sector full of a byte, and tells the device's answer, which it hands on. The device is as the write leaves it,
// whether or not the answer could be told.
pub fn tell_write<D: Device>(
    rt: &HostRuntime,
    device: &mut D,
    sector: u32,
    byte: u8,
) -> io::Result<Result<(), DeviceFault>>
    ensures told { IfOk result (λ answer. answer ≡ permitted (D.Device.model device.old) (D.Device.origins device.old) sector) }
    ensures after { AfterWrite (D.Device.model device.old) sector (replicate 2048 byte) (D.Device.model device.new) (permitted (D.Device.model device.old) (D.Device.origins device.old) sector) }
{
    let answer = device.write(sector, &[byte; SECTOR_BYTES]);
    match answer {
        Ok(()) => println!(rt; "write {byte:#04x} to sector {sector}: accepted")?,
        Err(fault) => println!(rt; "write {byte:#04x} to sector {sector}: {fault}")?,
    }
    Ok(answer)
}

// Reads a sector and tells its first byte, or the refusal, which it hands on.
pub fn tell_read<D: Device>(
    rt: &HostRuntime,
    device: &D,
    sector: u32,
) -> io::Result<Result<u8, DeviceFault>>
    ensures { IfOk result (λ answer. answer ≡ first_byte (reading (D.Device.model device.now) (D.Device.origins device.now) sector (replicate 2048 0))) }
{
    let mut area = [0u8; SECTOR_BYTES];
    match device.read(sector, &mut area) {
        Ok(()) => {
            let byte = area[0];
            println!(rt; "read sector {sector}: {byte:#04x}")?;
            Ok(Ok(byte))
        }
        Err(fault) => {
            println!(rt; "read sector {sector}: {fault}")?;
            Ok(Err(fault))
        }
    }
}
