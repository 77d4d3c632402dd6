// Calls that were written down beforehand.
ghost use Rattle.std.specs.Prelude.{◌≡◌, ◌+◌, ◌%◌, ◌^◌, IfOk, if◌then◌else◌};
ghost use Rattle.device.specs.Calls.{counted};

use crate::calls::{tell_read, tell_write};
use device::interface::Device;
use std::io;

// A call: a sector is filled with a byte, a sector is read, all that waits is landed. It is data, and no closure, so that a
// list of calls can be a constant and is told call by call.
#[derive(Clone, Copy, PartialEq, Eq, Debug)]
pub enum Call {
    Write { sector: u32, byte: u8 },
    Read { sector: u32 },
    Settle,
}

// Makes a call and tells it: whether it is one that the tally counts.
fn tell_call<D: Device>(rt: &HostRuntime, device: &mut D, call: Call) -> io::Result<bool>
    ensures { IfOk result (λ b. (D.Device.model device.new).tally ≡ (if b then counted (D.Device.model device.old).tally else (D.Device.model device.old).tally)) }
{
    match call {
        Call::Write { sector, byte } => Ok(tell_write(rt, device, sector, byte)?.is_ok()),
        Call::Read { sector } => {
            let _ = tell_read(rt, device, sector)?;
            Ok(false)
        }
        Call::Settle => {
            device.settle();
            println!(rt; "settle")?;
            Ok(true)
        }
    }
}

// Makes the calls in turn and tells them: how many writes and settles were accepted, which is what the tally rose by.
pub fn tell_calls<D: Device>(rt: &HostRuntime, device: &mut D, calls: &[Call]) -> io::Result<u64>
    ensures { IfOk result (λ n. (D.Device.model device.new).tally ≡ ((D.Device.model device.old).tally + n) % 2 ^ 64) }
{
    let mut accepted = 0u64;
    for call in calls {
        if tell_call(rt, device, *call)? {
            accepted = accepted.wrapping_add(1);
        }
    }
    Ok(accepted)
}
