// The settled examples, as theorems about the definitions that the contracts use.
#![tactic(auto)]

ghost use Rattle.std.specs.Prelude.{◌≡◌};
ghost use Rattle.examples.specs.Settled.{example_sector, Settled};

use descriptor::kinds::{SECTOR_BYTES, Sector};
use octets::fields::put_bytes;

// The tag of the example.
const TAG: [u8; 16] = [
    0x08, 0x00, 0x03, 0x00, 0x22, 0x00, 0x01, 0x00, 0x00, 0x00, 0xF0, 0x01, 0x25, 0x00, 0x00, 0x00,
];

// A Terminating Descriptor for sector 37, byte by byte, and with it every settled example.
pub fn terminating_example() -> Sector
    ensures value { result ≡ example_sector }
    ensures settled { Settled }
{
    let mut sector = [0u8; SECTOR_BYTES];
    put_bytes(&mut sector, 0, &TAG);
    sector
}
