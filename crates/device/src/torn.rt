// Torn sectors: what a power cut may leave of a sector that was being written, and that no reader takes for a descriptor.
ghost use Rattle.std.specs.Prelude.{◌≡◌, Decides};
ghost use Rattle.device.specs.Content.{holding};
ghost use Rattle.device.specs.Torn.{Torn, torn, NoTornPasses};

use descriptor::checks::{crc_holds, sum_holds};
use descriptor::kinds::Sector;
use octets::fields::u16_at;

// The sum, the version and the CRC, in this order.
fn some_check_fails(sector: &Sector) -> bool
    ensures { result ≡ torn (holding sector.now) }
{
    let version = u16_at(sector, 2);
    !sum_holds(sector) || (version != 2 && version != 3) || !crc_holds(sector)
}

// Whether a sector that can be read is torn.
pub fn is_torn(sector: &Sector) -> bool
    ensures value { result ≡ torn (holding sector.now) }
    ensures law { Decides result (Torn (holding sector.now)) }
    ensures never { NoTornPasses }
{
    some_check_fails(sector)
}
