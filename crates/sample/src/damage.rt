// Ways in which a sector comes to harm.
ghost use Rattle.std.specs.Prelude.{◌≡◌};
ghost use Rattle.sample.specs.Damage.{bit_turned, sum_mended, aged, small_blocks};

use descriptor::kinds::{SECTOR_BYTES, Sector};
use octets::fields::{put_u16, put_u32};
use octets::tag::sum_of;

// Turns the lowest bit of a byte, if the sector has that byte.
pub fn turn_bit(sector: &mut Sector, at: usize)
    ensures { sector.new ≡ bit_turned at sector.old }
{
    if at < SECTOR_BYTES {
        sector[at] = sector[at] ^ 1;
    }
}

// Makes the tag's sum right again.
pub fn mend_sum(sector: &mut Sector)
    ensures { sector.new ≡ sum_mended sector.old }
{
    sector[4] = sum_of(&sector[0..16]);
}

// Makes the descriptor one of version 2.
pub fn age(sector: &mut Sector)
    ensures { sector.new ≡ aged sector.old }
{
    put_u16(sector, 2, 2);
    mend_sum(sector);
}

// Makes a logical volume one of smaller blocks, with no byte under its CRC.
pub fn shrink_blocks(sector: &mut Sector)
    ensures { sector.new ≡ small_blocks sector.old }
{
    put_u32(sector, 212, 512);
    put_u16(sector, 10, 0);
    put_u16(sector, 8, 0);
    mend_sum(sector);
}
