// The checks that a sector passes before its kind is looked at, and the limits of the kinds that have some.
ghost use Rattle.std.specs.Prelude.{◌≡◌, ◌≤◌};
ghost use Rattle.descriptor.specs.Checks.{sum_stands, tag_stands, location_stands, crc_stands, logical_volume_fits, whole_lengths, unallocated_space_fits};

use crate::kinds::{BLOCK_BYTES, MOST_PAIRS, MOST_PARTITIONS, Sector};
use octets::crc::crc_of;
use octets::fields::{byte_at, u16_at, u32_at};
use octets::tag::sum_of;

// The bytes of a tag.
const TAG_BYTES: usize = 16;

// The most bytes that a CRC covers: all that follow the tag.
const MOST_COVERED: u16 = 2032;

// Whether byte 4 is the sum of the tag's other bytes.
pub fn sum_holds(sector: &Sector) -> bool
    ensures { result ≡ sum_stands sector.now }
{
    byte_at(sector, 4) == sum_of(&sector[0..TAG_BYTES])
}

// Check 1: the sum, the reserved byte and the version.
pub(crate) fn tag_holds(sector: &Sector) -> bool
    ensures { result ≡ tag_stands sector.now }
{
    sum_holds(sector) && byte_at(sector, 5) == 0 && u16_at(sector, 2) == 3
}

// Check 2: the tag names the sector's own number.
pub(crate) fn location_holds(sector: &Sector, number: u32) -> bool
    ensures { result ≡ location_stands sector.now number }
{
    u32_at(sector, 12) == number
}

// Check 3: the CRC of the bytes that it covers.
pub fn crc_holds(sector: &Sector) -> bool
    ensures { result ≡ crc_stands sector.now }
{
    let covered = u16_at(sector, 10);
    if covered > MOST_COVERED {
        return false;
    }
    let after_tag = &sector[TAG_BYTES..];
    u16_at(sector, 8) == crc_of(&after_tag[0..usize::from(covered)])
}

// Check 4 of a logical volume: its block size, its count of maps and their table's length.
pub(crate) fn logical_volume_holds(sector: &Sector) -> bool
    ensures { result ≡ logical_volume_fits sector.now }
{
    let maps = u32_at(sector, 268);
    u32_at(sector, 212) == BLOCK_BYTES && maps <= MOST_PARTITIONS && u32_at(sector, 264) == 6 * maps
}

// Whether the first extents of unallocated space, as many as are asked for, have lengths in whole sectors.
fn lengths_whole(sector: &Sector, count: u32) -> bool
    requires { count ≤ 16 }
    ensures { result ≡ whole_lengths sector.now count }
{
    (0..count).all(|row| u32_at(sector, 24 + 8 * row as usize) % BLOCK_BYTES == 0)
}

// Check 4 of unallocated space: its count of extents, and their lengths.
pub(crate) fn unallocated_space_holds(sector: &Sector) -> bool
    ensures { result ≡ unallocated_space_fits sector.now }
{
    let extents = u32_at(sector, 20);
    extents <= MOST_PAIRS && lengths_whole(sector, extents)
}
