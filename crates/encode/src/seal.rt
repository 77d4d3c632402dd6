// A descriptor's tag.
ghost use Rattle.std.specs.Prelude.{◌≡◌};
ghost use Rattle.octets.specs.Fields.{zeros};
ghost use Rattle.descriptor.specs.Numbers.{kind_number};
ghost use Rattle.encode.specs.Sealed.{tag, sealed};

use descriptor::kinds::{Kind, SECTOR_BYTES, Sector};
use octets::crc::crc_of;
use octets::fields::{put_bytes, put_u16, put_u32};
use octets::tag::sum_of;

// The version of every descriptor.
const VERSION: u16 = 3;

// How many bytes after the tag a CRC covers.
const COVERED: u16 = 496;

// What a tag says besides its descriptor's kind: the serial number that its set of descriptors bears, and the sector
// where it stands. A sequence number is no part of it: it stands behind the tag, and three of seven descriptors have none.
#[derive(Clone, Copy, PartialEq, Eq, Debug)]
pub struct Stamp {
    pub serial: u16,
    pub location: u32,
}

// A sector of zeros.
pub(crate) fn blank() -> Sector
    ensures { result ≡ zeros 2048 }
{
    [0; SECTOR_BYTES]
}

// The tag of a descriptor.
fn tag_of(kind: Kind, stamp: Stamp, crc: u16) -> [u8; 16]
    ensures { result ≡ tag (kind_number kind) stamp crc }
{
    let mut tag = [0u8; 16];
    put_u16(&mut tag, 0, kind.into());
    put_u16(&mut tag, 2, VERSION);
    put_u16(&mut tag, 6, stamp.serial);
    put_u16(&mut tag, 8, crc);
    put_u16(&mut tag, 10, COVERED);
    put_u32(&mut tag, 12, stamp.location);
    tag[4] = sum_of(&tag);
    tag
}

// Puts the tag on a sector whose other bytes stand.
pub(crate) fn seal(sector: &mut Sector, kind: Kind, stamp: Stamp)
    ensures { sector.new ≡ sealed (kind_number kind) stamp sector.old }
{
    let crc = crc_of(&sector[16..512]);
    let tag = tag_of(kind, stamp, crc);
    put_bytes(sector, 0, &tag);
}
