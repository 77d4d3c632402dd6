// The volume structure descriptors that are written.
ghost use Rattle.std.specs.Prelude.{◌≡◌, Some};
ghost use Rattle.recognition.specs.Structure.{structure_in};
ghost use Rattle.recognition.specs.Written.{structure_bytes};

use crate::structure::Structure;
use descriptor::kinds::{SECTOR_BYTES, Sector};
use octets::fields::put_bytes;

// A volume structure descriptor: type 0, the identifier of a standard, version 1.
pub fn written(which: Structure) -> Sector
    ensures bytes { result ≡ structure_bytes which }
    ensures read_back { structure_in result ≡ Some which }
{
    let mut sector = [0u8; SECTOR_BYTES];
    put_bytes(&mut sector, 1, which.identifier().as_bytes());
    put_bytes(&mut sector, 6, &[1]);
    sector
}
