// A sector as a volume structure descriptor, of which the volume recognition sequence is made.
ghost use Rattle.std.specs.Prelude.{◌≡◌};
ghost use Rattle.recognition.specs.Law.{Recognition};
ghost use Rattle.recognition.specs.Structure.{code_of, structure_in};

use descriptor::kinds::Sector;
use octets::fields::byte_at;
use std::fmt;

// The standard that a volume structure descriptor names.
#[derive(Clone, Copy, PartialEq, Eq, Debug)]
pub enum Structure {
    Bea01,
    Boot2,
    Nsr03,
    Tea01,
}

impl Structure {
    // The identifier by which a sector names the standard.
    pub fn identifier(self) -> &'static str
        ensures { result.now ≡ code_of self }
    {
        match self {
            Structure::Bea01 => "BEA01",
            Structure::Boot2 => "BOOT2",
            Structure::Nsr03 => "NSR03",
            Structure::Tea01 => "TEA01",
        }
    }
}

impl fmt::Display for Structure {
    fn fmt<W: fmt::Write>(&self, f: &mut fmt::Formatter<W>) -> fmt::Result {
        f.write_str(self.identifier())
    }
}

// The type, the version and the identifier, in turn: a match, since a `find` over the four was not proved, and is no shorter.
fn named(sector: &Sector) -> Option<Structure>
    ensures { result ≡ structure_in sector.now }
{
    if byte_at(sector, 0) != 0 || byte_at(sector, 6) != 1 {
        return None;
    }
    match &sector[1..6] {
        b"BEA01" => Some(Structure::Bea01),
        b"BOOT2" => Some(Structure::Boot2),
        b"NSR03" => Some(Structure::Nsr03),
        b"TEA01" => Some(Structure::Tea01),
        _ => None,
    }
}

// The volume structure descriptor that a sector is, if it is one: type 0, version 1, and one of four identifiers.
pub fn recognise(sector: &Sector) -> Option<Structure>
    ensures value { result ≡ structure_in sector.now }
    ensures law { Recognition sector.now result }
{
    named(sector)
}
