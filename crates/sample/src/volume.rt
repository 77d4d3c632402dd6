// A small volume: its names, its partitions and its free space.
ghost use Rattle.std.specs.Prelude.{◌≡◌, [], ◌∷◌};
ghost use Rattle.octets.specs.Fields.{put, zeros};
ghost use Rattle.sample.specs.Volume.{pottery, loom, free_space};

use descriptor::kinds::{Access, Extent, FreePair, Partition, Timestamp};
use octets::fields::put_bytes;

// The serial number that the sample's descriptors bear.
pub const SERIAL: u16 = 1;

// The extent of the main sequence, of the reserve sequence, and of the integrity descriptors.
pub const MAIN: Extent = Extent {
    length: 32_768,
    location: 32,
};

pub const RESERVE: Extent = Extent {
    length: 32_768,
    location: 48,
};

pub const INTEGRITY: Extent = Extent {
    length: 2048,
    location: 64,
};

// The date: 17 November 2026, 9:30:00, in Coordinated Universal Time.
pub const DATE: Timestamp = [0, 0, 0xEA, 0x07, 11, 17, 9, 30, 0, 0, 0, 0];

// An identifier of some text, which is cut, or filled with zeros.
pub fn name<const N: usize>(text: &[u8]) -> [u8; N]
    ensures { result ≡ put 0 text.now (zeros N) }
{
    let mut name = [0u8; N];
    put_bytes(&mut name, 0, text);
    name
}

// The partitions: the pottery talk, rewritable, and the loom talk, read only.
pub fn partitions() -> [Partition; 2]
    ensures { result ≡ pottery ∷ loom ∷ [] }
{
    [
        Partition {
            number: 7,
            access: Access::Rewritable.into(),
            first: 66,
            count: 100,
        },
        Partition {
            number: 9,
            access: Access::ReadOnly.into(),
            first: 166,
            count: 50,
        },
    ]
}

// The free space.
pub fn free_space() -> [FreePair; 2]
    ensures { result ≡ free_space }
{
    [
        FreePair {
            first: 257,
            count: 10,
        },
        FreePair {
            first: 267,
            count: 76,
        },
    ]
}
