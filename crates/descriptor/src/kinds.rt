// The kinds of descriptor, and what each holds.
ghost use Rattle.std.specs.Prelude.{◌≡◌};
ghost use Rattle.descriptor.specs.Converted.{map_to, extent_low};
ghost use Rattle.descriptor.specs.Named.{Numbered};
ghost use Rattle.descriptor.specs.Numbers.{kind_number, state_number, access_number};

// The bytes of a sector, and of a logical block.
pub const SECTOR_BYTES: usize = 2048;

// The bytes of a logical block, as a descriptor has them.
pub const BLOCK_BYTES: u32 = 2048;

// A sector.
pub type Sector = [u8; SECTOR_BYTES];

// The identifier of a volume.
pub type VolumeIdentifier = [u8; 32];

// The identifier of a volume set or of a logical volume.
pub type SetIdentifier = [u8; 128];

// A recording date and time.
pub type Timestamp = [u8; 12];

// The most partition maps that a logical volume has here.
pub const MOST_PARTITIONS: u32 = 8;

// The most extents of unallocated space that a volume lists here.
pub const MOST_PAIRS: u32 = 16;

// A number that names nothing here. (What a number names, and the number of a case, is written
// out for each enum below: no derive makes `TryFrom` or `From`.)
#[derive(Clone, Copy, PartialEq, Eq, Debug)]
pub struct Unknown<N>(pub N);

// The kind of a descriptor, with its number, as a tag has it.
#[derive(Clone, Copy, PartialEq, Eq, Debug)]
pub enum Kind {
    Primary = 1,
    Anchor = 2,
    ImplementationUse = 4,
    Partition = 5,
    LogicalVolume = 6,
    UnallocatedSpace = 7,
    Terminating = 8,
    Integrity = 9,
}

impl From<Kind> for u16 {
    ghost from_gives = { λ kind n. n ≡ kind_number kind };

    fn from(kind: Kind) -> u16 {
        kind as u16
    }
}

impl TryFrom<u16> for Kind {
    type Error = Unknown<u16>;

    ghost try_from_gives = { Numbered kind_number };

    fn try_from(number: u16) -> Result<Kind, Unknown<u16>> {
        match number {
            1 => Ok(Kind::Primary),
            2 => Ok(Kind::Anchor),
            4 => Ok(Kind::ImplementationUse),
            5 => Ok(Kind::Partition),
            6 => Ok(Kind::LogicalVolume),
            7 => Ok(Kind::UnallocatedSpace),
            8 => Ok(Kind::Terminating),
            9 => Ok(Kind::Integrity),
            _ => Err(Unknown(number)),
        }
    }
}

// Where a sector stands: at an anchor's place, in a volume descriptor sequence, or in the integrity extent.
#[derive(Clone, Copy, PartialEq, Eq, Debug)]
pub enum Place {
    Anchor,
    Sequence,
    IntegrityExtent,
}

// An extent of sectors: its length in bytes, and its first sector. Length 0 says that there is none; a first sector may stand
// beside it, and what is read gives it back, so that no `Option` can say it.
#[derive(Clone, Copy, PartialEq, Eq, Debug)]
pub struct Extent {
    pub length: u32,
    pub location: u32,
}

// How a partition may be written, with the number of its access type.
#[derive(Clone, Copy, PartialEq, Eq, Debug)]
pub enum Access {
    NotStated = 0,
    ReadOnly = 1,
    WriteOnce = 2,
    Rewritable = 3,
    Overwritable = 4,
}

impl From<Access> for u32 {
    ghost from_gives = { λ access n. n ≡ access_number access };

    fn from(access: Access) -> u32 {
        access as u32
    }
}

impl TryFrom<u32> for Access {
    type Error = Unknown<u32>;

    ghost try_from_gives = { Numbered access_number };

    fn try_from(number: u32) -> Result<Access, Unknown<u32>> {
        match number {
            0 => Ok(Access::NotStated),
            1 => Ok(Access::ReadOnly),
            2 => Ok(Access::WriteOnce),
            3 => Ok(Access::Rewritable),
            4 => Ok(Access::Overwritable),
            _ => Err(Unknown(number)),
        }
    }
}

// A partition: its number, its access type, its first sector and its count of sectors. A card may name any number as the
// access type, and what is read gives back the one that stands there; `Access::try_from` tells what it means.
#[derive(Clone, Copy, PartialEq, Eq, Debug)]
pub struct Partition {
    pub number: u16,
    pub access: u32,
    pub first: u32,
    pub count: u32,
}

// A run of sectors that no partition holds: its first sector and its count of sectors.
#[derive(Clone, Copy, PartialEq, Eq, Debug)]
pub struct FreePair {
    pub first: u32,
    pub count: u32,
}

// A partition map of a logical volume: its type, its length in bytes, the volume and the partition's number there. Any
// number may stand as the type, and what is read gives it back.
#[derive(Clone, Copy, PartialEq, Eq, Debug)]
pub struct PartitionMap {
    pub kind: u8,
    pub length: u8,
    pub volume: u16,
    pub number: u16,
}

// What the last integrity descriptor says of a logical volume, with its number.
#[derive(Clone, Copy, PartialEq, Eq, Debug)]
pub enum Integrity {
    Open = 0,
    Closed = 1,
}

impl From<Integrity> for u32 {
    ghost from_gives = { λ state n. n ≡ state_number state };

    fn from(state: Integrity) -> u32 {
        state as u32
    }
}

impl TryFrom<u32> for Integrity {
    type Error = Unknown<u32>;

    ghost try_from_gives = { Numbered state_number };

    fn try_from(number: u32) -> Result<Integrity, Unknown<u32>> {
        match number {
            0 => Ok(Integrity::Open),
            1 => Ok(Integrity::Closed),
            _ => Err(Unknown(number)),
        }
    }
}

// What a sector holds that passed the checks. Identifiers, dates and tables are parts of the sector itself, and a partition's
// flags are the format's bits.
#[derive(Clone, Copy)]
pub enum Descriptor<'a> {
    Primary {
        serial: u16,
        sequence: u32,
        volume: &'a [u8],
        volume_set: &'a [u8],
        recorded: &'a [u8],
    },
    Anchor {
        serial: u16,
        main: Extent,
        reserve: Extent,
    },
    ImplementationUse {
        serial: u16,
        sequence: u32,
    },
    Partition {
        serial: u16,
        sequence: u32,
        flags: u16,
        partition: Partition,
    },
    LogicalVolume {
        serial: u16,
        sequence: u32,
        identifier: &'a [u8],
        block_size: u32,
        maps: &'a [u8],
        integrity: Extent,
    },
    UnallocatedSpace {
        serial: u16,
        sequence: u32,
        extents: &'a [u8],
    },
    Terminating {
        serial: u16,
    },
    Integrity {
        serial: u16,
        recorded: &'a [u8],
        state: Integrity,
        next: Extent,
        partitions: u32,
        sizes: &'a [u8],
    },
}

// A partition's map in a logical volume: type 1, length 6, volume 1, its number.
impl From<Partition> for PartitionMap {
    ghost from_gives = { λ partition map. map ≡ map_to partition };

    fn from(partition: Partition) -> PartitionMap {
        PartitionMap {
            kind: 1,
            length: 6,
            volume: 1,
            number: partition.number,
        }
    }
}

// A free pair as an extent. Of a length in bytes that 32 bits do not hold, the lowest 32 are kept.
impl From<FreePair> for Extent {
    ghost from_gives = { λ pair extent. extent ≡ extent_low pair };

    fn from(pair: FreePair) -> Extent {
        Extent {
            length: pair.count.wrapping_mul(BLOCK_BYTES),
            location: pair.first,
        }
    }
}
