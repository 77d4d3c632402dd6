// The descriptors that are written.
ghost use Rattle.std.specs.Prelude.{◌≡◌};
ghost use Rattle.descriptor.specs.declared.kinds.Place.TheVariants.{Anchor, Sequence};
ghost use Rattle.encode.specs.ReadBack.{ReadsAs, primary_fields, anchor_fields, partition_fields};
ghost use Rattle.encode.specs.Written.{primary_bytes, anchor_bytes, partition_bytes, terminating_bytes};
ghost use Rattle.descriptor.specs.Kinds.{terminating as terminating_fields};

use crate::seal::{Stamp, blank, seal};
use descriptor::kinds::{
    Extent, Kind, Partition, Sector, SetIdentifier, Timestamp, VolumeIdentifier,
};
use octets::fields::{put_bytes, put_u16, put_u32};
use tables::rows::Row;

// The Primary Volume Descriptor.
pub fn primary(
    stamp: Stamp,
    sequence: u32,
    volume: &VolumeIdentifier,
    volume_set: &SetIdentifier,
    recorded: &Timestamp,
) -> Sector
    ensures bytes { result ≡ primary_bytes stamp sequence volume.now volume_set.now recorded.now }
    ensures read_back { ReadsAs result stamp Sequence (primary_fields stamp sequence volume.now volume_set.now recorded.now) }
{
    let mut sector = blank();
    put_u32(&mut sector, 16, sequence);
    put_bytes(&mut sector, 24, volume);
    put_u16(&mut sector, 56, 1);
    put_u16(&mut sector, 58, 1);
    put_u16(&mut sector, 60, 3);
    put_u16(&mut sector, 62, 3);
    put_bytes(&mut sector, 72, volume_set);
    put_bytes(&mut sector, 376, recorded);
    put_u16(&mut sector, 488, 1);
    seal(&mut sector, Kind::Primary, stamp);
    sector
}

// The Anchor Volume Descriptor Pointer.
pub fn anchor(stamp: Stamp, main: Extent, reserve: Extent) -> Sector
    ensures bytes { result ≡ anchor_bytes stamp main reserve }
    ensures read_back { ReadsAs result stamp Anchor (anchor_fields stamp main reserve) }
{
    let mut sector = blank();
    main.put(&mut sector, 16);
    reserve.put(&mut sector, 24);
    seal(&mut sector, Kind::Anchor, stamp);
    sector
}

// The Partition Descriptor of a partition that has its space allocated.
pub fn partition(stamp: Stamp, sequence: u32, partition: Partition) -> Sector
    ensures bytes { result ≡ partition_bytes stamp sequence partition }
    ensures read_back { ReadsAs result stamp Sequence (partition_fields stamp sequence partition) }
{
    let mut sector = blank();
    put_u32(&mut sector, 16, sequence);
    put_u16(&mut sector, 20, 1);
    put_u16(&mut sector, 22, partition.number);
    put_u32(&mut sector, 184, partition.access);
    put_u32(&mut sector, 188, partition.first);
    put_u32(&mut sector, 192, partition.count);
    seal(&mut sector, Kind::Partition, stamp);
    sector
}

// The Terminating Descriptor.
pub fn terminating(stamp: Stamp) -> Sector
    ensures bytes { result ≡ terminating_bytes stamp }
    ensures read_back { ReadsAs result stamp Sequence (terminating_fields stamp.serial) }
{
    let mut sector = blank();
    seal(&mut sector, Kind::Terminating, stamp);
    sector
}
