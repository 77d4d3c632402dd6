// The descriptors with a table that are written.
ghost use Rattle.std.specs.Prelude.{◌≡◌, ◌+◌, ◌-◌, ◌^◌, ◌<◌, ◌≤◌, min, List, length, map, IfOk, MatchResult};
ghost use Rattle.std.specs.Iterator.{Drains, IsFinite};
ghost use Rattle.std.specs.List.{flat_map, AllByRecursion};
ghost use Rattle.octets.specs.Fields.{put};
ghost use Rattle.octets.specs.Rows.{whole_rows};
ghost use Rattle.descriptor.specs.declared.kinds.Place.TheVariants.{Sequence, IntegrityExtent};
ghost use Rattle.encode.specs.Limits.{within_partitions, within_pairs};
ghost use Rattle.tables.specs.Back.{MapsBack, ExtentsBack, SizesBack};
ghost use Rattle.encode.specs.ReadBack.{ReadsAs, logical_volume_fields, unallocated_space_fields, integrity_fields};
ghost use Rattle.encode.specs.Written.{logical_volume_bytes, unallocated_space_bytes, integrity_bytes};

use crate::limits::{OffLimits, lengths_fit};
use crate::seal::{Stamp, blank, seal};
use descriptor::kinds::{
    BLOCK_BYTES, Extent, FreePair, Integrity, Kind, MOST_PAIRS, MOST_PARTITIONS, Partition,
    PartitionMap, Sector, SetIdentifier, Timestamp,
};
use octets::fields::{put_bytes, put_u32};
use tables::rows::Row;

// How many items there are, or the refusal where there are more than a table may have.
fn count_within<T>(items: &[T], most: u32, refusal: OffLimits) -> Result<u32, OffLimits>
    ensures { MatchResult result (λ count. (count ≡ length items.now) × (count ≤ most)) (λ e. (e ≡ refusal) × (most < length items.now)) }
{
    if items.len() > most as usize {
        return Err(refusal);
    }
    Ok(items.len() as u32)
}

// Puts rows at an offset of an area, one after the other, and answers where they end. It is private: over an iterator it has
// to ask that the iterator ends.
fn put_rows<R: Row + Drop, I: Iterator<Item = R> + Drop>(
    area: &mut [u8],
    at: usize,
    rows: I,
) -> usize
    requires can { I.can_next rows }
    requires ends { IsFinite (I.remaining rows) }
    ensures { (all : List R) × Drains I.next_gives rows all × (area.new ≡ put at (flat_map R.bytes all) area.old) × (result ≡ min (at + length (flat_map R.bytes all)) (2 ^ 64 - 1)) × (map R.of (whole_rows R.WIDTH (flat_map R.bytes all)) ≡ all) × AllByRecursion R.fits all }
{
    let mut end = at;
    for row in rows {
        row.put(area, end);
        end = end.saturating_add(R::WIDTH);
    }
    end
}

// The Logical Volume Descriptor, with a map of each partition.
pub fn logical_volume(
    stamp: Stamp,
    sequence: u32,
    identifier: &SetIdentifier,
    partitions: &[Partition],
    integrity: Extent,
) -> Result<Sector, OffLimits>
    ensures bytes { result ≡ within_partitions partitions.now (logical_volume_bytes stamp sequence identifier.now partitions.now integrity) }
    ensures read_back { IfOk result (λ s. ReadsAs s stamp Sequence (logical_volume_fields stamp sequence identifier.now partitions.now integrity) × MapsBack partitions.now) }
{
    let maps = count_within(partitions, MOST_PARTITIONS, OffLimits::Partitions)?;
    let mut sector = blank();
    put_u32(&mut sector, 16, sequence);
    put_bytes(&mut sector, 84, identifier);
    put_u32(&mut sector, 212, BLOCK_BYTES);
    put_u32(&mut sector, 264, 6 * maps);
    put_u32(&mut sector, 268, maps);
    integrity.put(&mut sector, 432);
    let rows = partitions.iter().map(|p| PartitionMap::from(*p));
    put_rows(&mut sector, 440, rows);
    seal(&mut sector, Kind::LogicalVolume, stamp);
    Ok(sector)
}

// The Unallocated Space Descriptor, with an extent for each free pair.
pub fn unallocated_space(
    stamp: Stamp,
    sequence: u32,
    free: &[FreePair],
) -> Result<Sector, OffLimits>
    ensures bytes { result ≡ within_pairs free.now (unallocated_space_bytes stamp sequence free.now) }
    ensures read_back { IfOk result (λ s. ReadsAs s stamp Sequence (unallocated_space_fields stamp sequence free.now) × ExtentsBack free.now) }
{
    let extents = count_within(free, MOST_PAIRS, OffLimits::Pairs)?;
    if !lengths_fit(free) {
        return Err(OffLimits::PairLength);
    }
    let mut sector = blank();
    put_u32(&mut sector, 16, sequence);
    put_u32(&mut sector, 20, extents);
    let rows = free.iter().map(|pair| Extent::from(*pair));
    put_rows(&mut sector, 24, rows);
    seal(&mut sector, Kind::UnallocatedSpace, stamp);
    Ok(sector)
}

// The Logical Volume Integrity Descriptor, open or closed, with the size of each partition.
pub fn integrity(
    stamp: Stamp,
    recorded: &Timestamp,
    state: Integrity,
    partitions: &[Partition],
) -> Result<Sector, OffLimits>
    ensures bytes { result ≡ within_partitions partitions.now (integrity_bytes stamp recorded.now state partitions.now) }
    ensures read_back { IfOk result (λ s. ReadsAs s stamp IntegrityExtent (integrity_fields stamp recorded.now state partitions.now) × SizesBack partitions.now) }
{
    let sizes = count_within(partitions, MOST_PARTITIONS, OffLimits::Partitions)?;
    let mut sector = blank();
    put_bytes(&mut sector, 16, recorded);
    put_u32(&mut sector, 28, state.into());
    put_u32(&mut sector, 72, sizes);
    // Free space is not stated, which the format says by the largest number.
    let sizes_at = put_rows(&mut sector, 80, partitions.iter().map(|_| u32::MAX));
    put_rows(&mut sector, sizes_at, partitions.iter().map(|p| p.count));
    seal(&mut sector, Kind::Integrity, stamp);
    Ok(sector)
}
