// The rows of descriptors' tables, read and written.
ghost use Rattle.std.specs.Prelude.{◌≡◌, ℕ, ◌<◌, ◌^◌, List, length, map, refl};
ghost use Rattle.std.specs.List.{slice_get};
ghost use Rattle.std.proofs.Common.{lit<, rules};
ghost use Rattle.octets.proofs.Runs.{u16_back, u32_back};
ghost use Rattle.octets.specs.Fields.{put, le32};
ghost use Rattle.octets.specs.Rows.{whole_rows};
ghost use Rattle.tables.specs.Read.{map_of, extent_of, size_of};
ghost use Rattle.tables.specs.Rows.{map_row, extent_row, map_bytes, pair_bytes, free_bytes, size_bytes};

use descriptor::decode::extent;
use descriptor::kinds::{Extent, FreePair, Partition, PartitionMap};
use octets::fields::{byte_at, put_bytes, put_u32, u16_at, u32_at};
use octets::rows::{RowFormat, row_at};

// A row of a table, read and written.
pub trait Row: Sized {
    // how many bytes a row has
    const WIDTH: usize;

    ghost WIDTH: { ℕ };

    // what these bytes hold
    ghost of: { List ℕ → Self };

    // the row's bytes
    ghost bytes: { Self → List ℕ };

    // that the row's numbers fit their fields, which their types say
    ghost fits: { Self → Type 0 };

    // What a row's bytes hold.
    fn read(row: &[u8]) -> Self
        ensures { result ≡ of row.now };

    // Puts the row at an offset of an area.
    fn put(self, area: &mut [u8], at: usize)
        ensures after { area.new ≡ put at (bytes self) area.old }
        ensures fit { fits self };

    ghost wide: { 0 < WIDTH };

    ghost whole: { (row : Self) → length (bytes row) ≡ WIDTH };

    // what is written is read back
    ghost back: { (row : Self) → fits row → of (bytes row) ≡ row };
}

// What a row of a table holds, by its index, or nothing where the table has no such whole row.
pub fn read_row<R: Row>(table: &[u8], index: usize) -> Option<R>
    ensures { result ≡ slice_get (map R.of (whole_rows R.WIDTH table.now)) index }
{
    let bytes = row_at(table, R::WIDTH, index)?;
    Some(R::read(bytes))
}

// A partition map, in a logical volume's map table.
impl Row for PartitionMap {
    const WIDTH: usize = 6;

    ghost WIDTH = { 6 };

    ghost of = { map_of };

    ghost bytes = { map_row };

    ghost fits = { λ map. (map.volume < 2 ^ 16) × (map.number < 2 ^ 16) };

    fn read(row: &[u8]) -> PartitionMap {
        PartitionMap {
            kind: byte_at(row, 0),
            length: byte_at(row, 1),
            volume: u16_at(row, 2),
            number: u16_at(row, 4),
        }
    }

    fn put(self, area: &mut [u8], at: usize) {
        let [v0, v1] = self.volume.to_le_bytes();
        let [n0, n1] = self.number.to_le_bytes();
        put_bytes(area, at, &[self.kind, self.length, v0, v1, n0, n1]);
    }

    ghost wide = { lit< tt };

    ghost whole = { λ _. refl };

    ghost back = { λ map fit. Prim.search (rules, u16_back) };
}

// An extent, as in the table of unallocated space.
impl Row for Extent {
    const WIDTH: usize = 8;

    ghost WIDTH = { 8 };

    ghost of = { extent_of };

    ghost bytes = { extent_row };

    ghost fits = { λ extent. (extent.length < 2 ^ 32) × (extent.location < 2 ^ 32) };

    fn read(row: &[u8]) -> Extent {
        extent(row, 0)
    }

    fn put(self, area: &mut [u8], at: usize) {
        put_u32(area, at, self.length);
        put_u32(area, at.saturating_add(4), self.location);
    }

    ghost wide = { lit< tt };

    ghost whole = { λ _. refl };

    ghost back = { λ extent fit. Prim.search (rules, u32_back) };
}

// A count of blocks, in an integrity descriptor's tables.
impl Row for u32 {
    const WIDTH: usize = 4;

    ghost WIDTH = { 4 };

    ghost of = { size_of };

    ghost bytes = { le32 };

    ghost fits = { λ count. count < 2 ^ 32 };

    fn read(row: &[u8]) -> u32 {
        u32_at(row, 0)
    }

    fn put(self, area: &mut [u8], at: usize) {
        put_u32(area, at, self);
    }

    ghost wide = { lit< tt };

    ghost whole = { λ _. refl };

    ghost back = { u32_back };
}

// A partition as its map: type 1, length 6, volume 1, its number.
pub struct MapFormat;

impl RowFormat for MapFormat {
    type Item = Partition;

    ghost row = { map_bytes };

    ghost fits = { λ p. p.number < 2 ^ 16 };

    fn put_row(area: &mut [u8], at: usize, item: &Partition) -> usize {
        PartitionMap::from(*item).put(area, at);
        at.saturating_add(PartitionMap::WIDTH)
    }
}

// A free pair as an extent.
pub struct PairFormat;

impl RowFormat for PairFormat {
    type Item = FreePair;

    ghost row = { pair_bytes };

    ghost fits = { λ f. f.first < 2 ^ 32 };

    fn put_row(area: &mut [u8], at: usize, item: &FreePair) -> usize {
        Extent::from(*item).put(area, at);
        at.saturating_add(Extent::WIDTH)
    }
}

// A partition's free space, which is not stated.
pub struct FreeFormat;

impl RowFormat for FreeFormat {
    type Item = Partition;

    ghost row = { free_bytes };

    ghost fits = { λ _. Unit {0} };

    fn put_row(area: &mut [u8], at: usize, _item: &Partition) -> usize {
        u32::MAX.put(area, at);
        at.saturating_add(u32::WIDTH)
    }
}

// A partition's size in blocks.
pub struct SizeFormat;

impl RowFormat for SizeFormat {
    type Item = Partition;

    ghost row = { size_bytes };

    ghost fits = { λ p. p.count < 2 ^ 32 };

    fn put_row(area: &mut [u8], at: usize, item: &Partition) -> usize {
        item.count.put(area, at);
        at.saturating_add(u32::WIDTH)
    }
}
