// Tables: rows of one width, one after the other.
ghost use Rattle.std.specs.Prelude.{◌≡◌, ℕ, ◌+◌, ◌-◌, ◌^◌, min, List, length};
ghost use Rattle.std.specs.Option.{option_map};
ghost use Rattle.std.specs.List.{slice_get, flat_map, AllByRecursion};
ghost use Rattle.octets.specs.Fields.{put};
ghost use Rattle.octets.specs.Rows.{whole_rows};

// A row of a table, by its index, or nothing where the table has no such whole row.
pub fn row_at(table: &[u8], width: usize, row: usize) -> Option<&[u8]>
    ensures { option_map (λ x. x.now) result ≡ slice_get (whole_rows width table.now) row }
{
    if width == 0 || row >= table.len() / width {
        return None;
    }
    let from = row * width;
    Some(&table[from..from + width])
}

// How an item is written as a row of a table.
pub trait RowFormat {
    type Item;

    // the row's bytes
    ghost row: { Self.Item → List ℕ };

    // that the item's numbers fit their fields, which their types say of every item
    ghost fits: { Self.Item → Type 0 };

    // Puts the row of an item at an offset of an area, and answers where the next row goes.
    fn put_row(area: &mut [u8], at: usize, item: &Self::Item) -> usize
        ensures after { area.new ≡ put at (row item.now) area.old }
        ensures next { result ≡ min (at + length (row item.now)) (2 ^ 64 - 1) }
        ensures fit { fits item.now };
}

// Puts the rows of some items at an offset of an area, one after the other, and answers where they end.
pub fn put_rows<F: RowFormat>(area: &mut [u8], at: usize, items: &[F::Item]) -> usize
    ensures after { area.new ≡ put at (flat_map F.RowFormat.row items.now) area.old }
    ensures next { result ≡ min (at + length (flat_map F.RowFormat.row items.now)) (2 ^ 64 - 1) }
    ensures fit { AllByRecursion F.RowFormat.fits items.now }
{
    let mut end = at;
    for item in items {
        end = F::put_row(area, end, item);
    }
    end
}
