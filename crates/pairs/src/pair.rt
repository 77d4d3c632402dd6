// A pair.
ghost use Rattle.std.specs.Prelude.{◌≡◌, ◌-◌, min};
ghost use Rattle.pairs.specs.Pairs.{pair_end, holds};

// The most pairs that a layer keeps.
pub const MOST_PAIRS: usize = 8;

// A run of sectors: its offset, which is its first sector, and its length in sectors. (The default, of no sector, fills the
// places of a table that are not used.)
#[derive(Clone, Copy, Default, PartialEq, Eq, Debug)]
pub struct Pair {
    pub offset: u32,
    pub length: u32,
}

impl Pair {
    // The first sector past it.
    pub(crate) fn end(self) -> u64
        ensures { result ≡ pair_end self }
    {
        u64::from(self.offset) + u64::from(self.length)
    }

    // Whether it holds a sector.
    pub(crate) fn holds(self, sector: u32) -> bool
        ensures { result ≡ holds self sector }
    {
        self.offset <= sector && sector - self.offset < self.length
    }

    // How many of its sectors a device of so many has.
    pub(crate) fn reached(self, count: u32) -> u32
        ensures { result ≡ min (pair_end self) count - self.offset }
    {
        self.length.min(count.saturating_sub(self.offset))
    }
}
