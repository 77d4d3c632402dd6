// The limits of what is written.
ghost use Rattle.std.specs.Prelude.{◌≡◌};
ghost use Rattle.encode.specs.Limits.{limit_number, all_short};

use descriptor::kinds::FreePair;
use std::error::Error;
use std::fmt;

// The most sectors of a free pair: an extent is shorter than 2^30 bytes.
pub const MOST_PAIR_SECTORS: u32 = 524_287;

// Which limit a descriptor would pass, so that it is not written.
#[derive(Clone, Copy, Debug, PartialEq, Eq)]
pub enum OffLimits {
    Partitions,
    Pairs,
    PairLength,
}

impl OffLimits {
    // The refusal's number: one for all three, and so no discriminant.
    pub fn number(self) -> u8
        ensures { result ≡ limit_number self }
    {
        match self {
            OffLimits::Partitions | OffLimits::Pairs | OffLimits::PairLength => 34,
        }
    }
}

impl fmt::Display for OffLimits {
    fn fmt<W: fmt::Write>(&self, f: &mut fmt::Formatter<W>) -> fmt::Result {
        write!(
            f,
            "refused {}: a table or an extent is too long",
            self.number()
        )
    }
}

impl Error for OffLimits {}

// Whether each free pair is short enough for an extent.
pub(crate) fn lengths_fit(free: &[FreePair]) -> bool
    ensures { result ≡ all_short free.now }
{
    free.iter().all(|pair| pair.count <= MOST_PAIR_SECTORS)
}
