// Why the tool could not do what it was asked.
ghost use Rattle.std.specs.Prelude.{◌≡◌};
ghost use Rattle.image.specs.declared.fault.Fault.TheVariants.{Io, OffLimits as Limit};

use encode::limits::OffLimits;
use std::error::Error;
use std::{fmt, io};

// A fault of the tool.
#[derive(Debug, Drop)]
pub enum Fault {
    // the system refused to open, read or print
    Io(io::Error),
    // a descriptor would pass a limit
    OffLimits(OffLimits),
    // the image has no sector
    Empty,
    // the image ends inside a sector
    Partial { sector: u32, bytes: usize },
    // the image has more sectors than a card can number
    TooLong,
    // the words on the command line mean nothing
    Usage,
}

// Each type of fault has conversions of its own: those that `thiserror` derives have no contract.
impl From<io::Error> for Fault {
    ghost from_gives = { λ e r. r ≡ Io e };

    fn from(refused: io::Error) -> Fault {
        Fault::Io(refused)
    }
}

impl From<OffLimits> for Fault {
    ghost from_gives = { λ e r. r ≡ Limit e };

    fn from(passed: OffLimits) -> Fault {
        Fault::OffLimits(passed)
    }
}

impl fmt::Display for Fault {
    fn fmt<W: fmt::Write>(&self, f: &mut fmt::Formatter<W>) -> fmt::Result {
        match self {
            Fault::Io(error) => write!(f, "{error}"),
            Fault::OffLimits(limit) => write!(f, "{limit}"),
            Fault::Empty => write!(f, "the image is shorter than one sector of 2048 bytes"),
            Fault::Partial { sector, bytes } => write!(
                f,
                "the image ends inside sector {sector}, after {bytes} of its 2048 bytes"
            ),
            Fault::TooLong => write!(f, "the image has more sectors than a card can number"),
            Fault::Usage => write!(f, "usage: cardtool, or cardtool inspect FILE"),
        }
    }
}

impl Error for Fault {}
