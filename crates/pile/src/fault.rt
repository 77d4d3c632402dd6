// Why the pile could not be shown.
ghost use Rattle.std.specs.Prelude.{◌≡◌};
ghost use Rattle.pile.specs.declared.fault.Fault.TheVariants.{Io, Memory, Device, Pair};

use device::fault::DeviceFault;
use pairs::fault::PairFault;
use std::alloc::AllocError;
use std::error::Error;
use std::{fmt, io};

// A fault of the demonstration.
#[derive(Debug, Drop)]
pub enum Fault {
    // the system refused to print
    Io(io::Error),
    // there was no memory
    Memory(AllocError),
    // a device refused
    Device(DeviceFault),
    // a layer refused a pair
    Pair(PairFault),
}

// Each type of fault has conversions of its own: those that `thiserror` derives have no contract.
impl From<io::Error> for Fault {
    ghost from_gives = { λ e r. r ≡ Io e };

    fn from(refused: io::Error) -> Fault {
        Fault::Io(refused)
    }
}

impl From<AllocError> for Fault {
    ghost from_gives = { λ e r. r ≡ Memory e };

    fn from(refused: AllocError) -> Fault {
        Fault::Memory(refused)
    }
}

impl From<DeviceFault> for Fault {
    ghost from_gives = { λ e r. r ≡ Device e };

    fn from(below: DeviceFault) -> Fault {
        Fault::Device(below)
    }
}

impl From<PairFault> for Fault {
    ghost from_gives = { λ e r. r ≡ Pair e };

    fn from(below: PairFault) -> Fault {
        Fault::Pair(below)
    }
}

impl fmt::Display for Fault {
    fn fmt<W: fmt::Write>(&self, f: &mut fmt::Formatter<W>) -> fmt::Result {
        match self {
            Fault::Io(error) => write!(f, "{error}"),
            Fault::Memory(_) => write!(f, "there is no memory"),
            Fault::Device(fault) => write!(f, "{fault}"),
            Fault::Pair(fault) => write!(f, "{fault}"),
        }
    }
}

impl Error for Fault {}
