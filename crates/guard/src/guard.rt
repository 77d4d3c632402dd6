// The guard layer.
ghost use Rattle.guard.specs.Guarded.{guarded, guard_origins, guard_target, CutsRise};
ghost use Rattle.guard.specs.Guarding.{guarded_keeps, guarded_whole, cuts_rise};
ghost use Rattle.std.specs.Prelude.{Ok};

use device::fault::{self, DeviceFault, Reason};
use device::interface::Device;
use layer::kind::Kind;
use layer::layer::Layer;
use pairs::table::Pairs;

// A device that is the one below, but takes no writes inside its pairs.
pub type Guard<D> = Layer<Guarding, D>;

// The kind of a layer that takes no writes inside its pairs.
pub struct Guarding;

impl Kind for Guarding {
    ghost over = { guarded };

    ghost origins = { guard_origins };

    ghost count = { λ ps n. n };

    ghost full = { λ ps n. n };

    ghost source = { λ ps s. Ok s };

    ghost target = { guard_target };

    ghost CutLaw = { CutsRise };

    ghost keeps = { λ ps ordered. guarded_keeps ps };

    ghost whole = { guarded_whole };

    ghost cut_law = { λ ps ordered. cuts_rise ps };

    fn count(_pairs: &Pairs, below: u32) -> u32 {
        below
    }

    fn source(_pairs: &Pairs, sector: u32) -> Result<u32, DeviceFault> {
        Ok(sector)
    }

    // A write inside a pair is refused, unless there is no such sector.
    fn target(pairs: &Pairs, below: u32, sector: u32) -> Result<u32, DeviceFault> {
        if sector < below && pairs.hold(sector) {
            return Err(DeviceFault::arising(Reason::TakesNoWrites, fault::Layer::Guard, sector));
        }
        Ok(sector)
    }

    // No count is asked for: where there is no such sector, none takes writes below.
    fn takes_over<D: Device>(pairs: &Pairs, below: &D, sector: u32) -> bool {
        below.takes_writes(sector) && !pairs.hold(sector)
    }
}
