// The gather layer.
ghost use Rattle.std.specs.Prelude.{length};
ghost use Rattle.pairs.specs.Pairs.{reached};
ghost use Rattle.pairs.specs.Law.{sectors};
ghost use Rattle.pairs.proofs.Placing.{whole_added};
ghost use Rattle.gather.specs.Gathered.{gathered, gather_origins, gather_source, CutsRise};
ghost use Rattle.gather.specs.Gathering.{gathered_keeps, cuts_rise};

use device::fault::{self, DeviceFault, Reason};
use device::interface::Device;
use layer::kind::Kind;
use layer::layer::Layer;
use pairs::table::Pairs;

// A device whose sectors are those of its pairs, in the order of the pairs.
pub type Gather<D> = Layer<Gathering, D>;

// The kind of a layer that has the sectors of its pairs.
pub struct Gathering;

impl Kind for Gathering {
    ghost over = { gathered };

    ghost origins = { gather_origins };

    ghost count = { reached };

    ghost full = { λ ps n. length (sectors ps) };

    ghost source = { gather_source };

    ghost target = { λ ps n s. gather_source ps s };

    ghost CutLaw = { CutsRise };

    ghost keeps = { gathered_keeps };

    ghost whole = { whole_added };

    ghost cut_law = { cuts_rise };

    fn count(pairs: &Pairs, below: u32) -> u32 {
        pairs.reached(below)
    }

    // A sector that no pair has is refused.
    fn source(pairs: &Pairs, sector: u32) -> Result<u32, DeviceFault> {
        pairs.place(sector).ok_or(DeviceFault::arising(
            Reason::OffDevice,
            fault::Layer::Gather,
            sector,
        ))
    }

    fn target(pairs: &Pairs, _below: u32, sector: u32) -> Result<u32, DeviceFault> {
        Self::source(pairs, sector)
    }

    // No count is asked for: nothing hangs on it.
    fn target_over<D: Device>(pairs: &Pairs, _below: &D, sector: u32) -> Result<u32, DeviceFault> {
        Self::target(pairs, 0, sector)
    }
}
