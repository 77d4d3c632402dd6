// The interface of every sort of layer.
ghost use Rattle.std.specs.Prelude.{◌≡◌, ℕ, true, List, Result, IfOk};
ghost use Rattle.device.specs.Model.{Model};
ghost use Rattle.device.specs.Faults.{Origins};
ghost use Rattle.pairs.specs.declared.pair.Pair.{Pair};
ghost use Rattle.pairs.specs.declared.fault.PairFault.{PairFault};
ghost use Rattle.pairs.specs.Pairs.{in_order};
ghost use Rattle.pairs.specs.View.{pairs_of};
ghost use Rattle.pairs.specs.Law.{Adding};
ghost use Rattle.layer.specs.Kept.{Passed, takes_there, Keeps};

use device::fault::DeviceFault;
use device::interface::Device;
use pairs::table::Pairs;

// What a layer with some pairs makes of the device below.
pub trait Kind {
    // the device that the layer is
    ghost over: { List Pair → Model → Model };

    // where its refusals arise
    ghost origins: { List Pair → Origins → Origins };

    // how many sectors it has over a device of so many
    ghost count: { List Pair → ℕ → ℕ };

    // its full count: how many it has where all its pairs lie below
    ghost full: { List Pair → ℕ → ℕ };

    // where a read of a sector goes
    ghost source: { List Pair → ℕ → Passed };

    // where a write to a sector goes, over a device of so many
    ghost target: { List Pair → ℕ → ℕ → Passed };

    // what is known of its power cuts
    ghost CutLaw: { List Pair → Type 0 };

    // How many sectors the layer has over a device of so many.
    fn count(pairs: &Pairs, below: u32) -> u32
        ensures { result ≡ count (pairs_of pairs.now) below };

    // The sector below that is read for a sector, or the layer's own refusal.
    fn source(pairs: &Pairs, sector: u32) -> Result<u32, DeviceFault>
        ensures { result ≡ source (pairs_of pairs.now) sector };

    // The sector below that is written for a sector, over a device of so many, or the layer's own refusal.
    fn target(pairs: &Pairs, below: u32, sector: u32) -> Result<u32, DeviceFault>
        ensures { result ≡ target (pairs_of pairs.now) below sector };

    // The same over a device. A layer's write asks this, so that a kind for which nothing hangs on the count below need not ask
    // for it.
    fn target_over<D: Device>(pairs: &Pairs, below: &D, sector: u32) -> Result<u32, DeviceFault>
        ensures { result ≡ target (pairs_of pairs.now) (D.model below.now).count sector }
    {
        Self::target(pairs, below.count(), sector)
    }

    // Whether a sector takes writes over a device. Where a kind can tell without the count below, a question goes down a pile
    // of layers once, and not once more at each of them.
    fn takes_over<D: Device>(pairs: &Pairs, below: &D, sector: u32) -> bool
        ensures { result ≡ takes_there (target (pairs_of pairs.now) (D.model below.now).count sector) (D.model below.now) }
    {
        let target = Self::target_over(pairs, below, sector);
        target.is_ok_and(|at| below.takes_writes(at))
    }

    // the layer keeps the meaning of a device
    ghost keeps: { (ps : List Pair) → in_order 0 ps ≡ true → Keeps (over ps) (origins ps) (count ps) (source ps) (target ps) };

    // once a pair is accepted, its count is the full one
    ghost whole: { (ps : List Pair) (p : Pair) (n : ℕ) (r : Result (Unit {0}) PairFault) (after : List Pair) → Adding ps p n r after → in_order 0 after ≡ true → IfOk r (λ _. count after n ≡ full after n) };

    // what is known of its power cuts holds
    ghost cut_law: { (ps : List Pair) → in_order 0 ps ≡ true → CutLaw ps };
}
