// A layer over a device.
ghost use Rattle.std.specs.Prelude.{◌≡◌, [], OnOk};
ghost use Rattle.pairs.specs.Pairs.{added};
ghost use Rattle.pairs.specs.View.{pairs_of};

use crate::kind::Kind;
use descriptor::kinds::Sector;
use device::fault::{DeviceFault, hand_up};
use device::interface::Device;
use pairs::fault::PairFault;
use pairs::pair::Pair;
use pairs::table::Pairs;
use std::marker::PhantomData;

// A device that is made of the device below and the layer's pairs, as its kind says.
#[derive(Drop)]
pub struct Layer<K, D> {
    below: D,
    pairs: Pairs,
    kind: PhantomData<K>,
}

impl<K: Kind, D: Device> Layer<K, D> {
    // A layer with no pair yet.
    pub fn over(below: D) -> Layer<K, D>
        ensures below { result.below ≡ below }
        ensures pairs { pairs_of result.pairs ≡ [] }
        ensures cuts { K.CutLaw (pairs_of result.pairs) }
    {
        let pairs = Pairs::none();
        Layer {
            below,
            pairs,
            kind: PhantomData,
        }
    }

    // One more pair. Once it is accepted, all pairs lie below, and the layer has its full count.
    pub fn add(&mut self, pair: Pair) -> Result<(), PairFault>
        ensures value { (result, pairs_of self.new.pairs) ≡ added (pairs_of self.old.pairs) pair (D.model self.old.below).count }
        ensures below { self.new.below ≡ self.old.below }
        ensures whole { OnOk result (K.count (pairs_of self.new.pairs) (D.model self.new.below).count ≡ K.full (pairs_of self.new.pairs) (D.model self.new.below).count) }
        ensures cuts { K.CutLaw (pairs_of self.new.pairs) }
    {
        let count = self.below.count();
        self.pairs.add(pair, count)
    }

    // The device below.
    pub fn below(&self) -> &D
        ensures { result.now ≡ self.now.below }
    {
        &self.below
    }

    // The layer taken apart for the device below.
    pub fn into_below(self) -> D
        ensures { result ≡ self.below }
    {
        let Layer {
            below,
            pairs: _,
            kind: _,
        } = self;
        below
    }
}

impl<K: Kind, D: Device> Device for Layer<K, D> {
    ghost model = { λ l. K.over (pairs_of l.pairs) (D.model l.below) };

    ghost origins = { λ l. K.origins (pairs_of l.pairs) (D.origins l.below) };

    ghost sound = { λ l. (K.keeps (pairs_of l.pairs) l.pairs.ordered).sound (D.model l.below) (D.sound l.below) };

    fn count(&self) -> u32 {
        K::count(&self.pairs, self.below.count())
    }

    fn tally(&self) -> u64 {
        self.below.tally()
    }

    fn takes_writes(&self, sector: u32) -> bool {
        K::takes_over(&self.pairs, &self.below, sector)
    }

    fn read(&self, sector: u32, area: &mut Sector) -> Result<(), DeviceFault> {
        let at = K::source(&self.pairs, sector)?;
        hand_up(self.below.read(at, area))
    }

    fn write(&mut self, sector: u32, bytes: &Sector) -> Result<(), DeviceFault> {
        let at = K::target_over(&self.pairs, &self.below, sector)?;
        hand_up(self.below.write(at, bytes))
    }

    fn settle(&mut self) {
        self.below.settle();
    }
}
