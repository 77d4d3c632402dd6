// The calls of a table of pairs.
ghost use Rattle.std.specs.Prelude.{◌≡◌, [], Decides};
ghost use Rattle.device.specs.Cuts.{Among};
ghost use Rattle.pairs.specs.Pairs.{added, place, within, reached};
ghost use Rattle.pairs.specs.View.{pairs_of};
ghost use Rattle.pairs.specs.Law.{Adding, sectors, Numbered};

use crate::fault::PairFault;
use crate::pair::{MOST_PAIRS, Pair};
use crate::search::{one_holds, place_of};
use crate::table::Pairs;

impl Pairs {
    // No pair yet.
    pub fn none() -> Pairs
        ensures { pairs_of result ≡ [] }
    {
        Pairs {
            items: [Pair::default(); MOST_PAIRS],
            len: 0,
            end: 0,
        }
    }

    // The pairs, in their order.
    fn all(&self) -> &[Pair]
        ensures { result.now ≡ pairs_of self.now }
    {
        &self.items[..self.len]
    }

    // The conditions of a pair in their order.
    fn accept(&mut self, pair: Pair, count: u32) -> Result<(), PairFault>
        ensures { (result, pairs_of self.new) ≡ added (pairs_of self.old) pair count }
    {
        if self.len >= MOST_PAIRS || pair.length == 0 {
            return Err(PairFault::OffLimits);
        }
        if pair.offset < self.end {
            return Err(PairFault::OutOfOrder);
        }
        if pair.end() > u64::from(count) {
            return Err(PairFault::PastTheEnd);
        }
        self.items[self.len] = pair;
        self.len += 1;
        self.end = pair.offset + pair.length;
        Ok(())
    }

    // One more pair, over a device of so many sectors.
    pub fn add(&mut self, pair: Pair, count: u32) -> Result<(), PairFault>
        ensures value { (result, pairs_of self.new) ≡ added (pairs_of self.old) pair count }
        ensures law { Adding (pairs_of self.old) pair count result (pairs_of self.new) }
    {
        self.accept(pair, count)
    }

    // The sector below that has a number among the pairs' sectors, which are counted in order.
    pub fn place(&self, sector: u32) -> Option<u32>
        ensures value { result ≡ place (pairs_of self.now) sector }
        ensures law { Numbered (pairs_of self.now) sector result }
    {
        place_of(self.all(), sector)
    }

    // Whether a sector below lies inside a pair.
    pub fn hold(&self, sector: u32) -> bool
        ensures value { result ≡ within (pairs_of self.now) sector }
        ensures law { Decides result (Among sector (sectors (pairs_of self.now))) }
    {
        one_holds(self.all(), sector)
    }

    // How many of the pairs' sectors a device of so many sectors has.
    #[tactic(auto, unfolding(crate::specs::Pairs::reached))]
    pub fn reached(&self, count: u32) -> u32
        ensures { result ≡ reached (pairs_of self.now) count }
    {
        self.all().iter().map(|pair| pair.reached(count)).sum()
    }
}
