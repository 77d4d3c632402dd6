// Pairs gone through in their order.
ghost use Rattle.std.specs.Prelude.{◌≡◌, true};
ghost use Rattle.pairs.specs.Pairs.{in_order, place, within};

use crate::pair::Pair;

// The sector below that has a number among the pairs' sectors. A `for`, since each pair changes what is left of the number.
#[tactic(auto, unfolding(crate::specs::Pairs::place))]
pub(crate) fn place_of(pairs: &[Pair], sector: u32) -> Option<u32>
    requires { in_order 0 pairs.now ≡ true }
    ensures { result ≡ place pairs.now sector }
{
    let mut rest = sector;
    for pair in pairs {
        if rest < pair.length {
            return Some(pair.offset + rest);
        }
        rest -= pair.length;
    }
    None
}

// Whether some pair holds a sector.
#[tactic(auto, unfolding(crate::specs::Pairs::within))]
pub(crate) fn one_holds(pairs: &[Pair], sector: u32) -> bool
    ensures { result ≡ within pairs.now sector }
{
    pairs.iter().any(|pair| pair.holds(sector))
}
