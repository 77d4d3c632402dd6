// The pairs that a layer keeps.
ghost use Rattle.std.specs.Prelude.{◌≡◌, ◌≤◌, ⊤, true, take};
ghost use Rattle.pairs.specs.Pairs.{in_order, end_after};

use crate::pair::{MOST_PAIRS, Pair};
use std::alloc::AllocError;

// Up to 8 pairs, the first `len` of the items, each at or past the end of the one before; `end` is where the last one ends. An
// array with a count, and not an `ArrayVec`, so that a table is copied by being named. Their order is a ghost field, and no
// model hides it: the laws of a layer are proved from it.
#[derive(Copy)]
pub struct Pairs {
    pub(crate) items: [Pair; MOST_PAIRS],
    pub(crate) len: usize,
    pub(crate) end: u32,
    ghost few: { len ≤ 8 },
    ghost ordered: { in_order 0 (take len items) ≡ true },
    ghost ends: { end ≡ end_after 0 (take len items) },
}

// By hand, and not derived, so that an edit can try it.
impl Clone for Pairs {
    ghost is_clone = { λ x y. y ≡ x };

    ghost is_infallible = { λ _. ⊤ };

    fn clone(&self) -> Result<Pairs, AllocError> {
        Ok(*self)
    }
}
