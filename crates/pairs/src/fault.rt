// Why a pair is refused.
ghost use Rattle.std.specs.Prelude.{◌≡◌};
ghost use Rattle.pairs.specs.Faults.{number_of};

// The first condition that fails: there is room for it and it has a length; it starts at or past the end of the one before;
// it ends within the device below.
#[derive(Clone, Copy, PartialEq, Eq, Debug)]
pub enum PairFault {
    OffLimits = 34,
    OutOfOrder = 33,
    PastTheEnd = 30,
}

impl PairFault {
    // The refusal's number, in a line of its own as for each type of refusal.
    pub fn number(self) -> u8
        ensures { result ≡ number_of self }
    {
        self as u8
    }
}
