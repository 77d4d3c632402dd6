// Refusals of pairs in words, with their numbers.
use crate::fault::PairFault;
use std::error::Error;
use std::fmt;

impl fmt::Display for PairFault {
    fn fmt<W: fmt::Write>(&self, f: &mut fmt::Formatter<W>) -> fmt::Result {
        let words = match self {
            PairFault::OffLimits => "a ninth pair, or one of no sector",
            PairFault::OutOfOrder => "it starts before the end of the pair before it",
            PairFault::PastTheEnd => "it ends past the device below",
        };
        write!(f, "refused {}: {words}", self.number())
    }
}

impl Error for PairFault {}
