// How many sectors of each sort an inspection met.
ghost use Rattle.std.specs.Prelude.{◌≡◌, ◌-◌, ◌^◌, min};
ghost use Rattle.inspection.specs.Counts.{nothing_met, noted, all_met};
ghost use Rattle.inspection.specs.Findings.{found_in};

use crate::finding::Finding;
use std::fmt;

// The counts, which stop at the largest number.
#[derive(Clone, Copy, PartialEq, Eq, Debug, Default)]
pub struct Summary {
    pub descriptors: u64,
    pub structures: u64,
    pub refused: u64,
    pub blank: u64,
    pub other: u64,
}

impl Summary {
    // Nothing met yet.
    pub fn new() -> Summary
        ensures { result ≡ nothing_met }
    {
        Summary::default()
    }

    // One sector more.
    pub fn note(&mut self, finding: Finding<'_>)
        ensures { self.new ≡ noted (found_in finding.entry) self.old }
    {
        match finding {
            Finding::Descriptor(_, _) => self.descriptors = self.descriptors.saturating_add(1),
            Finding::Structure(_) => self.structures = self.structures.saturating_add(1),
            Finding::Refused(_) => self.refused = self.refused.saturating_add(1),
            Finding::Blank => self.blank = self.blank.saturating_add(1),
            Finding::Other => self.other = self.other.saturating_add(1),
        }
    }

    // All sectors met.
    pub fn sectors(&self) -> u64
        ensures { result ≡ min (all_met self.now) (2 ^ 64 - 1) }
    {
        self.descriptors
            .saturating_add(self.structures)
            .saturating_add(self.refused)
            .saturating_add(self.blank)
            .saturating_add(self.other)
    }
}

impl fmt::Display for Summary {
    fn fmt<W: fmt::Write>(&self, f: &mut fmt::Formatter<W>) -> fmt::Result {
        let Summary {
            descriptors,
            structures,
            refused,
            blank,
            other,
        } = self;
        write!(
            f,
            "sectors: {}; descriptors: {descriptors}; volume structure descriptors: {structures}; refused: {refused}; blank: {blank}; other: {other}",
            self.sectors()
        )
    }
}
