// What is found in a sector whose place is not known.
ghost use Rattle.std.specs.Prelude.{◌≡◌};
ghost use Rattle.inspection.specs.Findings.{tag_blank, no_descriptor, found_in, examined, Examined};
ghost use Rattle.recognition.specs.Structure.{structure_in};

use descriptor::checks::sum_holds;
use descriptor::decode::decode;
use descriptor::kinds::{Descriptor, Place, Sector};
use descriptor::refusal::Refusal;
use recognition::structure::{Structure, recognise};

// What a sector is.
#[derive(Clone, Copy)]
pub enum Finding<'a> {
    // a descriptor in a place
    Descriptor(Place, Descriptor<'a>),
    // a volume structure descriptor
    Structure(Structure),
    // looks like a descriptor, by its tag's sum, and is refused in every place
    Refused(Refusal),
    // its tag is all zeros
    Blank,
    // anything else
    Other,
}

// Whether the tag's sixteen bytes are all zero.
fn is_blank(sector: &Sector) -> bool
    ensures { result ≡ tag_blank sector.now }
{
    let tag = &sector[0..16];
    tag.iter().all(|byte| *byte == 0)
}

// What a sector is that is a descriptor in no place, for a reason.
fn undescribed(sector: &Sector, reason: Refusal) -> Finding<'_>
    ensures { found_in result ≡ no_descriptor sector.now reason (structure_in sector.now) }
{
    match recognise(sector) {
        Some(structure) => Finding::Structure(structure),
        None if is_blank(sector) => Finding::Blank,
        None if sum_holds(sector) => Finding::Refused(reason),
        None => Finding::Other,
    }
}

// The places in turn.
fn tried(sector: &Sector, number: u32) -> Finding<'_>
    ensures { found_in result ≡ examined sector.now number }
{
    if let Ok(found) = decode(sector, number, Place::Anchor) {
        return Finding::Descriptor(Place::Anchor, found);
    }
    if let Ok(found) = decode(sector, number, Place::Sequence) {
        return Finding::Descriptor(Place::Sequence, found);
    }
    match decode(sector, number, Place::IntegrityExtent) {
        Ok(found) => Finding::Descriptor(Place::IntegrityExtent, found),
        Err(reason) => undescribed(sector, reason),
    }
}

// What the sector with this number is: the first place in which it is a descriptor, else what else it is.
pub fn examine(sector: &Sector, number: u32) -> Finding<'_>
    ensures value { found_in result ≡ examined sector.now number }
    ensures law { Examined sector.now number (found_in result) }
{
    tried(sector, number)
}
