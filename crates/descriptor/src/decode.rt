// A sector read as a descriptor.
ghost use Rattle.std.specs.Prelude.{◌≡◌};
ghost use Rattle.std.specs.Option.{ok_or};
ghost use Rattle.octets.specs.Fields.{u16_at, u32_at};
ghost use Rattle.descriptor.specs.Law.{Reading};
ghost use Rattle.descriptor.specs.declared.refusal.Refusal.TheVariants.{Kind as KindRefused};
ghost use Rattle.descriptor.specs.Kinds.{fields_of};
ghost use Rattle.descriptor.specs.Named.{NamedBy};
ghost use Rattle.descriptor.specs.Numbers.{kind_number, state_number};
ghost use Rattle.descriptor.specs.Decode.{extent_at, primary_in, anchor_in, implementation_use_in, partition_in, logical_volume_in, unallocated_space_in, terminating_in, integrity_in, if_so, found, kind_in, decoded, answer};
ghost use Rattle.descriptor.specs.Checks.{logical_volume_fits, unallocated_space_fits, integrity_fits};

use crate::checks::{
    crc_holds, location_holds, logical_volume_holds, tag_holds, unallocated_space_holds,
};
use crate::kinds::{
    Descriptor, Extent, Integrity, Kind, MOST_PARTITIONS, Partition, Place, Sector,
};
use crate::refusal::Refusal;
use octets::fields::{u16_at, u32_at};

// The extent at an offset.
pub fn extent(bytes: &[u8], at: usize) -> Extent
    ensures { result ≡ extent_at bytes.now at }
{
    Extent {
        length: u32_at(bytes, at),
        location: u32_at(bytes, at.saturating_add(4)),
    }
}

fn primary(sector: &Sector) -> Descriptor<'_>
    ensures { fields_of result ≡ primary_in sector.now }
{
    Descriptor::Primary {
        serial: u16_at(sector, 6),
        sequence: u32_at(sector, 16),
        volume: &sector[24..56],
        volume_set: &sector[72..200],
        recorded: &sector[376..388],
    }
}

fn anchor(sector: &Sector) -> Descriptor<'_>
    ensures { fields_of result ≡ anchor_in sector.now }
{
    Descriptor::Anchor {
        serial: u16_at(sector, 6),
        main: extent(sector, 16),
        reserve: extent(sector, 24),
    }
}

fn implementation_use(sector: &Sector) -> Descriptor<'_>
    ensures { fields_of result ≡ implementation_use_in sector.now }
{
    Descriptor::ImplementationUse {
        serial: u16_at(sector, 6),
        sequence: u32_at(sector, 16),
    }
}

fn partition(sector: &Sector) -> Descriptor<'_>
    ensures { fields_of result ≡ partition_in sector.now }
{
    let partition = Partition {
        number: u16_at(sector, 22),
        access: u32_at(sector, 184),
        first: u32_at(sector, 188),
        count: u32_at(sector, 192),
    };
    Descriptor::Partition {
        serial: u16_at(sector, 6),
        sequence: u32_at(sector, 16),
        flags: u16_at(sector, 20),
        partition,
    }
}

fn logical_volume(sector: &Sector) -> Option<Descriptor<'_>>
    ensures { found result ≡ if_so (logical_volume_fits sector.now) (logical_volume_in sector.now) }
{
    if !logical_volume_holds(sector) {
        return None;
    }
    let maps = u32_at(sector, 264);
    Some(Descriptor::LogicalVolume {
        serial: u16_at(sector, 6),
        sequence: u32_at(sector, 16),
        identifier: &sector[84..212],
        block_size: u32_at(sector, 212),
        maps: &sector[440..440 + maps as usize],
        integrity: extent(sector, 432),
    })
}

fn unallocated_space(sector: &Sector) -> Option<Descriptor<'_>>
    ensures { found result ≡ if_so (unallocated_space_fits sector.now) (unallocated_space_in sector.now) }
{
    if !unallocated_space_holds(sector) {
        return None;
    }
    let extents = u32_at(sector, 20);
    Some(Descriptor::UnallocatedSpace {
        serial: u16_at(sector, 6),
        sequence: u32_at(sector, 16),
        extents: &sector[24..24 + 8 * extents as usize],
    })
}

fn terminating(sector: &Sector) -> Descriptor<'_>
    ensures { fields_of result ≡ terminating_in sector.now }
{
    Descriptor::Terminating {
        serial: u16_at(sector, 6),
    }
}

// What the integrity type says, if it says something.
fn state_of(sector: &Sector) -> Option<Integrity>
    ensures { NamedBy state_number (u32_at sector.now 28) result }
{
    Integrity::try_from(u32_at(sector, 28)).ok()
}

fn integrity(sector: &Sector) -> Option<Descriptor<'_>>
    ensures { found result ≡ if_so (integrity_fits sector.now) (integrity_in sector.now) }
{
    let state = state_of(sector)?;
    let partitions = u32_at(sector, 72);
    if partitions > MOST_PARTITIONS {
        return None;
    }
    let sizes_at = 80 + 4 * partitions as usize;
    Some(Descriptor::Integrity {
        serial: u16_at(sector, 6),
        recorded: &sector[16..28],
        state,
        next: extent(sector, 32),
        partitions,
        sizes: &sector[sizes_at..sizes_at + 4 * partitions as usize],
    })
}

// The kind that the tag names, if it is one of ours.
fn kind_of(sector: &Sector) -> Option<Kind>
    ensures { NamedBy kind_number (u16_at sector.now 0) result }
{
    Kind::try_from(u16_at(sector, 0)).ok()
}

// Check 4: the descriptor that the sector's kind is in its place, as `decode` answers it, so that what is always one is made
// where it is handed on.
fn in_place(sector: &Sector, place: Place) -> Result<Descriptor<'_>, Refusal>
    ensures { answer result ≡ ok_or (kind_in place sector.now) KindRefused }
{
    let Some(kind) = kind_of(sector) else {
        return Err(Refusal::Kind);
    };
    match (place, kind) {
        (Place::Anchor, Kind::Anchor) => Ok(anchor(sector)),
        (Place::Sequence, Kind::Primary) => Ok(primary(sector)),
        (Place::Sequence, Kind::ImplementationUse) => Ok(implementation_use(sector)),
        (Place::Sequence, Kind::Partition) => Ok(partition(sector)),
        (Place::Sequence, Kind::LogicalVolume) => logical_volume(sector).ok_or(Refusal::Kind),
        (Place::Sequence, Kind::UnallocatedSpace) => unallocated_space(sector).ok_or(Refusal::Kind),
        (Place::Sequence | Place::IntegrityExtent, Kind::Terminating) => Ok(terminating(sector)),
        (Place::IntegrityExtent, Kind::Integrity) => integrity(sector).ok_or(Refusal::Kind),
        _ => Err(Refusal::Kind),
    }
}

// The four checks in their order.
fn checked(sector: &Sector, number: u32, place: Place) -> Result<Descriptor<'_>, Refusal>
    ensures { answer result ≡ decoded sector.now number place }
{
    if !tag_holds(sector) {
        return Err(Refusal::Tag);
    }
    if !location_holds(sector, number) {
        return Err(Refusal::Location);
    }
    if !crc_holds(sector) {
        return Err(Refusal::Crc);
    }
    in_place(sector, place)
}

// The sector with this number, read in its place: what it holds, or the check that it fails first. Sector and number are two
// arguments: a struct of both would be made at each call, and taken apart at once.
pub fn decode(sector: &Sector, number: u32, place: Place) -> Result<Descriptor<'_>, Refusal>
    ensures value { answer result ≡ decoded sector.now number place }
    ensures law { Reading sector.now number place (answer result) }
{
    checked(sector, number, place)
}
