// Findings in words, as the tool prints them. What stands here is told of bytes, of a number or of two values, which have no type
// of their own, or takes the rows of tables, which are above the type.
#![tactic(auto)]

use descriptor::kinds::{self, BLOCK_BYTES, Descriptor, Extent, Partition, PartitionMap, Unknown};
use inspection::finding::Finding;
use octets::fields::{byte_at, u16_at};
use std::fmt;
use tables::rows::{Row, read_row};

// An identifier: its printable ASCII characters up to the last byte that is not zero, any other byte as a dot.
#[derive(Clone, Copy)]
pub struct Name<'a>(pub &'a [u8]);

impl fmt::Display for Name<'_> {
    fn fmt<W: fmt::Write>(&self, f: &mut fmt::Formatter<W>) -> fmt::Result {
        let last = self.0.iter().rposition(|byte| *byte != 0);
        let end = last.map_or(0, |last| last + 1);
        for byte in &self.0[..end] {
            let shown = if byte.is_ascii_graphic() || *byte == b' ' {
                char::from(*byte)
            } else {
                '.'
            };
            f.write_char(shown)?;
        }
        Ok(())
    }
}

// A recording date, without its time zone and the parts of a second. A date of zeros is the format's way to give none.
#[derive(Clone, Copy)]
pub struct Date<'a>(pub &'a [u8]);

impl fmt::Display for Date<'_> {
    fn fmt<W: fmt::Write>(&self, f: &mut fmt::Formatter<W>) -> fmt::Result {
        let year = u16_at(self.0, 2);
        let month = byte_at(self.0, 4);
        let day = byte_at(self.0, 5);
        let hour = byte_at(self.0, 6);
        let minute = byte_at(self.0, 7);
        let second = byte_at(self.0, 8);
        if year == 0 && month == 0 && day == 0 {
            return write!(f, "on no date");
        }
        write!(
            f,
            "{year:04}-{month:02}-{day:02} {hour:02}:{minute:02}:{second:02}"
        )
    }
}

// The partition numbers of a map table, in its order. (This and the extents are two types: one for both would take the words of a
// row besides, and be longer.) A row comes from `read_row`, whose contract says that it is the table's whole row there.
#[derive(Clone, Copy)]
pub struct Maps<'a>(pub &'a [u8]);

impl fmt::Display for Maps<'_> {
    fn fmt<W: fmt::Write>(&self, f: &mut fmt::Formatter<W>) -> fmt::Result {
        let rows = self.0.len() / PartitionMap::WIDTH;
        write!(f, "maps: {rows}")?;
        for map in (0..rows).filter_map(|row| read_row::<PartitionMap>(self.0, row)) {
            let PartitionMap {
                kind,
                volume,
                number,
                ..
            } = map;
            write!(f, ", partition {number} (type {kind}, volume {volume})")?;
        }
        Ok(())
    }
}

// The extents of unallocated space, in whole sectors.
#[derive(Clone, Copy)]
pub struct Free<'a>(pub &'a [u8]);

impl fmt::Display for Free<'_> {
    fn fmt<W: fmt::Write>(&self, f: &mut fmt::Formatter<W>) -> fmt::Result {
        let rows = self.0.len() / Extent::WIDTH;
        write!(f, "free extents: {rows}")?;
        for extent in (0..rows).filter_map(|row| read_row::<Extent>(self.0, row)) {
            let Extent { length, location } = extent;
            write!(f, ", {} sectors from {location}", length / BLOCK_BYTES)?;
        }
        Ok(())
    }
}

// How a partition may be written, by its access type: any number, since any may stand on a card.
#[derive(Clone, Copy)]
pub struct Access(pub u32);

impl fmt::Display for Access {
    fn fmt<W: fmt::Write>(&self, f: &mut fmt::Formatter<W>) -> fmt::Result {
        match kinds::Access::try_from(self.0) {
            Ok(known) => write!(f, "{known}"),
            Err(Unknown(number)) => write!(f, "access type {number}"),
        }
    }
}

// A partition, with whether its space is allocated.
#[derive(Clone, Copy)]
pub struct Allotted {
    pub partition: Partition,
    pub flags: u16,
}

impl fmt::Display for Allotted {
    fn fmt<W: fmt::Write>(&self, f: &mut fmt::Formatter<W>) -> fmt::Result {
        let Partition {
            number,
            access,
            first,
            count,
        } = self.partition;
        let access = Access(access);
        write!(
            f,
            "partition {number}, {access}, {count} sectors from {first}"
        )?;
        if self.flags % 2 == 0 {
            write!(f, ", not allocated")
        } else {
            Ok(())
        }
    }
}

// The sequence number of a descriptor that has one: a part of its fields, as below.
#[derive(Clone, Copy)]
pub struct Sequenced<'a>(pub Descriptor<'a>);

impl fmt::Display for Sequenced<'_> {
    fn fmt<W: fmt::Write>(&self, f: &mut fmt::Formatter<W>) -> fmt::Result {
        match self.0 {
            Descriptor::Primary { sequence, .. }
            | Descriptor::ImplementationUse { sequence, .. }
            | Descriptor::Partition { sequence, .. }
            | Descriptor::LogicalVolume { sequence, .. }
            | Descriptor::UnallocatedSpace { sequence, .. } => {
                write!(f, ", sequence number {sequence}")
            }
            _ => Ok(()),
        }
    }
}

// The main fields of the descriptors of a volume as a whole. One match of all eight kinds would be longer than the 40 lines that
// a function may have here, so the fields come in parts.
#[derive(Clone, Copy)]
pub struct VolumeFields<'a>(pub Descriptor<'a>);

impl fmt::Display for VolumeFields<'_> {
    fn fmt<W: fmt::Write>(&self, f: &mut fmt::Formatter<W>) -> fmt::Result {
        match self.0 {
            Descriptor::Primary {
                volume,
                volume_set,
                recorded,
                ..
            } => {
                let volume = Name(volume);
                let volume_set = Name(volume_set);
                let recorded = Date(recorded);
                write!(
                    f,
                    ", volume \"{volume}\", volume set \"{volume_set}\", recorded {recorded}"
                )
            }
            Descriptor::Anchor { main, reserve, .. } => {
                write!(f, ", main sequence {main}, reserve sequence {reserve}")
            }
            Descriptor::LogicalVolume {
                identifier,
                block_size,
                maps,
                integrity,
                ..
            } => {
                let identifier = Name(identifier);
                let maps = Maps(maps);
                write!(
                    f,
                    ", volume \"{identifier}\", blocks of {block_size} bytes, integrity extent {integrity}, {maps}"
                )
            }
            _ => Ok(()),
        }
    }
}

// The main fields of the descriptors of a volume's parts: the other part of that match.
#[derive(Clone, Copy)]
pub struct PartFields<'a>(pub Descriptor<'a>);

impl fmt::Display for PartFields<'_> {
    fn fmt<W: fmt::Write>(&self, f: &mut fmt::Formatter<W>) -> fmt::Result {
        match self.0 {
            Descriptor::Partition {
                flags,
                partition,
                ..
            } => { write!(f, ", {}", Allotted { partition, flags }) }
            Descriptor::UnallocatedSpace { extents, .. } => { write!(f, ", {}", Free(extents)) }
            Descriptor::Integrity {
                recorded,
                state,
                next,
                partitions,
                ..
            } => {
                let recorded = Date(recorded);
                write!(
                    f,
                    ", {state}, partitions: {partitions}, next extent {next}, recorded {recorded}"
                )
            }
            _ => Ok(()),
        }
    }
}

// A descriptor: its kind, its serial and its main fields. Its tables are told row by row, and rows are read in a crate above its own.
#[derive(Clone, Copy)]
pub struct Described<'a>(pub Descriptor<'a>);

impl fmt::Display for Described<'_> {
    fn fmt<W: fmt::Write>(&self, f: &mut fmt::Formatter<W>) -> fmt::Result {
        write!(
            f,
            "{}, serial {}{}{}{}",
            self.0.kind(),
            self.0.serial(),
            Sequenced(self.0),
            VolumeFields(self.0),
            PartFields(self.0)
        )
    }
}

// A sector's number and what was found there.
#[derive(Clone, Copy)]
pub struct Line<'a> {
    pub number: u32,
    pub finding: Finding<'a>,
}

impl fmt::Display for Line<'_> {
    fn fmt<W: fmt::Write>(&self, f: &mut fmt::Formatter<W>) -> fmt::Result {
        write!(f, "sector {}: ", self.number)?;
        match self.finding {
            Finding::Descriptor(_, descriptor) => write!(f, "{}", Described(descriptor)),
            Finding::Structure(structure) => write!(f, "volume structure descriptor {structure}"),
            Finding::Refused(refusal) => write!(f, "{refusal}"),
            Finding::Blank => write!(f, "blank"),
            Finding::Other => write!(f, "no descriptor"),
        }
    }
}
