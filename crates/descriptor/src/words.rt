// Kinds, states, extents and refusals of descriptors in words.
use crate::kinds::{Access, Extent, Integrity, Kind, Unknown};
use crate::refusal::Refusal;
use std::error::Error;
use std::fmt;

impl fmt::Display for Kind {
    fn fmt<W: fmt::Write>(&self, f: &mut fmt::Formatter<W>) -> fmt::Result {
        f.write_str(match self {
            Kind::Primary => "Primary Volume Descriptor",
            Kind::Anchor => "Anchor Volume Descriptor Pointer",
            Kind::ImplementationUse => "Implementation Use Volume Descriptor",
            Kind::Partition => "Partition Descriptor",
            Kind::LogicalVolume => "Logical Volume Descriptor",
            Kind::UnallocatedSpace => "Unallocated Space Descriptor",
            Kind::Terminating => "Terminating Descriptor",
            Kind::Integrity => "Logical Volume Integrity Descriptor",
        })
    }
}

impl fmt::Display for Integrity {
    fn fmt<W: fmt::Write>(&self, f: &mut fmt::Formatter<W>) -> fmt::Result {
        f.write_str(match self {
            Integrity::Open => "open",
            Integrity::Closed => "closed",
        })
    }
}

impl fmt::Display for Access {
    fn fmt<W: fmt::Write>(&self, f: &mut fmt::Formatter<W>) -> fmt::Result {
        f.write_str(match self {
            Access::NotStated => "access not stated",
            Access::ReadOnly => "read only",
            Access::WriteOnce => "write once",
            Access::Rewritable => "rewritable",
            Access::Overwritable => "overwritable",
        })
    }
}

impl<N: fmt::Display> fmt::Display for Unknown<N> {
    fn fmt<W: fmt::Write>(&self, f: &mut fmt::Formatter<W>) -> fmt::Result {
        write!(f, "the number {} names nothing", self.0)
    }
}

// An extent, by its bytes and its first sector.
impl fmt::Display for Extent {
    fn fmt<W: fmt::Write>(&self, f: &mut fmt::Formatter<W>) -> fmt::Result {
        match *self {
            Extent { length: 0, .. } => write!(f, "none"),
            Extent { length, location } => write!(f, "{length} bytes at {location}"),
        }
    }
}

// A refusal, by its number and in words.
impl fmt::Display for Refusal {
    fn fmt<W: fmt::Write>(&self, f: &mut fmt::Formatter<W>) -> fmt::Result {
        let words = match self {
            Refusal::Tag => "the tag's sum, reserved byte or version is wrong",
            Refusal::Location => "the tag names another sector",
            Refusal::Crc => "the CRC is wrong, or covers too many bytes",
            Refusal::Kind => "its kind is none that we read, or is off its limits",
        };
        write!(f, "refused {}: {words}", self.number())
    }
}

impl Error for Refusal {}
