// What its tag says of a descriptor: its kind, and the serial number of its set.
ghost use Rattle.std.specs.Prelude.{◌≡◌};
ghost use Rattle.descriptor.specs.Kinds.{fields_of, kind_of, serial_of};

use crate::kinds::{Descriptor, Kind};

impl Descriptor<'_> {
    // The kind of the descriptor.
    pub fn kind(self) -> Kind
        ensures { result ≡ kind_of (fields_of self.entry) }
    {
        match self {
            Descriptor::Primary { .. } => Kind::Primary,
            Descriptor::Anchor { .. } => Kind::Anchor,
            Descriptor::ImplementationUse { .. } => Kind::ImplementationUse,
            Descriptor::Partition { .. } => Kind::Partition,
            Descriptor::LogicalVolume { .. } => Kind::LogicalVolume,
            Descriptor::UnallocatedSpace { .. } => Kind::UnallocatedSpace,
            Descriptor::Terminating { .. } => Kind::Terminating,
            Descriptor::Integrity { .. } => Kind::Integrity,
        }
    }

    // The serial number of the set of descriptors that this one belongs to.
    pub fn serial(self) -> u16
        ensures { result ≡ serial_of (fields_of self.entry) }
    {
        match self {
            Descriptor::Primary { serial, .. }
            | Descriptor::Anchor { serial, .. }
            | Descriptor::ImplementationUse { serial, .. }
            | Descriptor::Partition { serial, .. }
            | Descriptor::LogicalVolume { serial, .. }
            | Descriptor::UnallocatedSpace { serial, .. }
            | Descriptor::Terminating { serial }
            | Descriptor::Integrity { serial, .. } => serial,
        }
    }
}
