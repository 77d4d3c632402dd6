// The limits of what is written, and the rows of tables that are read back.
use descriptor::decode::decode;
use descriptor::kinds::{Descriptor, Extent, FreePair, Integrity, Partition, PartitionMap, Place};
use encode::limits::OffLimits;
use encode::seal::Stamp;
use encode::table_descriptors::{integrity, logical_volume, unallocated_space};
use std::test::Fail;
use tables::rows::read_row;

const STAMP: Stamp = Stamp {
    serial: 0xFFFF,
    location: 0xFFFF_FFFF,
};

const NOWHERE: Extent = Extent {
    length: 0,
    location: 0,
};

fn some(number: u16) -> Partition {
    Partition {
        number,
        access: 4,
        first: 66,
        count: 0xFFFF_FFFF,
    }
}

#[test]
fn limits(rt: HostRuntime) {
    let nine = [some(1); 9];
    let name = [b'x'; 128];
    let pair = FreePair {
        first: 300,
        count: 524_287,
    };
    let long = FreePair {
        first: 300,
        count: 524_288,
    };
    assert_eq!(rt;
        logical_volume(STAMP, 0, &name, &nine, NOWHERE).err(),
        Some(OffLimits::Partitions)
    );
    assert_eq!(rt;
        logical_volume(STAMP, 0, &name, &nine[0..8], NOWHERE).err(),
        None
    );
    assert_eq!(rt;
        integrity(STAMP, &[0; 12], Integrity::Open, &nine).err(),
        Some(OffLimits::Partitions)
    );
    assert_eq!(rt;
        unallocated_space(STAMP, 0, &[pair; 17]).err(),
        Some(OffLimits::Pairs)
    );
    assert_eq!(rt; unallocated_space(STAMP, 0, &[pair; 16]).err(), None);
    assert_eq!(rt;
        unallocated_space(STAMP, 0, &[pair, long]).err(),
        Some(OffLimits::PairLength)
    );
    assert_eq!(rt; OffLimits::PairLength.number(), 34);
}

#[test]
fn rows(rt: HostRuntime) -> Result<(), Fail> {
    let sector = logical_volume(STAMP, 7, &[0; 128], &[some(0xABCD), some(5)], NOWHERE)?;
    let Ok(Descriptor::LogicalVolume { maps, .. }) = decode(&sector, 0xFFFF_FFFF, Place::Sequence)
    else {
        return Err(Fail::new("no logical volume"));
    };
    let first = PartitionMap {
        kind: 1,
        length: 6,
        volume: 1,
        number: 0xABCD,
    };
    assert_eq!(rt; read_row::<PartitionMap>(maps, 0), Some(first));
    let second = read_row::<PartitionMap>(maps, 1);
    assert_eq!(rt; second.map(|map| map.number), Some(5));
    assert!(rt; read_row::<PartitionMap>(maps, 2).is_none(), "two rows");
    assert!(rt;
        read_row::<u32>(maps, usize::MAX).is_none(),
        "far past the end"
    );
    assert!(rt;
        read_row::<Extent>(b"\x00\x08\x00\x00\x2A\x00\x00", 0).is_none(),
        "seven bytes are no row of eight"
    );
    Ok(())
}
