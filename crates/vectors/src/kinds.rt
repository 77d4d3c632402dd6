// The limits of the kinds that have some.
use crate::tags::refusal;
use descriptor::kinds::{Place, SECTOR_BYTES};
use octets::fields::{put_u16, put_u32};
use sample::damage::mend_sum;

// A sector of a kind, for sector 0, with no byte under its CRC and up to three fields of 32 bits; its refusal's number,
// if it is refused.
fn with_fields(kind: u16, place: Place, fields: [(usize, u32); 3]) -> Option<u8> {
    let mut sector = [0u8; SECTOR_BYTES];
    put_u16(&mut sector, 0, kind);
    put_u16(&mut sector, 2, 3);
    for (at, value) in fields {
        put_u32(&mut sector, at, value);
    }
    mend_sum(&mut sector);
    refusal(&sector, 0, place)
}

// Each row: block size, map table length, count of maps, and the refusal.
const VOLUMES: [(u32, u32, u32, Option<u8>); 7] = [
    (2048, 0, 0, None),
    (2048, 48, 8, None),
    (2048, 54, 9, Some(13)),
    (512, 0, 0, Some(13)),
    (2048, 5, 1, Some(13)),
    (2048, 12, 1, Some(13)),
    (2048, 0x3333_3336, 0x0888_8889, Some(13)),
];

#[test]
fn logical_volumes(rt: HostRuntime) {
    for (size, table, maps, wanted) in VOLUMES {
        assert_eq!(rt;
            with_fields(6, Place::Sequence, [(212, size), (264, table), (268, maps)]),
            wanted
        );
    }
}

// Each row: count of extents, length of the first, length of the last of sixteen, and the refusal.
const SPACES: [(u32, u32, u32, Option<u8>); 7] = [
    (0, 0, 0, None),
    (16, 2048, 4096, None),
    (17, 2048, 2048, Some(13)),
    (1, 2047, 0, Some(13)),
    (16, 2048, 1, Some(13)),
    (15, 2048, 1, None),
    (0xFFFF_FFFF, 0, 0, Some(13)),
];

#[test]
fn unallocated_spaces(rt: HostRuntime) {
    for (count, first, last, wanted) in SPACES {
        assert_eq!(rt;
            with_fields(7, Place::Sequence, [(20, count), (24, first), (144, last)]),
            wanted
        );
    }
}

// Each row: integrity type, count of partitions, and the refusal.
const STATES: [(u32, u32, Option<u8>); 5] = [
    (0, 0, None),
    (1, 8, None),
    (2, 0, Some(13)),
    (0, 9, Some(13)),
    (256, 0, Some(13)),
];

#[test]
fn integrity_states(rt: HostRuntime) {
    for (state, partitions, wanted) in STATES {
        assert_eq!(rt;
            with_fields(
                9,
                Place::IntegrityExtent,
                [(28, state), (72, partitions), (76, 0)],
            ),
            wanted
        );
    }
}
