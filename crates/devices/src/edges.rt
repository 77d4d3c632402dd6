// The edges of each device and layer: the last sector, the first past the end, and the tally.
use crate::made::{image, number_of, queue, with_pairs, write};
use descriptor::kinds::SECTOR_BYTES;
use device::interface::Device;
use gather::gather::Gather;
use guard::guard::Guard;
use queue::queue::Queue;
use std::process::Abort;
use std::test::Fail;

// A sector, whether it takes writes, and the refusal of a write and of a read there, if there is one.
struct Edge {
    sector: u32,
    takes: bool,
    write: Option<u8>,
    read: Option<u8>,
}

const EDGES: [Edge; 5] = [
    Edge {
        sector: 0,
        takes: true,
        write: None,
        read: None,
    },
    Edge {
        sector: 5,
        takes: true,
        write: None,
        read: None,
    },
    Edge {
        sector: 6,
        takes: false,
        write: Some(1),
        read: Some(1),
    },
    Edge {
        sector: 7,
        takes: false,
        write: Some(1),
        read: Some(1),
    },
    Edge {
        sector: 0xFFFF_FFFF,
        takes: false,
        write: Some(1),
        read: Some(1),
    },
];

// The same of every device of six sectors: a refusal leaves the area, and only what is accepted is counted.
fn six_sectors<D: Device>(rt: &impl Abort, device: &mut D) {
    assert_eq!(rt; (device.count(), device.tally()), (6, 0));
    for edge in &EDGES {
        let takes = device.takes_writes(edge.sector);
        let answer = write(device, edge.sector, 0x5A);
        let mut area = [0x77; SECTOR_BYTES];
        let read = number_of(device.read(edge.sector, &mut area));
        let last = if edge.read.is_none() { 0x5A } else { 0x77 };
        assert_eq!(rt;
            (takes, answer, read, area[SECTOR_BYTES - 1]),
            (edge.takes, edge.write, edge.read, last)
        );
    }
    assert_eq!(rt; device.tally(), 2);
    device.settle();
    assert_eq!(rt; (device.count(), device.tally()), (6, 3));
}

#[test]
fn devices(rt: HostRuntime) -> Result<(), Fail> {
    six_sectors(&rt, &mut image(rt.alloc(), 6)?);
    six_sectors(&rt, &mut queue(rt.alloc(), 6, 0)?);
    six_sectors(&rt, &mut queue(rt.alloc(), 6, 1)?);
    six_sectors(&rt, &mut queue(rt.alloc(), 6, 9)?);
    Ok(())
}

#[test]
fn layers(rt: HostRuntime) -> Result<(), Fail> {
    six_sectors(&rt, &mut Guard::over(image(rt.alloc(), 6)?));
    let mut part: Gather<Queue> = with_pairs(queue(rt.alloc(), 20, 1)?, &[(2, 4), (18, 2)])?;
    six_sectors(&rt, &mut part);
    Ok(())
}

#[test]
fn no_sector(rt: HostRuntime) -> Result<(), Fail> {
    let mut empty = image(rt.alloc(), 0)?;
    assert_eq!(rt; empty.count(), 0);
    assert_eq!(rt; write(&mut empty, 0, 1), Some(1));
    let nothing = Gather::over(image(rt.alloc(), 6)?);
    assert_eq!(rt; nothing.count(), 0);
    assert_eq!(rt; nothing.takes_writes(0), false);
    Ok(())
}
