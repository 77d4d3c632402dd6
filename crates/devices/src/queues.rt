// The queue: what waits, what lands and when.
use crate::made::{first_byte, queue, write};
use device::fault::DeviceFault;
use device::interface::Device;
use media::image::Image;
use queue::queue::Queue;
use std::test::Fail;

// The first byte of each of the first four sectors as it has landed.
fn landed(queue: Queue) -> Result<[u8; 4], DeviceFault> {
    let image = Image::over(queue.into_parts().bytes);
    Ok([
        first_byte(&image, 0)?,
        first_byte(&image, 1)?,
        first_byte(&image, 2)?,
        first_byte(&image, 3)?,
    ])
}

// After four writes, of 1 to 4 in turn, with so many slots: how many wait, and what has landed.
struct Full {
    slots: u8,
    waiting: usize,
    landed: [u8; 4],
}

const FULL: [Full; 4] = [
    Full {
        slots: 0,
        waiting: 0,
        landed: [4, 2, 3, 0],
    },
    Full {
        slots: 1,
        waiting: 1,
        landed: [1, 2, 3, 0],
    },
    Full {
        slots: 2,
        waiting: 2,
        landed: [1, 2, 0, 0],
    },
    Full {
        slots: 4,
        waiting: 4,
        landed: [0, 0, 0, 0],
    },
];

#[test]
fn oldest_lands_first(rt: HostRuntime) -> Result<(), Fail> {
    for full in &FULL {
        let mut device = queue(rt.alloc(), 4, full.slots)?;
        let answers = [
            write(&mut device, 0, 1),
            write(&mut device, 1, 2),
            write(&mut device, 2, 3),
            write(&mut device, 0, 4),
        ];
        assert_eq!(rt; answers, [None; 4]);
        assert_eq!(rt; device.waiting(), full.waiting);
        assert_eq!(rt; first_byte(&device, 0)?, 4);
        assert_eq!(rt; landed(device)?, full.landed);
    }
    Ok(())
}

#[test]
fn a_settle_lands_all(rt: HostRuntime) -> Result<(), Fail> {
    let mut device = queue(rt.alloc(), 4, 3)?;
    assert_eq!(rt;
        [write(&mut device, 3, 7), write(&mut device, 3, 8)],
        [None; 2]
    );
    assert_eq!(rt;
        (device.waits(3), device.waits(2), device.waiting()),
        (true, false, 2)
    );
    device.settle();
    assert_eq!(rt;
        (device.waits(3), device.waits(2), device.waiting()),
        (false, false, 0)
    );
    assert_eq!(rt; first_byte(&device, 3)?, 8);
    assert_eq!(rt; landed(device)?, [0, 0, 0, 8]);
    Ok(())
}

#[test]
fn a_refused_write_does_not_wait(rt: HostRuntime) -> Result<(), Fail> {
    let mut device = queue(rt.alloc(), 4, 3)?;
    assert_eq!(rt; write(&mut device, 4, 7), Some(1));
    assert_eq!(rt; (device.waiting(), device.tally()), (0, 0));
    Ok(())
}
