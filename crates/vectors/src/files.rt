// Image files: whole, short, empty and missing.
use descriptor::kinds::SECTOR_BYTES;
use examples::terminating_example;
use image::fault::Fault;
use image::inspect::{fill, inspect};
use inspection::summary::Summary;
use std::io::Read;
use std::test::Fail;
use std::{fs, io};

#[test]
fn refused_files(rt: HostRuntime) -> Result<(), Fail> {
    assert!(rt; matches!(inspect(&rt, "no-such-image"), Err(Fault::Io(_))));
    assert!(rt; matches!(inspect(&rt, "."), Err(Fault::Io(_))), "a folder");
    fs::write(&rt, "empty.img", b"")?;
    assert!(rt; matches!(inspect(&rt, "empty.img"), Err(Fault::Empty)));
    let sector = terminating_example();
    fs::write(&rt, "short.img", &sector[0..2047])?;
    assert!(rt; matches!(inspect(&rt, "short.img"), Err(Fault::Partial { .. })));
    Ok(())
}

#[test]
fn whole_file(rt: HostRuntime) -> Result<(), Fail> {
    let sector = terminating_example();
    let mut image = vec![in rt.alloc(); 0u8; 40 * SECTOR_BYTES]?;
    image[37 * SECTOR_BYTES..38 * SECTOR_BYTES].copy_from_slice(&sector);
    fs::write(&rt, "whole.img", image.as_slice())?;
    let summary = inspect(&rt, "whole.img")?;
    let found = Summary {
        descriptors: 1,
        blank: 39,
        ..Summary::new()
    };
    assert_eq!(rt; (summary, summary.sectors()), (found, 40));
    Ok(())
}

// A source that gives one byte at a time, and then ends.
#[derive(Drop)]
struct Trickle {
    left: u32,
}

impl Read for Trickle {
    fn read(&mut self, buf: &mut [u8]) -> io::Result<usize> {
        if self.left == 0 || buf.len() == 0 {
            return Ok(0);
        }
        self.left -= 1;
        buf[0] = 7;
        Ok(1)
    }
}

#[test]
fn short_reads(rt: HostRuntime) -> Result<(), Fail> {
    let mut source = Trickle { left: 3000 };
    let mut sector = [0u8; SECTOR_BYTES];
    assert_eq!(rt; fill(&mut source, &mut sector)?, 2048);
    assert_eq!(rt; sector[0], 7);
    assert_eq!(rt; sector[2047], 7);
    assert_eq!(rt; fill(&mut source, &mut sector)?, 952);
    assert_eq!(rt; fill(&mut source, &mut sector)?, 0);
    assert_eq!(rt; source.left, 0);
    Ok(())
}
