// Devices for the tests, and calls of them.
use descriptor::kinds::{SECTOR_BYTES, Sector};
use device::fault::DeviceFault;
use device::interface::Device;
use layer::kind::Kind;
use layer::layer::Layer;
use media::image::Image;
use pairs::fault::PairFault;
use pairs::pair::Pair;
use queue::pending::Pending;
use queue::queue::Queue;
use std::alloc::{AllocError, Global};

// A sector full of a byte.
pub fn full(byte: u8) -> Sector {
    [byte; SECTOR_BYTES]
}

// An image of so many sectors of zeros, and a few bytes more that make no sector.
pub fn image(heap: Global, sectors: u16) -> Result<Image, AllocError> {
    let bytes = vec![in heap; 0u8; usize::from(sectors) * SECTOR_BYTES + 100]?;
    Ok(Image::over(bytes))
}

// A queue of so many sectors of zeros, with so many slots.
pub fn queue(heap: Global, sectors: u16, slots: u8) -> Result<Queue, AllocError> {
    let bytes = vec![in heap; 0u8; usize::from(sectors) * SECTOR_BYTES + 100]?;
    let slot = Pending {
        sector: 0,
        bytes: full(0),
    };
    let area = vec![in heap; slot; usize::from(slots)]?;
    Ok(Queue::over(bytes, area))
}

// A layer with these pairs of offset and length.
pub fn with_pairs<K: Kind, D: Device + Drop>(
    below: D,
    pairs: &[(u32, u32)],
) -> Result<Layer<K, D>, PairFault> {
    let mut layer = Layer::over(below);
    for (offset, length) in pairs {
        layer.add(Pair {
            offset: *offset,
            length: *length,
        })?;
    }
    Ok(layer)
}

// The number of a refusal, if it is one; for each type of refusal there is such a line in the tests that meet it.
pub fn number_of(answer: Result<(), DeviceFault>) -> Option<u8> {
    answer.err().map(|fault| fault.number())
}

// Writes a sector full of a byte, and answers the refusal's number, if it is refused.
pub fn write<D: Device>(device: &mut D, sector: u32, byte: u8) -> Option<u8> {
    number_of(device.write(sector, &full(byte)))
}

// The first byte of a sector, or the refusal.
pub fn first_byte<D: Device>(device: &D, sector: u32) -> Result<u8, DeviceFault> {
    let mut area = full(0);
    device.read(sector, &mut area)?;
    Ok(area[0])
}
