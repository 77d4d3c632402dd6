// Little-endian fields read and written at an offset of a run of bytes.
// Every offset is met: past the end a run reads as 0, and nothing is written there.
ghost use Rattle.std.specs.Prelude.{◌≡◌};
ghost use Rattle.octets.specs.Fields.{byte_at, u16_at, u32_at, put, Puts, le16, le32};

// The byte at an offset.
pub fn byte_at(bytes: &[u8], at: usize) -> u8
    ensures { result ≡ byte_at bytes.now at }
{
    bytes.get(at).copied().unwrap_or(0)
}

// A function for each width, here and where a number is put, as std has `from_le_bytes` of each type: a trait for both would
// hold the same bodies, and hide the width where a field is read.
// The number of 16 bits at an offset.
pub fn u16_at(bytes: &[u8], at: usize) -> u16
    ensures { result ≡ u16_at bytes.now at }
{
    let low = byte_at(bytes, at);
    let high = byte_at(bytes, at.saturating_add(1));
    u16::from(low) + 256 * u16::from(high)
}

// The number of 32 bits at an offset.
pub fn u32_at(bytes: &[u8], at: usize) -> u32
    ensures { result ≡ u32_at bytes.now at }
{
    let low = u16_at(bytes, at);
    let high = u16_at(bytes, at.saturating_add(2));
    u32::from(low) + 65_536 * u32::from(high)
}

// The part of the run that the area has room for.
fn copy_in(area: &mut [u8], at: usize, run: &[u8])
    ensures { area.new ≡ put at run.now area.old }
{
    if at < area.len() {
        let count = run.len().min(area.len() - at);
        area[at..at + count].copy_from_slice(&run[..count]);
    }
}

// Puts a run of bytes at an offset of an area.
pub fn put_bytes(area: &mut [u8], at: usize, run: &[u8])
    ensures value { area.new ≡ put at run.now area.old }
    ensures law { Puts at run.now area.old area.new }
{
    copy_in(area, at, run);
}

// Puts a number of 16 bits at an offset of an area.
pub fn put_u16(area: &mut [u8], at: usize, value: u16)
    ensures { area.new ≡ put at (le16 value) area.old }
{
    put_bytes(area, at, &value.to_le_bytes());
}

// Puts a number of 32 bits at an offset of an area.
pub fn put_u32(area: &mut [u8], at: usize, value: u32)
    ensures { area.new ≡ put at (le32 value) area.old }
{
    let bytes = value.to_le_bytes();
    put_bytes(area, at, &bytes);
}
