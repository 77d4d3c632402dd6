// The CRC of a run of bytes.
ghost use Rattle.std.specs.Prelude.{◌≡◌};
ghost use Rattle.octets.specs.Polynomial.{Remainder};
ghost use Rattle.octets.specs.Crc.{shifted, absorbed, crc};

// The bit that leaves the register at a shift.
const TOP_BIT: u16 = 0x8000;

// The polynomial's terms below x^16: x^12, x^5 and 1.
const POLYNOMIAL: u16 = 0x1021;

// The register after one bit.
fn shift(register: u16) -> u16
    ensures { result ≡ shifted register }
{
    let moved = (register & 0x7fff) << 1;
    if register & TOP_BIT == 0 {
        moved
    } else {
        moved ^ POLYNOMIAL
    }
}

// The register after one byte, the most significant bit first.
fn absorb(register: u16, byte: u8) -> u16
    ensures { result ≡ absorbed register byte }
{
    let mut register = register ^ (u16::from(byte) << 8);
    for bit in 0..8u8 {
        register = shift(register);
    }
    register
}

// Byte after byte.
fn fold(bytes: &[u8]) -> u16
    ensures { result ≡ crc bytes.now }
{
    bytes
        .iter()
        .fold(0, |register, byte| absorb(register, *byte))
}

// The CRC of a run of bytes.
pub fn crc_of(bytes: &[u8]) -> u16
    ensures value { result ≡ crc bytes.now }
    ensures law { Remainder bytes.now result }
{
    fold(bytes)
}
